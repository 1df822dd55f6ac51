//! The word `tidy`.
ghost use Rattle.std.specs.Prelude.{◌≡◌, ◌≤◌};
ghost use Rattle.cacache_program.specs.{Orders.{order_of as view_of}, WordTidy.{PrunesIf, Settles, Tidies, Trims, is_limited as is_limited_order}};

use crate::errors::Errors;
use crate::keep::collecting::collect_by;
use crate::keep::orders::Order;
use crate::keep::program::{compact_and_print, sweep_and_print};
use crate::keep::pruning::prune_and_print;
use cacache::env::{Clock, Env, Names, Reasons};
use cacache_store::store::Stamps;
use std::io::Write;

/// Whether there is a limit.
fn is_limited(order: Order<'_>) -> bool
    ensures { result ≡ is_limited_order (view_of order.entry) }
{
    order.size.is_some() || order.age.is_some()
}

/// Prunes the cache if there is a limit.
fn prune_if<S: Reasons + Stamps, C: Clock, N: Names, W: Write, E: Write>(
    env: &mut Env<S, C, N>,
    order: Order<'_>,
    output: &mut W,
    errors: &mut Errors<E>,
) -> u8
    ensures does { PrunesIf S.log C.given (is_limited_order (view_of order.entry)) (view_of order.entry)
        env.old env.new (W.contents output.old) (W.contents output.new) result }
    ensures status { result ≤ 1 }
    ensures quiet { result ≡ 0 → errors.new ≡ errors.old }
{
    if is_limited(order) {
        return prune_and_print(env, order, output, errors);
    }
    0
}

/// Compacts the cache, and then collects it.
fn settle<S: Reasons + Stamps, C: Clock, N: Names, W: Write, E: Write>(
    env: &mut Env<S, C, N>,
    order: Order<'_>,
    output: &mut W,
    errors: &mut Errors<E>,
) -> u8
    ensures does { Settles S.log C.given (view_of order.entry)
        env.old env.new (W.contents output.old) (W.contents output.new) result }
    ensures status { result ≤ 1 }
    ensures quiet { result ≡ 0 → errors.new ≡ errors.old }
{
    let status = compact_and_print(env, order.cache, false, output, errors);
    if status != 0 {
        return status;
    }
    collect_by(env, order, output, errors)
}

/// Prunes the cache if there is a limit, and then does the rest.
fn trim<S: Reasons + Stamps, C: Clock, N: Names, W: Write, E: Write>(
    env: &mut Env<S, C, N>,
    order: Order<'_>,
    output: &mut W,
    errors: &mut Errors<E>,
) -> u8
    ensures does { Trims S.log C.given (view_of order.entry)
        env.old env.new (W.contents output.old) (W.contents output.new) result }
    ensures status { result ≤ 1 }
    ensures quiet { result ≡ 0 → errors.new ≡ errors.old }
{
    let status = prune_if(env, order, output, errors);
    if status != 0 {
        return status;
    }
    settle(env, order, output, errors)
}

/// Sweeps the cache, prunes it if there is a limit, compacts it, and collects it. Each prints its counts, and none comes
/// after one that failed.
pub(crate) fn tidy<S: Reasons + Stamps, C: Clock, N: Names, W: Write, E: Write>(
    env: &mut Env<S, C, N>,
    order: Order<'_>,
    output: &mut W,
    errors: &mut Errors<E>,
) -> u8
    ensures does { Tidies S.log C.given (view_of order.entry)
        env.old env.new (W.contents output.old) (W.contents output.new) result }
    ensures status { result ≤ 1 }
    ensures quiet { result ≡ 0 → errors.new ≡ errors.old }
{
    let status = sweep_and_print(env, order.cache, output, errors);
    if status != 0 {
        return status;
    }
    trim(env, order, output, errors)
}
