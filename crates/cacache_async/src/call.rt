//! Calls with their arguments.
ghost use Rattle.std.specs.Prelude.{Result};
ghost use Rattle.cacache_core.specs.declared.errors.Error.{Error};
ghost use Rattle.cacache_store.specs.declared.env.Env.{Env};

use cacache_core::errors::Result;
use cacache_store::env::Env;

/// A call with its arguments, which may be made once.
pub trait Call<S, C, N>: Drop {
    /// What the call answers if it doesn't fail.
    type Output;

    /// In the first environment the call may answer so, and leaves the second one: the contract of the call that isn't a
    /// future.
    ghost makes: { Self → Env S C N → Result Self.Output Error → Env S C N → Type 0 };

    /// Makes the call.
    fn make(self, env: &mut Env<S, C, N>) -> Result<Self::Output>
        ensures { makes self env.old result env.new };
}
