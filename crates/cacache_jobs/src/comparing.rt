//! Compares a content with the integrity and the size that the caller expects.
ghost use Rattle.std.specs.Prelude.{◌≡◌, IfOk, IfErr};
ghost use Rattle.cacache_calls.specs.{Storing.{placed, sized, indexed, matches}, Runs.{EndsAs}};

use cacache_calls::Commit;
use cacache_core::errors::{self, Error, IntegrityFault};
use cacache_core::integrity::Integrity;
use cacache_core::laws::integrity_laws;

/// Whether the expected integrity matches the computed one.
#[tactic(auto, using(crate::proofs::Checking::same_answer))]
fn agree(expected: &Integrity, computed: &Integrity) -> bool
    ensures { result ≡ matches expected.now computed.now }
{
    integrity_laws();
    expected.matches(computed).is_some()
}

/// Refuses a content that doesn't have the expected integrity.
pub(crate) fn compare_integrity(commit: &Commit) -> errors::Result<()>
    ensures ok { IfOk result (λ _. placed commit.now
        ≡ sized commit.now commit.now.options.size) }
    ensures err { IfErr result (λ e. EndsAs e (placed commit.now)) }
{
    if let Some(expected) = &commit.options.integrity {
        let computed = &commit.computed;
        if !agree(expected, computed) {
            let expected = expected.clone()?;
            let fault = IntegrityFault::Check(expected, computed.clone()?);
            return Err(Error::IntegrityError(fault));
        }
    }
    Ok(())
}

/// Refuses a content that doesn't have the expected size.
pub(crate) fn compare_size(commit: &Commit) -> errors::Result<()>
    ensures ok { IfOk result (λ _. sized commit.now commit.now.options.size
        ≡ indexed commit.now commit.now.key) }
    ensures err { IfErr result
        (λ e. EndsAs e (sized commit.now commit.now.options.size)) }
{
    if let Some(wanted) = commit.options.size {
        if wanted != commit.count {
            return Err(Error::SizeMismatch(wanted, commit.count));
        }
    }
    Ok(())
}
