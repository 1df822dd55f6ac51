//! The names of words.
ghost use Rattle.std.specs.Prelude.{◌≡◌};
ghost use Rattle.cacache_program.specs.OptionTable.{word_in};

/// What the program is to do.
#[derive(Clone, Copy)]
pub(crate) enum Word {
    /// `verify`
    Verify,
    /// `plan`
    Plan,
    /// `sweep`
    Sweep,
    /// `repair`
    Repair,
    /// `compact`
    Compact,
    /// `collect`
    Collect,
    /// `prune`
    Prune,
    /// `plan-prune`
    PlanPrune,
    /// `touch`
    Touch,
    /// `tidy`
    Tidy,
}

/// Which name the word is.
pub(crate) fn word_of(word: &str) -> Option<Word>
    ensures { result ≡ word_in word.now }
{
    match word {
        "verify" => Some(Word::Verify),
        "plan" => Some(Word::Plan),
        "sweep" => Some(Word::Sweep),
        "repair" => Some(Word::Repair),
        "compact" => Some(Word::Compact),
        "collect" => Some(Word::Collect),
        "prune" => Some(Word::Prune),
        "plan-prune" => Some(Word::PlanPrune),
        "touch" => Some(Word::Touch),
        "tidy" => Some(Word::Tidy),
        _ => None,
    }
}
