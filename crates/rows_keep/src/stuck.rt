//! Kinds of steps, which a store lets fail.
use cacache::store::Step;

/// A kind of step.
#[derive(Clone, Copy)]
pub(crate) enum Kind {
    Remove,
    Exists,
    Size,
    List,
    Open,
    Append,
    Read,
    Piece,
    LaterPiece,
    Make,
    Create,
    Write,
    Persist,
    SyncTemp,
    SyncFile,
    SyncDir,
}

impl Kind {
    /// The kind that a word names.
    pub(crate) fn named(word: &str) -> Option<Kind> {
        match word {
            "remove" => Some(Kind::Remove),
            "exists" => Some(Kind::Exists),
            "size" => Some(Kind::Size),
            "list" => Some(Kind::List),
            "open" => Some(Kind::Open),
            "append" => Some(Kind::Append),
            "read" => Some(Kind::Read),
            "piece" => Some(Kind::Piece),
            "later_piece" => Some(Kind::LaterPiece),
            "make" => Some(Kind::Make),
            "create" => Some(Kind::Create),
            "write" => Some(Kind::Write),
            "persist" => Some(Kind::Persist),
            "sync_temp" => Some(Kind::SyncTemp),
            "sync_file" => Some(Kind::SyncFile),
            "sync_dir" => Some(Kind::SyncDir),
            _ => None,
        }
    }

    /// How many of these steps are done before one fails.
    pub(crate) fn done(self) -> u32 {
        if matches!(self, Kind::LaterPiece) {
            1
        } else {
            0
        }
    }

    /// Whether a step is of this kind.
    pub(crate) fn is_of<F, T>(self, step: &Step<F, T>) -> bool {
        match step {
            Step::RemoveFile(_) => matches!(self, Kind::Remove),
            Step::Exists(_) => matches!(self, Kind::Exists),
            Step::Size(_) => matches!(self, Kind::Size),
            Step::ReadDir(_) => matches!(self, Kind::List),
            Step::Open(_) => matches!(self, Kind::Open),
            Step::Append(_, _) => matches!(self, Kind::Append),
            Step::ReadAll(_) => matches!(self, Kind::Read),
            Step::Read(_, _) => matches!(self, Kind::Piece | Kind::LaterPiece),
            Step::MakeDirs(_) => matches!(self, Kind::Make),
            Step::CreateTemp(_) => matches!(self, Kind::Create),
            Step::Write(_, _) => matches!(self, Kind::Write),
            Step::Persist(_, _) => matches!(self, Kind::Persist),
            Step::SyncTemp(_) => matches!(self, Kind::SyncTemp),
            Step::SyncFile(_) => matches!(self, Kind::SyncFile),
            Step::SyncDir(_) => matches!(self, Kind::SyncDir),
            _ => false,
        }
    }
}
