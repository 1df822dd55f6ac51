//! The columns of a row, and the words of a step.
use rows::Flaw;
use rows::words::column;

/// The five columns of a row.
#[derive(Clone, Copy)]
pub(crate) struct Row<'a> {
    /// A new disk with this, a new `store`, one that begins with what the words after `of` say, or
    /// `then`: what the row before left.
    pub(crate) before: &'a str,
    pub(crate) luck: &'a str,
    pub(crate) step: &'a str,
    pub(crate) answer: &'a str,
    /// What is left; `same` if nothing changed.
    pub(crate) after: &'a str,
}

/// The columns of a line, if it has five.
pub(crate) fn row_of(line: &str) -> Result<Row<'_>, Flaw> {
    let (before, rest) = column(line)?;
    let (luck, rest) = column(rest)?;
    let (step, rest) = column(rest)?;
    let (answer, after) = column(rest)?;
    if after.contains('|') {
        return Err(Flaw::NotRead);
    }
    Ok(Row {
        before,
        luck,
        step,
        answer,
        after,
    })
}

/// A step: its kind, and one or two words.
#[derive(Clone, Copy)]
pub(crate) struct Words<'a> {
    pub(crate) kind: &'a str,
    pub(crate) first: &'a str,
    pub(crate) second: Option<&'a str>,
}

/// The words of a step, if there are two or three.
pub(crate) fn words_of(step: &str) -> Result<Words<'_>, Flaw> {
    let mut words = step.split(' ');
    match (words.next(), words.next(), words.next(), words.next()) {
        (Some(kind), Some(first), second, None) => Ok(Words {
            kind,
            first,
            second,
        }),
        _ => Err(Flaw::NotRead),
    }
}
