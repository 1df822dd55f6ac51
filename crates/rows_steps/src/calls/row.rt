//! The columns of a row.
use rows::Flaw;
use rows::words::column;

/// The four columns of a row.
#[derive(Clone, Copy)]
pub(crate) struct Row<'a> {
    pub(crate) call: &'a str,
    /// The answers, with `; ` between; `-` for none.
    pub(crate) answers: &'a str,
    /// The steps and the reply.
    pub(crate) wanted: &'a str,
}

/// The columns of a line.
pub(crate) fn row_of(line: &str) -> Result<Row<'_>, Flaw> {
    let (call, rest) = column(line)?;
    let (answers, wanted) = column(rest)?;
    Ok(Row {
        call,
        answers,
        wanted,
    })
}
