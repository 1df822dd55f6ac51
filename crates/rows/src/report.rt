//! Prints the results of rows.
use crate::flaw::Flaw;
use crate::names::Names;
use crate::tally::Tally;
use crate::trial::{Outcome, Trial};
use std::alloc::Global;
use std::io;

/// The kind of a line.
#[derive(Drop)]
pub enum Line {
    /// A group of rows begins.
    Group,
    /// A row, with each name replaced by its text.
    Row(String),
    /// An empty line, or one that defines a name: there is nothing to try.
    Other,
}

/// The results of the rows so far. A library of rows that send its runtime to threads loops over them with a `Report`. Every
/// other library has a `Trial`.
#[derive(Drop)]
pub struct Report {
    alloc: Global,
    names: Names,
    /// The group's heading.
    heading: String,
    /// The number of lines read so far.
    line: u64,
    /// The counts for the group.
    group: Tally,
    /// The counts for all groups.
    all: Tally,
}

/// Whether a row holds. Prints the row if it doesn't.
fn is_held(
    rt: &impl Print,
    line: u64,
    row: &str,
    tried: Result<Outcome, Flaw>,
) -> io::Result<bool> {
    match tried {
        Err(flaw) => println!(rt; "line {line}: {flaw}: {row}")?,
        Ok(outcome) => {
            if outcome.holds() {
                return Ok(true);
            }
            println!(rt; "line {line}: {row}")?;
            println!(rt; "    wanted: {}", outcome.wanted)?;
            println!(rt; "    got:    {}", outcome.got)?;
        }
    }
    Ok(false)
}

impl Report {
    /// A report before the first line.
    pub fn new(alloc: Global) -> Report {
        Report {
            alloc,
            names: Names::new(alloc),
            heading: String::new(alloc),
            line: 0,
            group: Tally::NONE,
            all: Tally::NONE,
        }
    }

    /// Prints the counts of the group, and resets them.
    fn close(&mut self, rt: &impl Print) -> io::Result<()> {
        let heading = self.heading.as_str();
        match self.group {
            Tally { held: 0, wrong: 0 } => {}
            Tally { held, wrong: 0 } => println!(rt; "{heading}: {held} rows hold")?,
            Tally { held, wrong } => println!(rt; "{heading}: {held} rows hold, {wrong} don't")?,
        }
        self.group = Tally::NONE;
        Ok(())
    }

    /// Reads a line: `# ` begins a group, `= ` defines a name, an empty line is ignored, and any other line is a row. At a
    /// new group, it prints the counts of the group before.
    pub fn read(&mut self, rt: &impl Print, line: &str) -> io::Result<Line> {
        self.line = self.line.saturating_add(1);
        if line.is_empty() {
            return Ok(Line::Other);
        }
        if let Some(heading) = line.strip_prefix("# ") {
            self.close(rt)?;
            self.heading = String::from_str(self.alloc, heading)?;
            return Ok(Line::Group);
        }
        if let Some(name) = line.strip_prefix("= ") {
            self.names.define(name)?;
            return Ok(Line::Other);
        }
        Ok(Line::Row(self.names.filled(line)?))
    }

    /// Counts a row, and prints it if it doesn't hold.
    pub fn count(
        &mut self,
        rt: &impl Print,
        row: &str,
        tried: Result<Outcome, Flaw>,
    ) -> io::Result<()> {
        let is_held = is_held(rt, self.line, row, tried)?;
        self.group.count(is_held);
        self.all.count(is_held);
        Ok(())
    }

    /// Prints the counts of the last group and how many rows hold in all. Returns whether every row holds.
    pub fn end(&mut self, rt: &impl Print) -> io::Result<bool> {
        self.close(rt)?;
        println!(rt; "all: {} rows hold", self.all.held)?;
        Ok(self.all.all_hold())
    }
}

/// Handles a line.
fn take(
    rt: &impl Print,
    report: &mut Report,
    trial: &mut impl Trial,
    line: &str,
) -> io::Result<()> {
    match report.read(rt, line)? {
        Line::Other => Ok(()),
        Line::Group => {
            trial.begin();
            Ok(())
        }
        Line::Row(row) => {
            let tried = trial.outcome(row.as_str());
            report.count(rt, row.as_str(), tried)
        }
    }
}

/// Tries the lines of a text as rows, each with this trial. A line `# ..` begins a group of rows. After a line `= NAME ..`,
/// `{NAME}` in a row is replaced by the text that follows the name. Prints how many rows of each group hold. Prints each row
/// that doesn't hold, with the expected and the actual result. Returns whether every row holds.
pub fn all_hold(
    rt: &(impl Print + AllocGlobal),
    rows: &str,
    trial: &mut impl Trial,
) -> io::Result<bool> {
    let mut report = Report::new(rt.alloc());
    for line in rows.lines() {
        take(rt, &mut report, trial, line)?;
    }
    report.end(rt)
}
