//! The steps of a row, which are made one after another.
use crate::answers::add;
use cacache_core::keeping::beside;
use rows::Flaw;
use rows::words::cut;
use std::alloc::Global;

/// Whether a step of a writer's row is an act in its environment: it counts a folder's names, or clears a cache.
pub(crate) fn is_act(step: &str) -> bool {
    let (name, _) = cut(step);
    matches!(name, "names" | "clear")
}

/// What steps are made with.
pub(crate) trait Stepped {
    /// What a step gives.
    fn step(&mut self, step: &str) -> Result<String, Flaw>;
}

/// Adds what a step gives to a line.
fn add_step<S: Stepped>(line: &mut String, stepped: &mut S, step: &str) -> Result<(), Flaw> {
    let answer = stepped.step(step)?;
    Ok(add(line, answer.as_str())?)
}

/// Adds what all steps give, one after another.
fn add_steps<S: Stepped>(line: &mut String, stepped: &mut S, steps: &str) -> Result<(), Flaw> {
    for step in steps.split("; ") {
        add_step(line, stepped, step)?;
    }
    Ok(())
}

/// What the steps give, one after another.
pub(crate) fn in_turn<S: Stepped>(
    alloc: Global,
    stepped: &mut S,
    steps: &str,
) -> Result<String, Flaw> {
    let mut line = String::new(alloc);
    let (_, line) = beside(add_steps(&mut line, stepped, steps), line)?;
    Ok(line)
}

/// A line with what the steps after the end of a writer give, if there are any.
pub(crate) fn with_steps<S: Stepped>(
    mut line: String,
    stepped: &mut S,
    after: &str,
) -> Result<String, Flaw> {
    let Some((_, steps)) = after.split_once("; ") else {
        return Ok(line);
    };
    let (_, line) = beside(add_steps(&mut line, stepped, steps), line)?;
    Ok(line)
}
