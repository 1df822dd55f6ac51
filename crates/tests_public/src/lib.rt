//! Tests of what rows can't say: stores of a test's own, worlds, threads, and the example of the README. There is nothing
//! else here.
#![tactic(auto)]

#[cfg(test)]
mod bases;
#[cfg(test)]
mod bytes;
#[cfg(test)]
mod losing;
#[cfg(test)]
mod making;
#[cfg(test)]
mod names;
#[cfg(test)]
mod order;
#[cfg(test)]
mod playing;
#[cfg(test)]
mod readme;
#[cfg(test)]
mod surviving;
#[cfg(test)]
mod threads;
#[cfg(test)]
mod turns;
#[cfg(test)]
mod worlds;
#[cfg(test)]
mod writes;
