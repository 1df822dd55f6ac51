//! Tests with threads: at one world, each with a seat of its own, at one real folder, and at polled writers.
mod folders;
mod meetings;
mod seats;
mod storms;
mod workers;
