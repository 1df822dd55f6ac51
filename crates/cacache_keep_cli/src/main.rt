//! Looks after a cache: verifies and repairs it, and removes what nobody needs.
#![tactic(auto)]

use cacache::env::folders;
use cacache_program::keep::{run, said, tell_missing};
use cacache_program::{Errors, asks_why, tell, without_words, words_of};
use std::io::Write;
use std::process::ExitCode;

fn main(rt: HostRuntime) -> ExitCode {
    let mut errors = Errors::new(rt.stderr());
    let words = match words_of(&rt) {
        Ok(words) => words,
        Err(error) => return ExitCode::from(without_words(&error, said().usage, &mut errors)),
    };
    let (says_why, words) = asks_why(&words);
    errors.says_why = says_why;
    if let Some(status) = tell(words, said(), &mut rt.stdout(), &mut errors) {
        return ExitCode::from(status);
    }
    let Ok(mut env) = folders(rt, ".") else {
        let _ = errors.output.write_all(b"out of memory\n");
        return ExitCode::from(1);
    };
    if let Some(status) = tell_missing(&mut env, words, &mut errors) {
        return ExitCode::from(status);
    }
    ExitCode::from(run(&mut env, words, &mut rt.stdout(), &mut errors))
}
