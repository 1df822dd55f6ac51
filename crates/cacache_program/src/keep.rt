//! What the program `cacache-keep` does with its words and its streams.
//!
//! - `about`: what the program says about itself
//! - `amounts`: numbers with units
//! - `collecting`: the word `collect`
//! - `escaping`: names as a list prints them
//! - `missing`: what is said if there is no cache
//! - `names`: the names of the words
//! - `naming`: the list of what a verification found
//! - `options`: the options among the words
//! - `orders`: what the words ask for
//! - `output`: what goes to the output
//! - `program`: what the program does with its words
//! - `pruning`: the words that drop the oldest entries
//! - `roots`: further roots, as a file names them
//! - `tidying`: the word `tidy`
//! - `touching`: the word `touch`
mod about;
mod amounts;
mod collecting;
mod escaping;
mod missing;
mod names;
mod naming;
mod options;
mod orders;
mod output;
mod program;
mod pruning;
mod roots;
mod tidying;
mod touching;

pub use about::{HELP, USAGE, VERSION, said};
pub use missing::tell_missing;
pub use program::run;
