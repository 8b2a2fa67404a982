//! The words of the command line: which words a command takes, and the names and numbers among them.
#![tactic(auto)]

mod command;
mod make;
mod parse;
mod rows;
mod run;
mod values;

pub use make::{MakeWords, read_make_words};
pub use parse::WordsRefusal;
pub use rows::{
    reads_usual_make_words, reads_usual_words, refuses_other_make_words, refuses_other_words,
};
pub use run::{RunWords, read_run_words};
pub use values::{is_name, is_number, read_number, read_ticks};
