//! What the program has of its host: the words of the command line, a store over files, and a sink over standard output.
#![tactic(auto)]

mod file_store;
mod out_sink;
mod words;

pub use file_store::FileStore;
pub use out_sink::OutSink;
pub use words::command_line;
