//! The program: the top call over the words of the command line, files, and standard output.
#![tactic(auto)]

use host_files::{FileStore, OutSink, command_line};
use rtlinux_top::{Last, Status, rtlinux};
use std::io::ErrorKind;
use std::process::ExitCode;

/// What the program ends with where the system gives no words as text.
const NO_TEXT: u8 = 7;

fn main(rt: HostRuntime) -> ExitCode {
    let number = match command_line(&rt) {
        Ok(words) => {
            let mut store = FileStore::new(&rt);
            let mut sink = OutSink::new(&rt);
            let mut last = Last::Nothing;
            rtlinux(rt.alloc(), &words, &mut store, &mut sink, &mut last).number()
        }
        Err(error) => {
            if error.kind() == ErrorKind::OutOfMemory {
                Status::NoMemory.number()
            } else {
                NO_TEXT
            }
        }
    };
    ExitCode::from(number)
}
