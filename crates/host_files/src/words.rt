// The words of the command line.
use std::rt::Env;
use std::{env, io};

/// The words after the program's name.
pub fn command_line<R: Env + AllocGlobal>(rt: &R) -> io::Result<Vec<String>> {
    let mut list = Vec::new(rt.alloc());
    for (place, word) in env::args(rt)?.enumerate() {
        if place > 0 {
            list.push(word)?;
        }
    }
    Ok(list)
}
