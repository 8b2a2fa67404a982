// The sink over standard output.

use outside_io::{Sink, SinkFault};
use std::io;
use std::io::Write;

/// Standard output. It tells nothing of what was written. A put fails where a write fails or takes no byte, and then the
/// count of faults is raised.
#[derive(Drop)]
pub struct OutSink<'a, R: Print> {
    rt: &'a R,
    faults: u64,
}

impl<'a, R: Print> OutSink<'a, R> {
    /// The standard output of `rt`, with no fault yet.
    pub fn new(rt: &'a R) -> OutSink<'a, R> {
        OutSink { rt, faults: 0 }
    }
}

impl<R: Print> Sink for OutSink<'_, R> {
    ghost use Rattle.std.specs.Prelude.{None};

    ghost written = { λ _. None };

    ghost faults = { λ sink. sink.faults };

    fn put(&mut self, piece: &[u8]) -> Result<(), SinkFault> {
        if write_whole(self.rt, piece) {
            Ok(())
        } else {
            self.faults = self.faults.saturating_add(1);
            Err(SinkFault)
        }
    }
}

// Writes all of a piece; false where a write fails or takes no byte.
fn write_whole<R: Print>(rt: &R, piece: &[u8]) -> bool {
    let mut writer = io::writer(rt);
    let mut rest = piece;
    'pieces: while !rest.is_empty() {
        match writer.write(rest) {
            Ok(count) => {
                if count == 0 {
                    return false;
                }
                rest = &rest[count..];
            }
            Err(_) => return false,
        }
    }
    true
}
