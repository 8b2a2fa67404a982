// Reading a script.

ghost use Rattle.std.specs.Prelude.{◌≤◌, length, IfOk};
ghost use Rattle.device_script.specs.Event.{IsScript};
ghost use Rattle.device_script.specs.Script.{script_of, events_with_line, ReadsScript, Took};

use crate::cut::first_line;
use crate::draft::Draft;
use crate::line::{event, is_skipped};
use crate::script::{Script, ScriptRefusal};
use std::alloc::Global;

/// Reads the bytes of a script. Lines are numbered from 1, comments and empty lines among them.
#[tactic(auto, using(crate::proofs::Kept::answer_keeps))]
pub fn read_script(alloc: Global, bytes: &[u8]) -> Result<Script, ScriptRefusal>
    requires { length bytes.now ≤ 33554432 }
    ensures exact { ReadsScript result (script_of bytes.now) }
    ensures rules { IfOk result (λ script. IsScript script.events) }
{
    read_lines(alloc, bytes)
}

fn read_lines(alloc: Global, bytes: &[u8]) -> Result<Script, ScriptRefusal>
    requires { length bytes.now ≤ 33554432 }
    ensures { ReadsScript result (script_of bytes.now) }
{
    let mut draft = Draft::new(alloc);
    let mut left = bytes;
    let mut number = 1u32;
    while !left.is_empty() {
        let (line, behind) = first_line(left);
        take_line(&mut draft, number, line)?;
        number += 1;
        left = behind;
    }
    Ok(draft.finish())
}

// The event of a line joins those of the lines before.
fn take_line(draft: &mut Draft, number: u32, line: &[u8]) -> Result<(), ScriptRefusal>
    ensures { Took draft.old draft.new result (events_with_line draft.old number line.now) }
{
    if is_skipped(line) {
        return Ok(());
    }
    match event(line) {
        Some((tick, event)) if draft.may_take(tick) => match draft.push(tick, event) {
            Ok(()) => Ok(()),
            Err(_) => Err(ScriptRefusal::NoMemory),
        },
        _ => Err(ScriptRefusal::BadLine(number)),
    }
}
