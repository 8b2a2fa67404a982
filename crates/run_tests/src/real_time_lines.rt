// The real-time lines of what a run wrote.
use std::alloc::Global;
use std::test::Fail;

/// The lines that begin with R, each with its end.
pub fn real_time_lines(alloc: Global, written: &[u8]) -> Result<String, Fail> {
    let text = str::from_utf8(written).ok().ok_or("no text")?;
    let mut lines = String::new(alloc);
    for line in text.lines() {
        if line.starts_with("R ") {
            lines.push_str(line)?;
            lines.push_str("\n")?;
        }
    }
    Ok(lines)
}
