// Sets of 32 lines.
ghost use Rattle.std.specs.Prelude.{◌≡◌, ◌<◌, IfSome};
ghost use Rattle.line_sets.specs.LineSet.{has, minus, with_line, without_line, lowest_of};

/// Whether the line is in the set of 32 lines.
pub fn has_line32(lines: u32, line: u8) -> bool
    requires { line < 32 }
    ensures { result ≡ has lines line }
{
    (lines >> line) & 1 == 1
}

/// The set of 32 lines with the line in it.
pub fn with_line32(lines: u32, line: u8) -> u32
    requires { line < 32 }
    ensures { result ≡ with_line lines line }
{
    lines | (1 << line)
}

/// The set of 32 lines without the line.
pub fn without_line32(lines: u32, line: u8) -> u32
    requires { line < 32 }
    ensures { result ≡ without_line lines line }
{
    lines & !(1 << line)
}

/// The lines of the first set that are not in the second.
pub fn minus32(lines: u32, others: u32) -> u32
    ensures { result ≡ minus lines others }
{
    lines & !others
}

/// The line of lowest number in the set of 32 lines; `None` exactly where the set is empty.
pub fn lowest32(lines: u32) -> Option<u8>
    ensures line { result ≡ lowest_of 32 lines }
    ensures below { IfSome result (λ n. n < 32) }
{
    if lines == 0 {
        None
    } else {
        Some(lines.trailing_zeros() as u8)
    }
}
