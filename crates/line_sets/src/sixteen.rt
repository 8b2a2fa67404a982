// Sets of sixteen lines.
ghost use Rattle.std.specs.Prelude.{◌≡◌, ◌<◌, IfSome};
ghost use Rattle.line_sets.specs.LineSet.{has, minus, with_line, without_line, lowest_of};

/// Whether the line is in the set of sixteen lines.
pub fn has_line16(lines: u16, line: u8) -> bool
    requires { line < 16 }
    ensures { result ≡ has lines line }
{
    (lines >> line) & 1 == 1
}

/// The set of sixteen lines with the line in it.
pub fn with_line16(lines: u16, line: u8) -> u16
    requires { line < 16 }
    ensures { result ≡ with_line lines line }
{
    lines | (1 << line)
}

/// The set of sixteen lines without the line.
pub fn without_line16(lines: u16, line: u8) -> u16
    requires { line < 16 }
    ensures { result ≡ without_line lines line }
{
    lines & !(1 << line)
}

/// The lines of the first set that are not in the second.
pub fn minus16(lines: u16, others: u16) -> u16
    ensures { result ≡ minus lines others }
{
    lines & !others
}

/// The line of lowest number in the set of sixteen lines; `None` exactly where the set is empty.
pub fn lowest16(lines: u16) -> Option<u8>
    ensures line { result ≡ lowest_of 16 lines }
    ensures below { IfSome result (λ n. n < 16) }
{
    if lines == 0 {
        None
    } else {
        Some(lines.trailing_zeros() as u8)
    }
}
