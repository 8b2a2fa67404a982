// Sets of eight lines.
ghost use Rattle.std.specs.Prelude.{◌≡◌, ◌<◌, IfSome};
ghost use Rattle.line_sets.specs.LineSet.{minus, with_line, without_line, lowest_of};

/// The set of eight lines with the line in it.
pub fn with_line8(lines: u8, line: u8) -> u8
    requires { line < 8 }
    ensures { result ≡ with_line lines line }
{
    lines | (1 << line)
}

/// The set of eight lines without the line.
pub fn without_line8(lines: u8, line: u8) -> u8
    requires { line < 8 }
    ensures { result ≡ without_line lines line }
{
    lines & !(1 << line)
}

/// The lines of the first set that are not in the second.
pub fn minus8(lines: u8, others: u8) -> u8
    ensures { result ≡ minus lines others }
{
    lines & !others
}

/// The line of lowest number in the set of eight lines; `None` exactly where the set is empty.
pub fn lowest8(lines: u8) -> Option<u8>
    ensures line { result ≡ lowest_of 8 lines }
    ensures below { IfSome result (λ n. n < 8) }
{
    if lines == 0 {
        None
    } else {
        Some(lines.trailing_zeros() as u8)
    }
}
