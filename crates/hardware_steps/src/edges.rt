// The lines of edges.
ghost use Rattle.std.specs.Prelude.{◌≡◌, ◌<◌, ◌≤◌, ◌+◌, length};
ghost use Rattle.line_sets.specs.LineSet.{has};
ghost use Rattle.hardware_steps.specs.Steps.{edge_if, with_edge_lines};

use line_sets::has_line16;
use rt_constants::lines::HARD_LINES;
use trace_lines::{HLine, Lines};

fn push_edge(line: u8, set: u16, lines: &mut Lines)
    requires within { line < 16 }
    requires room { length lines.old.h < 128 }
    ensures lines { lines.new ≡ edge_if (has set line) line lines.old }
    ensures size { length lines.new.h ≤ length lines.old.h + 1 }
{
    if has_line16(set, line) {
        lines.push_h(HLine::Edge(u32::from(line)));
    }
}

// The edges of a set in which there are some.
pub fn push_each(set: u16, lines: &mut Lines)
    requires { length lines.old.h ≤ 112 }
    ensures { lines.new ≡ with_edge_lines set lines.old }
{
    for line in 0..HARD_LINES {
        push_edge(line, set, lines);
    }
}

/// Each line of the set has its edge, by rising number.
pub fn push_edges(set: u16, lines: &mut Lines)
    requires { length lines.old.h ≤ 112 }
    ensures { lines.new ≡ with_edge_lines set lines.old }
{
    if set != 0 {
        push_each(set, lines);
    }
}
