// The processor.

use cpu_state::Registers;
use line_kinds::Who;

/// The one set of registers, and what is on the processor. The registers are those of what is on; the guest's are kept here while
/// something else is, and each thread's are kept by the executive.
#[derive(Clone, Copy, Debug)]
pub struct Processor {
    pub registers: Registers,
    pub kept: Registers,
    pub on: Option<Who>,
}
