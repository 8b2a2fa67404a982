// The kinds of lines.

use crate::Said;

/// What is on the processor.
#[derive(Clone, Copy, Debug, PartialEq, Eq)]
pub enum Who {
    Guest,
    /// the thread of this number
    Thread(u8),
    /// the init of the module of this number
    Init(u8),
    /// the handler of this interrupt line
    Irq(u8),
    /// the handler of this FIFO
    Fifo(u8),
}

/// What ended a real-time activity.
#[derive(Clone, Copy, Debug, PartialEq, Eq)]
pub enum FaultKind {
    /// a divide error
    Divide,
    /// bytes that are no instruction
    Opcode,
    /// an interrupt other than F8h and F9h, INT3, or INTO with OF set
    Int,
    /// an access or a fetch outside its side
    Memory,
    /// a port of another owner
    Port,
    /// HLT or IRET
    Privileged,
}

/// How the guest stands.
#[derive(Clone, Copy, Debug, PartialEq, Eq)]
pub enum Mode {
    Runs,
    Halted,
    Stopped,
}

/// What stopped the guest.
#[derive(Clone, Copy, Debug, PartialEq, Eq)]
pub enum BreachKind {
    Cli,
    Sti,
    Iret,
    Pushf,
    Popf,
    Hlt,
    /// an interrupt of this vector
    Int(u32),
    /// this port
    Port(u16),
    /// a fetch at this address
    Fetch(u32),
    /// a load at this address
    Load(u32),
    /// a store at this address
    Store(u32),
}

/// A line of the real-time half.
#[derive(Clone, Copy, Debug)]
pub enum RLine {
    /// this byte left COM2
    Com2(u8),
    /// this thread became ready by its due
    Release(u32),
    /// this activity was picked, and another one or none was on the processor before
    On(Who),
    /// a gate of a real-time activity: the function in EAX, then EBX, ECX, EDX and ESI before it, and its result
    Gate(u32, [u32; 4], i32),
    /// an activity printed these bytes
    Say(Said),
    /// an init or a handler ended, or a thread returned
    Ret,
    /// this activity faulted
    Fault(Who, FaultKind),
    /// the answer to the guest's FIFO call: its result, and the bytes of a get
    Reply(i32, Said),
    /// the end of a run: how many threads are live, and how many of them ready
    End(u32, u32),
    /// the SHA-256 of the real-time side
    Memory([u8; 32]),
}

/// A line of the guest's half.
#[derive(Clone, Copy, Debug)]
pub enum GLine {
    /// this byte left COM1
    Com1(u8),
    /// an asked interrupt line of this vector was entered
    Enter(u32),
    /// a trap or an interrupt of this vector was entered
    Int(u32),
    /// the guest halted
    Halt,
    /// the guest put these bytes into this FIFO
    Put(u32, Said),
    /// the guest asked this FIFO for so many bytes
    Get(u32, u32),
    /// no present descriptor for this vector
    Shutdown(u32),
    Breach(BreachKind),
    /// the end of a run: the mode, then EIP, EFLAGS, EAX, ECX, EDX, EBX, ESP, EBP, ESI and EDI
    End(Mode, [u32; 10]),
    /// the SHA-256 of the guest's side
    Memory([u8; 32]),
}

/// A line of the hardware.
#[derive(Clone, Copy, Debug, PartialEq, Eq)]
pub enum HLine {
    /// a rise of this interrupt line was latched
    Edge(u32),
    /// this interrupt line was acknowledged
    Ack(u32),
    /// the one-shot was set to this count
    Set(u32),
}

/// A line of a run: one of the real-time half (`R`), of the guest's half (`G`) or of the hardware (`H`).
#[derive(Clone, Copy, Debug)]
pub enum Line {
    R(RLine),
    G(GLine),
    H(HLine),
}
