// Who calls a gate.

/// The real-time activity that calls a gate: the init of the module of this number, the thread of this number, the handler of this
/// interrupt line, or that of this FIFO.
#[derive(Clone, Copy, Debug)]
pub enum Caller {
    Init(u8),
    Thread(u8),
    Irq(u8),
    Fifo(u8),
}
