// A 16550 with its two buffers.

ghost use Rattle.std.specs.Prelude.{◌≡◌, ◌<◌, IsNone};
ghost use Rattle.uart_16550.specs.SerialPort.{SerialPort, bit, divisor_latch, receiver_asks, cause_of, line_of, line_status, register_read, register_after_read, data_taken, sent, enabled, fifo_controlled, receiver_emptied, transmitter_emptied, first_cause, trigger_of, register_written, byte_received, leaves, shifted, loaded, timed, ticked, fresh_port};

use arrayvec::ArrayVec;
use std::marker::Model;

/// Receiver buffer register (RBR, read) and transmitter holding register (THR, write); while DLAB is set, the
/// divisor latch's low byte (DLL).
const DATA_OFFSET: u8 = 0;
/// Interrupt enable register; while DLAB is set, the divisor latch's high byte (DLM).
const IER_OFFSET: u8 = 1;
/// Interrupt identification register (read).
const IIR_OFFSET: u8 = 2;
/// FIFO control register (write).
const FCR_OFFSET: u8 = 2;
/// Line control register.
const LCR_OFFSET: u8 = 3;
/// Modem control register.
const MCR_OFFSET: u8 = 4;
/// Line status register.
const LSR_OFFSET: u8 = 5;
/// Modem status register, which reads 0: no modem is wired.
const MSR_OFFSET: u8 = 6;
/// Scratch register.
const SCR_OFFSET: u8 = 7;

/// IER bit 0: received data available, and the receive timeout.
const IER_RECEIVED_DATA_BIT: u8 = 0;
/// IER bit 1: transmitter holding register empty.
const IER_TRANSMITTER_EMPTY_BIT: u8 = 1;
/// IER bit 2: receiver line status.
const IER_LINE_STATUS_BIT: u8 = 2;
/// IER's bits that can be set.
const IER_MASK: u8 = 0b0000_1111;

/// IIR's low bits: no interrupt is pending.
const IIR_NONE: u8 = 0b0000_0001;
/// IIR's low bits: transmitter holding register empty.
const IIR_TRANSMITTER_EMPTY: u8 = 0b0000_0010;
/// IIR's low bits: received data available.
const IIR_RECEIVED_DATA: u8 = 0b0000_0100;
/// IIR's low bits: receiver line status.
const IIR_LINE_STATUS: u8 = 0b0000_0110;
/// IIR's low bits: character timeout.
const IIR_TIMEOUT: u8 = 0b0000_1100;
/// IIR bits 7 and 6, which are set while the FIFOs are on.
const IIR_FIFOS_ON: u8 = 0b1100_0000;

/// FCR bit 0: the FIFOs are on.
const FCR_ENABLE_BIT: u8 = 0;
/// FCR bit 1: empties the receiver's FIFO.
const FCR_CLEAR_RECEIVER_BIT: u8 = 1;
/// FCR bit 2: empties the transmitter's FIFO.
const FCR_CLEAR_TRANSMITTER_BIT: u8 = 2;
/// FCR bits 7 and 6: the receiver's trigger.
const FCR_TRIGGER_SHIFT: u8 = 6;

/// LCR bit 7: the divisor latch access bit.
const LCR_DLAB_BIT: u8 = 7;

/// MCR bit 3: OUT2, which lets the interrupt line through.
const MCR_OUT2_BIT: u8 = 3;
/// MCR's bits that can be set.
const MCR_MASK: u8 = 0b0000_1111;

/// LSR bit 0: data ready.
const LSR_DATA_READY: u8 = 0b0000_0001;
/// LSR bit 1: overrun error (OE).
const LSR_OVERRUN: u8 = 0b0000_0010;
/// LSR bit 5: transmitter holding register empty (THRE).
const LSR_TRANSMITTER_EMPTY: u8 = 0b0010_0000;
/// LSR bit 6: transmitter empty (TEMT), with its shift register.
const LSR_IDLE: u8 = 0b0100_0000;

/// How many bytes a FIFO holds.
const FIFO_SIZE: usize = 16;
/// Ticks that a byte spends in the shift register.
const SHIFT_TICKS: u8 = 32;
/// Ticks from the last byte received, or read, to the receive timeout.
const TIMEOUT_TICKS: u8 = 128;

/// A serial port. It takes no memory beside its own.
#[derive(Drop)]
pub struct Uart {
    interrupt_enable: u8,
    line_control: u8,
    modem_control: u8,
    scratch: u8,
    divisor_low: u8,
    divisor_high: u8,
    fifos: bool,
    trigger: u8,
    received: ArrayVec<u8, FIFO_SIZE>,
    waiting: ArrayVec<u8, FIFO_SIZE>,
    shifting: Option<u8>,
    shift_count: u8,
    receive_count: u8,
    overrun: bool,
    timeout: bool,
    transmitter_pending: bool,
}

impl Model for Uart {
    ghost use Rattle.uart_16550.specs.SerialPort.{SerialPort};

    ghost Value = { SerialPort };

    ghost view = { λ u. record { interrupt_enable = u.interrupt_enable; line_control = u.line_control; modem_control = u.modem_control; scratch = u.scratch; divisor_low = u.divisor_low; divisor_high = u.divisor_high; fifos = u.fifos; trigger = u.trigger; received = u.received.items; waiting = u.waiting.items; shifting = u.shifting; shift_count = u.shift_count; receive_count = u.receive_count; overrun = u.overrun; timeout = u.timeout; transmitter_pending = u.transmitter_pending } };
}

impl Uart {
    /// A port with all registers 0 and both buffers empty.
    pub fn new() -> Uart
        ensures { result ≡ fresh_port }
    {
        Uart {
            interrupt_enable: 0,
            line_control: 0,
            modem_control: 0,
            scratch: 0,
            divisor_low: 0,
            divisor_high: 0,
            fifos: false,
            trigger: 1,
            received: ArrayVec::new(),
            waiting: ArrayVec::new(),
            shifting: None,
            shift_count: 0,
            receive_count: 0,
            overrun: false,
            timeout: false,
            transmitter_pending: false,
        }
    }

    fn divisor_latch(&self) -> bool
        ensures { result ≡ divisor_latch self.now }
    {
        is_set(self.line_control, LCR_DLAB_BIT)
    }

    // Whether enough bytes were received for the interrupt.
    fn receiver_asks(&self) -> bool
        ensures { result ≡ receiver_asks self.now }
    {
        if self.fifos {
            self.received.len() >= self.trigger as usize
        } else {
            !self.received.is_empty()
        }
    }

    // IIR's low bits.
    fn cause(&self) -> u8
        ensures value { result ≡ cause_of self.now }
        ensures small { result < 16 }
    {
        let overrun = is_set(self.interrupt_enable, IER_LINE_STATUS_BIT) && self.overrun;
        let data_ready = is_set(self.interrupt_enable, IER_RECEIVED_DATA_BIT)
            && self.receiver_asks();
        let timeout = is_set(self.interrupt_enable, IER_RECEIVED_DATA_BIT) && self.timeout;
        let transmitter = is_set(self.interrupt_enable, IER_TRANSMITTER_EMPTY_BIT)
            && self.transmitter_pending;
        first_cause(overrun, data_ready, timeout, transmitter)
    }

    /// The level of the interrupt line: true is high.
    pub fn line(&self) -> bool
        ensures { result ≡ line_of self.now }
    {
        self.cause() != IIR_NONE && is_set(self.modem_control, MCR_OUT2_BIT)
    }

    fn line_status(&self) -> u8
        ensures { result ≡ line_status self.now }
    {
        let mut status = 0;
        if !self.received.is_empty() {
            status += LSR_DATA_READY;
        }
        if self.overrun {
            status += LSR_OVERRUN;
        }
        if self.waiting.is_empty() {
            status += LSR_TRANSMITTER_EMPTY;
        }
        if self.waiting.is_empty() && self.shifting.is_none() {
            status += LSR_IDLE;
        }
        status
    }

    // RBR: takes the first byte, or 0 where there is none.
    fn read_data(&mut self) -> u8
        ensures value { result ≡ register_read 0 (record self.old { line_control = 0 }) }
        ensures after { self.new ≡ data_taken self.old }
    {
        self.timeout = false;
        self.receive_count = TIMEOUT_TICKS;
        self.received.pop_at(0).unwrap_or(0)
    }

    // IIR, whose read ends the transmitter's interrupt where it names it.
    fn read_cause(&mut self) -> u8
        ensures value { result ≡ register_read 2 self.old }
        ensures after { self.new ≡ register_after_read 2 self.old }
    {
        let cause = self.cause();
        if cause == IIR_TRANSMITTER_EMPTY {
            self.transmitter_pending = false;
        }
        if self.fifos {
            cause + IIR_FIFOS_ON
        } else {
            cause
        }
    }

    /// Reads the register at an offset from the port's first address, by the data sheet's table of registers.
    pub fn read(&mut self, offset: u8) -> u8
        requires { offset < 8 }
        ensures value { result ≡ register_read offset self.old }
        ensures after { self.new ≡ register_after_read offset self.old }
    {
        match offset {
            DATA_OFFSET => if self.divisor_latch() {
                self.divisor_low
            } else {
                self.read_data()
            },
            IER_OFFSET => if self.divisor_latch() {
                self.divisor_high
            } else {
                self.interrupt_enable
            },
            IIR_OFFSET => self.read_cause(),
            LCR_OFFSET => self.line_control,
            MCR_OFFSET => self.modem_control,
            LSR_OFFSET => {
                let status = self.line_status();
                self.overrun = false;
                status
            }
            MSR_OFFSET => 0,
            _ => self.scratch,
        }
    }

    // THR: a byte for the transmitter. It ends the transmitter's interrupt, even where the byte is lost.
    fn send(&mut self, byte: u8)
        ensures { self.new ≡ sent byte self.old }
    {
        self.transmitter_pending = false;
        if !self.fifos {
            self.waiting.clear();
        }
        if !self.waiting.is_full() {
            self.waiting.push(byte);
        }
    }

    // IER: the transmitter's interrupt comes at once where it is let through while no byte waits.
    fn enable(&mut self, value: u8)
        ensures { self.new ≡ enabled value self.old }
    {
        let asked = is_set(value, IER_TRANSMITTER_EMPTY_BIT)
            && !is_set(self.interrupt_enable, IER_TRANSMITTER_EMPTY_BIT)
            && self.waiting.is_empty();
        self.transmitter_pending = self.transmitter_pending || asked;
        self.interrupt_enable = value & IER_MASK;
    }

    fn empty_receiver(&mut self, asked: bool)
        ensures { self.new ≡ receiver_emptied asked self.old }
    {
        if asked {
            self.received.clear();
            self.timeout = false;
        }
    }

    fn empty_transmitter(&mut self, asked: bool)
        ensures { self.new ≡ transmitter_emptied asked self.old }
    {
        if asked {
            self.waiting.clear();
        }
    }

    // FCR.
    fn control_fifos(&mut self, value: u8)
        ensures { self.new ≡ fifo_controlled value self.old }
    {
        let on = is_set(value, FCR_ENABLE_BIT);
        let changed = on != self.fifos;
        self.empty_receiver(changed || (on && is_set(value, FCR_CLEAR_RECEIVER_BIT)));
        self.empty_transmitter(changed || (on && is_set(value, FCR_CLEAR_TRANSMITTER_BIT)));
        self.fifos = on;
        if on {
            self.trigger = trigger(value);
        }
    }

    /// Writes the register at an offset from the port's first address, by the data sheet's table of registers.
    pub fn write(&mut self, offset: u8, value: u8)
        requires { offset < 8 }
        ensures { self.new ≡ register_written offset value self.old }
    {
        match offset {
            DATA_OFFSET => if self.divisor_latch() {
                self.divisor_low = value
            } else {
                self.send(value)
            },
            IER_OFFSET => if self.divisor_latch() {
                self.divisor_high = value
            } else {
                self.enable(value)
            },
            FCR_OFFSET => self.control_fifos(value),
            LCR_OFFSET => self.line_control = value,
            MCR_OFFSET => self.modem_control = value & MCR_MASK,
            SCR_OFFSET => self.scratch = value,
            _ => {}
        }
    }

    /// A byte comes in from the line. It starts the receive timer again, also where it is lost.
    pub fn receive(&mut self, byte: u8)
        ensures { self.new ≡ byte_received byte self.old }
    {
        self.receive_count = TIMEOUT_TICKS;
        let room = if self.fifos { FIFO_SIZE } else { 1 };
        if self.received.len() < room {
            self.received.push(byte);
        } else {
            self.overrun = true;
            if !self.fifos {
                self.received.clear();
                self.received.push(byte);
            }
        }
    }

    // One tick of the shift register; the byte that leaves.
    fn shift(&mut self) -> Option<u8>
        ensures byte { result ≡ leaves self.old }
        ensures after { self.new ≡ shifted self.old }
    {
        let byte = self.shifting?;
        if self.shift_count > 1 {
            self.shift_count -= 1;
            return None;
        }
        self.shift_count = 0;
        self.shifting = None;
        Some(byte)
    }

    // An empty shift register takes the first byte that waits.
    fn load(&mut self)
        ensures { self.new ≡ loaded self.old }
    {
        if self.shifting.is_some() || self.waiting.is_empty() {
            return;
        }
        self.load_first();
    }

    // The empty shift register takes the first byte that waits. It stands apart so that a tick without it is short.
    #[inline(never)]
    fn load_first(&mut self)
        requires { IsNone self.old.shifting }
        ensures { self.new ≡ loaded self.old }
    {
        if let Some(byte) = self.waiting.pop_at(0) {
            self.shifting = Some(byte);
            self.shift_count = SHIFT_TICKS;
            if self.waiting.is_empty() {
                self.transmitter_pending = true;
            }
        }
    }

    // One tick of the receive timer.
    fn time(&mut self)
        ensures { self.new ≡ timed self.old }
    {
        if self.fifos && !self.received.is_empty() {
            if self.receive_count <= 1 {
                self.timeout = true;
            }
            self.receive_count = self.receive_count.saturating_sub(1);
        }
    }

    /// One tick. It gives the byte that leaves for the line.
    pub fn tick(&mut self) -> Option<u8>
        ensures byte { result ≡ leaves self.old }
        ensures after { self.new ≡ ticked self.old }
    {
        let byte = self.shift();
        self.load();
        self.time();
        byte
    }
}

// Whether a bit of a register is 1.
fn is_set(register: u8, n: u8) -> bool
    requires { n < 8 }
    ensures { result ≡ bit register n }
{
    (register >> n) & 1 == 1
}

// The first cause of those that stand, by the data sheet's priorities.
fn first_cause(overrun: bool, data_ready: bool, timeout: bool, transmitter: bool) -> u8
    ensures value { result ≡ first_cause overrun data_ready timeout transmitter }
    ensures small { result < 16 }
{
    if overrun {
        IIR_LINE_STATUS
    } else if data_ready {
        IIR_RECEIVED_DATA
    } else if timeout {
        IIR_TIMEOUT
    } else if transmitter {
        IIR_TRANSMITTER_EMPTY
    } else {
        IIR_NONE
    }
}

// How many received bytes ask for the interrupt, by FCR.
fn trigger(value: u8) -> u8
    ensures { result ≡ trigger_of value }
{
    match value >> FCR_TRIGGER_SHIFT {
        0 => 1,
        1 => 4,
        2 => 8,
        _ => 14,
    }
}
