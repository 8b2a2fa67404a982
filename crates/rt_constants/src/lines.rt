// The interrupt lines of the machine (IBM PC/AT: IRQ 0 to 15), and the soft lines behind them (RTLinux 3, rtl_get_soft_irq).

/// The 8254's counter 0.
pub const TIMER_LINE: u8 = 0;

/// The second 8259A, at the first one's input 2.
pub const CASCADE_LINE: u8 = 2;

/// COM2, the real-time side's serial port.
pub const COM2_LINE: u8 = 3;

/// COM1, the guest's serial port.
pub const COM1_LINE: u8 = 4;

/// Hard lines have the numbers below this one.
pub const HARD_LINES: u8 = 16;

/// All lines have the numbers below this one. Soft lines follow the hard ones.
pub const ALL_LINES: u8 = 32;
