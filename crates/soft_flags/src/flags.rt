// The guest's soft flags.
ghost use Rattle.std.specs.Prelude.{◌≡◌, true, false, not};
ghost use Rattle.soft_flags.specs.SoftFlags.{first_flags, is_open, table_answer, with_table, HasTableIn};

use rt_constants::{EINVAL, failed};

/// The most entries of a descriptor table, one for each vector.
const TABLE_ENTRIES: u32 = 256;

/// How many bytes a descriptor has (Intel 80386 manual, section 9.5).
const DESCRIPTOR_SIZE: u64 = 8;

/// The flag that stands for the processor's interrupt flag, the shadow behind a flag that was just set, the mask of
/// interrupt lines, in which a set bit masks its line, and the place and number of entries of the descriptor table.
#[derive(Clone, Copy, Debug, PartialEq, Eq)]
pub struct SoftFlags {
    pub flag: bool,
    pub shadow: bool,
    pub mask: u32,
    pub idt: u32,
    pub entries: u32,
}

impl SoftFlags {
    /// As the guest starts: the flag is clear, every line is masked, and there is no table.
    pub fn new() -> SoftFlags
        ensures { result ≡ first_flags }
    {
        SoftFlags {
            flag: false,
            shadow: false,
            mask: u32::MAX,
            idt: 0,
            entries: 0,
        }
    }

    /// Clears the flag. No shadow stands afterwards.
    pub fn cli(&mut self)
        ensures { self.new ≡ record self.old { flag = false; shadow = false } }
    {
        self.flag = false;
        self.shadow = false;
    }

    /// Sets the flag. A shadow stands afterwards where the flag was clear.
    pub fn sti(&mut self)
        ensures { self.new ≡ record self.old { flag = true; shadow = not self.old.flag } }
    {
        self.shadow = !self.flag;
        self.flag = true;
    }

    /// Sets or clears the flag, with no shadow.
    pub fn set(&mut self, flag: bool)
        ensures { self.new ≡ record self.old { flag = flag; shadow = false } }
    {
        self.flag = flag;
        self.shadow = false;
    }

    /// Ends the shadow, as a unit of the guest does.
    pub fn unit_done(&mut self)
        ensures { self.new ≡ record self.old { shadow = false } }
    {
        self.shadow = false;
    }

    /// Whether an asked line may be entered: the flag is set, and no shadow stands.
    pub fn may_enter(&self) -> bool
        ensures { result ≡ is_open self.now }
    {
        self.flag && !self.shadow
    }

    /// Takes a descriptor table of a guest's side of `size` bytes. The answer is -22 exactly where it has more than 256
    /// entries or passes the end of the side, and then nothing changes; else it is 0.
    pub fn load_idt(&mut self, place: u32, entries: u32, size: u32) -> i32
        ensures answer { result ≡ table_answer place entries size }
        ensures after { self.new ≡ with_table place entries size self.old }
        ensures inside { HasTableIn self.old size → HasTableIn self.new size }
    {
        let end = u64::from(place) + DESCRIPTOR_SIZE * u64::from(entries);
        if entries > TABLE_ENTRIES || end > u64::from(size) {
            return failed(EINVAL);
        }
        self.idt = place;
        self.entries = entries;
        0
    }
}
