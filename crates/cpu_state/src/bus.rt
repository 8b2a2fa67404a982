// The bus.
ghost use Rattle.std.specs.Prelude.{◌≡◌, ℕ, List};
ghost use Rattle.memory_model.specs.Side.{covers, bytes_from, inside, loaded, stored_inside};
ghost use Rattle.cpu_state.specs.Width.{size};
ghost use Rattle.cpu_state.specs.Bus.{State, Ports, all_mine, port_answer, after_port_in, after_port_out};

use crate::Width;

/// Memory and ports as the processor reaches them: a side of memory, and the devices of the side's owner. No call
/// moves the side or changes whose a port is.
pub trait Bus {
    /// What a state of the owner's devices is.
    type Devices;

    /// The side and the devices.
    ghost state: { Self → State Self.Devices };

    /// Which ports are the owner's, and what they do.
    ghost ports: { Ports Self.Devices };

    /// The names of the loans that the bus holds, which no call changes.
    ghost lenders: { Self → List ℕ };

    /// Whether these bytes are all on the side.
    fn fits(&self, at: u32, count: u32) -> bool
        ensures { result ≡ covers (state self.now).side at count };

    /// The bytes from an address on that are on the side, at most 15.
    fn fetch(&self, at: u32) -> &[u8]
        ensures { result.now ≡ bytes_from (state self.now).side at 15 };

    /// The operand at an address; `None` exactly where a byte of it is outside.
    fn load(&self, at: u32, width: Width) -> Option<u32>
        ensures { result ≡ loaded (state self.now).side at (size width) };

    /// Stores the low bytes of a value; false exactly where a byte is outside, and then nothing changes.
    fn store(&mut self, at: u32, width: Width, value: u32) -> bool
        ensures fits { result ≡ inside (state self.old).side at (size width) }
        ensures after { state self.new ≡ record (state self.old) { side = stored_inside (state self.old).side at (size width) value } }
        ensures lenders { lenders self.new ≡ lenders self.old };

    /// Reads from a port and those behind it, as many as the width has bytes; `None` exactly where one of them is
    /// another owner's, and then nothing changes.
    fn port_in(&mut self, port: u16, width: Width) -> Option<u32>
        ensures answer { result ≡ port_answer ports (state self.old).devices port (size width) }
        ensures after { state self.new ≡ record (state self.old) { devices = after_port_in ports (state self.old).devices port (size width) } }
        ensures lenders { lenders self.new ≡ lenders self.old };

    /// Writes to a port and those behind it, as many as the width has bytes; false exactly where one of them is another
    /// owner's, and then nothing changes.
    fn port_out(&mut self, port: u16, width: Width, value: u32) -> bool
        ensures answer { result ≡ all_mine ports port (size width) }
        ensures after { state self.new ≡ record (state self.old) { devices = after_port_out ports (state self.old).devices port (size width) value } }
        ensures lenders { lenders self.new ≡ lenders self.old };
}
