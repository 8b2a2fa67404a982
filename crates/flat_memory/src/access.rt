// Loads and stores over a side: a first address, and the bytes from there on.
ghost use Rattle.std.specs.Prelude.{◌≡◌, ◌≤◌, ◌-◌, ◌+◌, ◌%◌, ◌++◌, length, take, drop, if◌then◌else◌, None};
ghost use Rattle.byteorder.specs.Endian.{little_bytes};
ghost use Rattle.memory_model.specs.Side.{inside, covers, bytes_from, loaded, stored_inside};
ghost use Rattle.flat_memory.specs.Side.{side_at};

use byteorder::{ByteOrder, LittleEndian};

// Where `count` bytes stand, of which there is one at least, if they are all on the side.
fn place(first: u32, bytes: &[u8], at: u32, count: u32) -> Option<usize>
    ensures { result ≡ (if inside (side_at first bytes.now) at count then Some (at - first) else None) }
{
    let end = u64::from(first) + bytes.len() as u64;
    if first <= at && u64::from(at) + u64::from(count) <= end {
        Some((at - first) as usize)
    } else {
        None
    }
}

/// Whether these bytes are all on the side. No bytes always are.
pub fn fits(first: u32, bytes: &[u8], at: u32, count: u32) -> bool
    ensures { result ≡ covers (side_at first bytes.now) at count }
{
    count == 0 || place(first, bytes, at, count).is_some()
}

/// The bytes from an address on that are on the side, at most 15.
pub fn fetch(first: u32, bytes: &[u8], at: u32) -> &[u8]
    ensures { result.now ≡ bytes_from (side_at first bytes.now) at 15 }
{
    if at < first {
        return &bytes[..0];
    }
    window(bytes, (at - first) as usize)
}

// Up to 15 bytes from a place on.
fn window(bytes: &[u8], place: usize) -> &[u8]
    ensures { result.now ≡ take 15 (drop place bytes.now) }
{
    let place = place.min(bytes.len());
    let end = bytes.len().min(place + 15);
    &bytes[place..end]
}

/// The byte at an address; `None` exactly where it is outside.
pub fn load_byte(first: u32, bytes: &[u8], at: u32) -> Option<u32>
    ensures { result ≡ loaded (side_at first bytes.now) at 1 }
{
    place(first, bytes, at, 1).map(|place| u32::from(bytes[place]))
}

/// The word of two bytes at an address; `None` exactly where one of them is outside.
pub fn load_word(first: u32, bytes: &[u8], at: u32) -> Option<u32>
    ensures { result ≡ loaded (side_at first bytes.now) at 2 }
{
    match place(first, bytes, at, 2) {
        Some(place) => Some(u32::from(LittleEndian::read_u16(&bytes[place..]))),
        None => None,
    }
}

/// The doubleword of four bytes at an address; `None` exactly where one of them is outside.
pub fn load_doubleword(first: u32, bytes: &[u8], at: u32) -> Option<u32>
    ensures { result ≡ loaded (side_at first bytes.now) at 4 }
{
    match place(first, bytes, at, 4) {
        Some(place) => Some(LittleEndian::read_u32(&bytes[place..])),
        None => None,
    }
}

/// Stores the low byte of a value; false exactly where the address is outside, and then nothing changes.
pub fn store_byte(first: u32, bytes: &mut [u8], at: u32, value: u32) -> bool
    ensures fits { result ≡ inside (side_at first bytes.old) at 1 }
    ensures after { side_at first bytes.new ≡ stored_inside (side_at first bytes.old) at 1 value }
{
    match place(first, &*bytes, at, 1) {
        Some(place) => {
            write_byte(bytes, place, value);
            true
        }
        None => false,
    }
}

/// Stores the low two bytes of a value; false exactly where a byte is outside, and then nothing changes.
pub fn store_word(first: u32, bytes: &mut [u8], at: u32, value: u32) -> bool
    ensures fits { result ≡ inside (side_at first bytes.old) at 2 }
    ensures after { side_at first bytes.new ≡ stored_inside (side_at first bytes.old) at 2 value }
{
    match place(first, &*bytes, at, 2) {
        Some(place) => {
            write_word(bytes, place, value);
            true
        }
        None => false,
    }
}

/// Stores the four bytes of a value; false exactly where one of them is outside, and then nothing changes.
pub fn store_doubleword(first: u32, bytes: &mut [u8], at: u32, value: u32) -> bool
    ensures fits { result ≡ inside (side_at first bytes.old) at 4 }
    ensures after { side_at first bytes.new ≡ stored_inside (side_at first bytes.old) at 4 value }
{
    match place(first, &*bytes, at, 4) {
        Some(place) => {
            write_doubleword(bytes, place, value);
            true
        }
        None => false,
    }
}

fn write_byte(bytes: &mut [u8], place: usize, value: u32)
    requires { place + 1 ≤ length bytes.old }
    ensures { bytes.new ≡ take place bytes.old ++ (little_bytes 1 value ++ drop (place + 1) bytes.old) }
{
    bytes[place] = (value % 0x100) as u8;
}

fn write_word(bytes: &mut [u8], place: usize, value: u32)
    requires { place + 2 ≤ length bytes.old }
    ensures { bytes.new ≡ take place bytes.old ++ (little_bytes 2 value ++ drop (place + 2) bytes.old) }
{
    LittleEndian::write_u16(&mut bytes[place..], (value % 0x1_0000) as u16);
}

fn write_doubleword(bytes: &mut [u8], place: usize, value: u32)
    requires { place + 4 ≤ length bytes.old }
    ensures { bytes.new ≡ take place bytes.old ++ (little_bytes 4 value ++ drop (place + 4) bytes.old) }
{
    LittleEndian::write_u32(&mut bytes[place..], value);
}
