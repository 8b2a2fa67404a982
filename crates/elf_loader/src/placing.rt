// Placing the segments of an image on a side.

ghost use Rattle.std.specs.Prelude.{◌≡◌, ◌≤◌, ◌<◌, ◌+◌, ◌^◌, ◌++◌, length, true, replicate, All, take, drop};
ghost use Rattle.memory_model.specs.Side.{covers};
ghost use Rattle.flat_memory.specs.Side.{side_at, side_of};
ghost use Rattle.elf_loader.specs.Place.{span_of, all_inside, with_segment, with_segments, FitsSize, FitsOn, PlacesOnSide, Takes, TakesAll};

use crate::image::{Image, Segment};
use crate::spans::{Spans, has_room};
use flat_memory::{Side, fits};

/// Why an image isn't placed. Nothing has changed then.
#[derive(Clone, Copy, Debug, PartialEq, Eq)]
pub enum PlaceRefusal {
    /// A segment isn't wholly on the side.
    Outside,
    /// A segment shares a byte with a taken range or with another segment.
    Overlap,
    /// Memory was refused.
    NoMemory,
}

/// Stores the segments of an image on a side, takes their ranges, and answers the image's entry.
pub fn place(image: &Image, side: &mut Side<'_>, taken: &mut Spans) -> Result<u32, PlaceRefusal>
    requires fits { All FitsSize image.now.segments }
    requires on_side { side.old.first + length side.old.bytes.now < 2 ^ 32 }
    ensures placed { PlacesOnSide image.now (side_of side.old) (side_of side.new) taken.old taken.new result }
    ensures same_loan { side.new.bytes.ghost_name ≡ side.old.bytes.ghost_name }
{
    let segments = image.segments.as_slice();
    if !are_inside(side, segments) {
        return Err(PlaceRefusal::Outside);
    }
    take_all(side, taken, segments)?;
    store_all(side.bytes, side.first, segments);
    Ok(image.entry)
}

#[tactic(auto, unfolding(crate::specs::Place::all_inside))]
fn are_inside(side: &Side<'_>, segments: &[Segment]) -> bool
    requires { side.now.first + length side.now.bytes.now < 2 ^ 32 }
    ensures { result ≡ all_inside (side_of side.now) segments.now }
{
    segments.iter().all(|segment| is_inside(side, segment))
}

// Whether each byte of a segment is on the side.
fn is_inside(side: &Side<'_>, segment: &Segment) -> bool
    requires { side.now.first + length side.now.bytes.now < 2 ^ 32 }
    ensures { result ≡ covers (side_of side.now) segment.now.place segment.now.size }
{
    fits(side.first, &*side.bytes, segment.place, segment.size)
}

fn take_one(taken: &mut Spans, span: (u32, u32)) -> Result<(), PlaceRefusal>
    ensures { Takes taken.old taken.new result span }
{
    if !has_room(taken.as_slice(), span) {
        return Err(PlaceRefusal::Overlap);
    }
    match taken.push(span) {
        Ok(()) => Ok(()),
        Err(_) => Err(PlaceRefusal::NoMemory),
    }
}

// Takes the range of each segment, or leaves the ranges as they were.
fn take_all(side: &Side<'_>, taken: &mut Spans, segments: &[Segment]) -> Result<(), PlaceRefusal>
    requires small { side.now.first + length side.now.bytes.now < 2 ^ 32 }
    requires inside { all_inside (side_of side.now) segments.now ≡ true }
    ensures { TakesAll taken.old taken.new result segments.now }
{
    let before = taken.len();
    for segment in segments {
        if let Err(fault) = take_one(taken, span(segment)) {
            taken.truncate(before);
            return Err(fault);
        }
    }
    Ok(())
}

// The range of a segment.
fn span(segment: &Segment) -> (u32, u32)
    requires { 0 < segment.now.size → segment.now.place + segment.now.size < 2 ^ 32 }
    ensures { result ≡ span_of segment.now }
{
    (segment.place, segment.place + segment.size)
}

// Stores the segments, one after another.
fn store_all(bytes: &mut [u8], first: u32, segments: &[Segment])
    requires small { first + length bytes.old < 2 ^ 32 }
    requires inside { all_inside (side_at first bytes.old) segments.now ≡ true }
    requires fits { All FitsSize segments.now }
    ensures { side_at first bytes.new ≡ with_segments (side_at first bytes.old) segments.now }
{
    for segment in segments {
        store(bytes, first, segment);
    }
}

// Stores the bytes of a segment, and zeros behind them up to its size.
#[tactic(auto, unfolding(crate::specs::Place::with_segment))]
fn store(bytes: &mut [u8], first: u32, segment: &Segment)
    requires { FitsOn (side_at first bytes.old) segment.now }
    ensures { side_at first bytes.new ≡ with_segment (side_at first bytes.old) segment.now }
{
    if segment.size == 0 {
        return;
    }
    let content = segment.bytes.as_slice();
    let at = (segment.place - first) as usize;
    write(bytes, at, content);
    clear(
        bytes,
        at + content.len(),
        segment.size as usize - content.len(),
    );
}

// Writes the piece over the bytes from a place on.
fn write(bytes: &mut [u8], at: usize, piece: &[u8])
    requires { at + length piece.now ≤ length bytes.old }
    ensures { bytes.new ≡ take at bytes.old ++ (piece.now ++ drop (length piece.now) (drop at bytes.old)) }
{
    bytes[at..at + piece.len()].copy_from_slice(piece);
}

// Writes zeros over the bytes from a place on.
fn clear(bytes: &mut [u8], at: usize, count: usize)
    requires { at + count ≤ length bytes.old }
    ensures { bytes.new ≡ take at bytes.old ++ (replicate count 0 ++ drop count (drop at bytes.old)) }
{
    bytes[at..at + count].fill(0);
}
