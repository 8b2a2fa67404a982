// Lists of calls on the dues, and on the plain form of the same: a table of the owners' dues that is scanned, thread n's at place n and the
// guest's at place 64. All answers have to be the same.
ghost use Rattle.rt_timeline.specs.Dues.{IsOwner};

use rt_timeline::{Due, Timeline};
use std::test::Fail;

fn owner_of(place: u64) -> Due
    ensures { IsOwner result }
{
    if place < 64 {
        Due::Thread(place as u8)
    } else {
        Due::Guest
    }
}

// The earlier of a due and one of a place behind it, and the first of equal ones.
fn earlier(first: Option<(u64, u64)>, place: u64, due: u64) -> Option<(u64, u64)> {
    match first {
        Some((_, best)) => if best <= due {
            first
        } else {
            Some((place, due))
        },
        None => Some((place, due)),
    }
}

// The place of the first due, with that.
fn first_of(table: &[Option<u64>]) -> Option<(u64, u64)> {
    let mut first = None;
    let mut place = 0u64;
    for due in table {
        if let Some(at) = due {
            first = earlier(first, place, *at);
        }
        place = place.wrapping_add(1);
    }
    first
}

fn change(table: &mut [Option<u64>], place: u64, due: Option<u64>) {
    if let Some(kept) = table.get_mut(place as usize) {
        *kept = due;
    }
}

fn take_from(table: &mut [Option<u64>], now: u64) -> Option<(Due, u64)> {
    match first_of(table) {
        Some((place, due)) => {
            if due > now {
                return None;
            }
            change(table, place, None);
            Some((owner_of(place), due))
        }
        None => None,
    }
}

// What counter 0 is set to: the due is reached from one tick to 32,768 on, and a tick has two pulses.
fn count_to(nearest: Option<u64>, now: u64) -> Option<u16> {
    match nearest {
        Some(due) => Some((2 * due.saturating_sub(now).min(32_768).max(1) - 1) as u16),
        None => None,
    }
}

fn agrees(timeline: &Timeline, table: &[Option<u64>], now: u64) -> bool {
    let nearest = match first_of(table) {
        Some((_, due)) => Some(due),
        None => None,
    };
    timeline.nearest() == nearest && timeline.count(now) == count_to(nearest, now)
}

// Takes what has come, at most as often as there are owners, and says whether each answer was the same.
fn drains(timeline: &mut Timeline, table: &mut [Option<u64>], now: u64) -> bool {
    for _ in 0..66u32 {
        if timeline.take_due(now) != take_from(table, now) {
            return false;
        }
    }
    true
}

// Does one thing of a list, and says whether the answer was the same: s sets the due of a place, a those of all places, c clears a place,
// x a thread, which may be one that can't be, t takes a due that has come, and d all of them.
fn does(
    timeline: &mut Timeline,
    table: &mut [Option<u64>],
    what: u8,
    first: u64,
    second: u64,
) -> bool {
    match what {
        b's' => {
            timeline.set(owner_of(first), second);
            change(table, first.min(64), Some(second));
            true
        }
        b'a' => {
            for place in 0..65u64 {
                timeline.set(owner_of(place), second);
                change(table, place, Some(second));
            }
            true
        }
        b'c' => {
            timeline.clear(owner_of(second));
            change(table, second.min(64), None);
            true
        }
        b'x' => {
            timeline.clear(Due::Thread((second % 256) as u8));
            if second % 256 < 64 {
                change(table, second % 256, None);
            }
            true
        }
        b't' => timeline.take_due(second) == take_from(table, second),
        _ => drains(timeline, table, second),
    }
}

// Does a whole list, whose things end with a space: a letter and its numbers, with a point between two. Behind each the nearest due and the
// count are the same.
fn is_same(timeline: &mut Timeline, list: &str) -> bool {
    let mut table = [None; 65];
    let mut what = 0;
    let mut first: u64 = 0;
    let mut second: u64 = 0;
    for byte in list.bytes() {
        match byte {
            b' ' => {
                if !does(timeline, &mut table, what, first, second)
                    || !agrees(timeline, &table, second)
                {
                    return false;
                }
                second = 0;
            }
            b'.' => {
                first = second;
                second = 0;
            }
            b'0'..=b'9' => second = second % 1_000_000 * 10 + (byte - b'0') as u64,
            _ => what = byte,
        }
    }
    true
}

// The first ten are by hand, and the others were drawn at random.
static LISTS: [&str; 40] = [
    "t5 c3 c64 x200 d9 ",
    "s4.90 s63.90 s64.90 s0.91 t89 t90 t90 t90 t90 t91 ",
    "s64.7 s0.7 t7 t7 t7 ",
    "s64.7 s63.7 s0.7 d6 d7 ",
    "s64.6 s0.7 d7 ",
    "a90 d89 d90 d91 ",
    "a7 c0 c63 c64 s0.7 s64.6 c31 d7 ",
    "a5 s64.4 s0.6 s63.4 s31.4 d4 d5 d6 ",
    "s3.10 s3.5 s3.20 t19 t20 t20 ",
    "s1.5 s2.5 s3.5 x1 x65 x255 c3 t5 t5 ",
    "s15.5 t6 s64.9 s15.5 x34 c15 s51.9 c34 t40000 c64 t5 s26.6 s15.6 s64.6 c15 s64.6 x26 s26.7 t8 s51.5 c15 s15.40000 s2.40000 t0 ",
    "t7 x64 t5 t0 s64.7 s18.5 s18.6 c40 t7 s64.8 s18.1 s40.10 s40.40000 s64.11 t1 t1 t40000 s13.8 s6.0 c40 c4 s18.7 s6.0 t9 ",
    "t10 s26.0 x26 c33 t7 s26.9 t8 s43.8 c64 s43.1 t40000 t40000 s43.10 t0 t7 t0 s43.6 s33.9 c64 s17.40000 t6 t7 c33 t40000 ",
    "s64.0 t7 s64.10 t8 t1 t40000 x64 s39.5 s55.0 s64.0 t0 s64.8 s7.0 s64.6 s7.0 t1 t6 s7.6 s64.9 s64.40000 s39.6 c64 t6 s7.40000 ",
    "s3.10 s64.0 t6 c64 s33.9 c3 t10 c16 s16.6 c33 t9 t8 s7.8 t0 t0 t1 x200 t8 t7 s33.5 t1 t1 s16.10 c33 ",
    "t40000 s7.9 c13 s13.40000 t40000 t8 s13.0 t8 s13.5 s64.7 s13.8 x7 t10 t5 x64 x200 s6.40000 t1 c6 s2.5 t40000 s7.7 t6 s7.1 ",
    "s11.40000 t10 t7 x19 c19 s20.40000 t40000 t10 c64 t4 x200 s19.10 s37.5 s37.6 x37 s20.5 t9 s19.8 t1 t6 t1 x19 s11.7 t10 ",
    "t5 x64 c50 t8 x64 s50.8 s64.10 s50.1 x50 s57.0 c64 s38.10 t5 t9 s64.1 s57.10 s38.10 s57.1 c3 s57.10 s64.5 x57 t9 t1 ",
    "t0 t5 s22.5 t9 t40000 s13.9 t40000 s13.5 t7 c13 c10 t10 t5 x200 t2 t9 x64 s13.0 s49.0 t40000 s49.1 s64.10 s13.10 x49 ",
    "s61.7 t6 t40000 s64.40000 t6 t5 t1 t7 s61.5 t9 t5 t40000 t7 s41.3 c14 s61.0 s36.10 s41.1 s36.7 s5.10 c61 c64 x14 t5 ",
    "s64.8 s64.5 s64.8 s64.10 s64.40000 c64 c36 t7 s4.9 s64.6 s36.9 s4.8 x4 x200 c36 c4 s36.8 s4.1 c36 x64 s64.6 s36.4 c4 s36.40000 ",
    "c31 t7 x32 c37 t40000 s31.8 s64.9 x64 t40000 s31.8 t1 t40000 c32 s64.5 c31 s37.10 t10 t1 t8 t8 t40000 x32 t6 s32.0 ",
    "s9.10 s63.40000 c63 s26.8 t6 s9.6 t10 t3 t40000 s26.40000 s63.40000 t10 c64 s63.8 t5 s63.0 x9 s64.10 s9.8 s64.5 x64 t1 t1 s9.1 ",
    "t0 s36.8 t9 t8 s12.1 s12.9 t8 s36.9 c49 x52 s64.8 t8 c64 c36 t5 c64 t10 s64.10 t8 s49.9 s64.6 s36.0 s36.10 t10 ",
    "t6 t0 s60.9 t1 t5 t8 c26 s59.6 x59 s59.0 s64.6 t40000 t9 s59.0 t10 t7 c35 s35.7 t6 t1 c35 s60.1 s59.0 c60 ",
    "t40000 t5 s59.1 x51 s32.6 t7 c32 s59.9 s64.8 x59 t1 s64.0 x14 s32.5 s59.6 x64 t10 x64 s14.7 t7 s32.40000 s59.5 s64.40000 s64.9 ",
    "c64 c17 t10 s17.5 t40000 s14.5 c14 c64 s14.6 t10 c14 t9 s14.8 x64 x14 t9 t0 t8 s64.9 x17 s17.10 s64.9 t5 c4 ",
    "t7 x32 t1 s32.1 s32.8 s32.0 t7 t10 c64 c64 c42 t40000 t10 c64 c64 t40000 t8 t8 s32.7 t5 t9 c32 t8 t6 ",
    "t40000 t7 s51.9 t40000 s61.0 x61 x61 t7 t5 t7 x61 t9 x51 s61.0 x64 x61 t10 x64 s61.5 c61 t5 x200 t10 s51.40000 ",
    "c61 s33.6 t0 c33 t10 t10 s33.1 c61 c64 c64 t5 s64.6 t6 t6 s61.0 c64 t1 c64 t7 t5 s61.0 s64.1 s33.40000 t1 ",
    "t5 s22.7 x46 t1 c26 t5 c46 s22.40000 t40000 c46 t9 c22 c26 s20.8 c26 c20 t9 s26.40000 c46 c46 t9 s22.1 c26 c64 ",
    "t40000 s1.10 c0 t1 t40000 t7 c0 t1 t7 t1 x64 c1 s64.0 t40000 t9 s0.5 s0.8 c64 s64.9 x1 t40000 s0.5 c0 t40000 ",
    "s16.1 t10 t0 c39 t9 s16.1 t0 s39.9 s39.9 c64 s39.8 x64 t1 t40000 t8 s16.5 s64.9 s21.40000 s16.8 t8 s16.6 t9 t8 s21.0 ",
    "t2 x200 c64 t40000 t9 t5 t5 x200 s32.8 t5 c64 t11 c5 x5 x5 t8 t40000 s5.10 s56.10 c9 c64 s9.5 t40000 c56 ",
    "c64 t6 t1 c64 c64 t10 c21 t8 s2.9 s2.7 x200 x64 t5 s64.10 t1 c2 t1 c64 x200 t40000 c58 t6 s58.9 t5 ",
    "t7 x54 c64 t8 t0 t6 s54.5 x64 t5 c64 t9 x64 t9 c46 c46 t40000 s64.7 t6 t40000 s46.40000 c46 s54.10 s46.0 s54.10 ",
    "s64.0 c40 c40 s47.8 c40 s40.8 c40 s64.8 s64.7 x47 x47 t7 x64 c47 s64.5 s47.7 t40000 t9 s40.0 c64 t5 t5 c47 t6 ",
    "t7 s30.0 s30.0 t1 s30.5 s15.7 t0 s30.40000 c64 t9 t10 c15 t9 x64 t6 s64.8 s15.10 s15.10 s15.6 s64.5 t6 c30 t1 s30.7 ",
    "s64.7 c19 c41 c19 t0 t5 t1 s64.40000 s41.40000 t40000 t8 t40000 c41 t7 c41 t6 t9 x64 s64.5 s19.6 t5 t5 t0 t4 ",
    "t1 s62.8 x58 x42 t5 c58 t9 s62.8 t11 t0 t1 s57.0 x58 s62.9 c62 x64 x64 s57.7 t9 t9 t5 t0 s57.6 t40000 ",
];

#[test]
fn the_index_answers_as_a_scanned_table(rt: HostRuntime) -> Result<(), Fail> {
    for list in &LISTS {
        let mut timeline = Timeline::new(rt.alloc()).ok().ok_or("no memory")?;
        assert!(rt; is_same(&mut timeline, list), "{list}");
    }
    Ok(())
}
