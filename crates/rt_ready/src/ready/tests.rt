// Lists of calls on the ready list, and on the plain form of the same: a table in order of arrival that is scanned, a thread that has left
// leaving its place empty. All answers have to be the same, in both versions of the rule and wherever the numbers of arrival begin.
ghost use Rattle.std.specs.Prelude.{◌<◌};
ghost use Rattle.rt_constants.specs.declared.limits.TheConstants.{THREADS_LIMIT};

use super::{Place, Ready};
use std::test::Fail;

// The better of the best so far and one that came later.
fn better(version: u8, best: Option<Place>, next: Place) -> Option<Place> {
    match best {
        Some(first) => if next.priority > first.priority
            || version == 2 && next.priority == first.priority && next.since < first.since
        {
            Some(next)
        } else {
            best
        },
        None => Some(next),
    }
}

fn first_of(version: u8, table: &[Option<Place>]) -> Option<u8> {
    let mut best = None;
    for slot in table {
        if let Some(place) = slot {
            best = better(version, best, *place);
        }
    }
    match best {
        Some(place) => Some(place.id),
        None => None,
    }
}

fn count_of(table: &[Option<Place>]) -> u32 {
    let mut count = 0u32;
    for slot in table {
        if slot.is_some() {
            count = count.wrapping_add(1);
        }
    }
    count
}

fn take_from(table: &mut [Option<Place>], id: u8) -> bool {
    let mut found = false;
    for slot in table.iter_mut() {
        if let Some(place) = *slot {
            if place.id == id {
                *slot = None;
                found = true;
            }
        }
    }
    found
}

fn set_in(table: &mut [Option<Place>], id: u8, priority: u8) {
    for slot in table.iter_mut() {
        if let Some(place) = *slot {
            if place.id == id {
                *slot = Some(Place { priority, ..place });
            }
        }
    }
}

// A thread leaves, where it is there, and comes last; says whether both forms agree on whether it was there.
fn adds(ready: &mut Ready, table: &mut [Option<Place>], count: usize, place: Place) -> bool
    requires number { place.id < THREADS_LIMIT }
{
    let is_same = ready.take(place.id) == take_from(table, place.id);
    ready.add(place.id, place.priority, place.since);
    if let Some(slot) = table.get_mut(count) {
        *slot = Some(place);
    }
    is_same
}

// Does one thing of a list, and says whether the answer was the same: a adds a thread, t takes one out, and p sets a priority.
fn does(
    ready: &mut Ready,
    table: &mut [Option<Place>],
    count: usize,
    what: u8,
    numbers: [u64; 3],
) -> bool {
    let id = (numbers[0] % 64) as u8;
    match what {
        b'a' => adds(
            ready,
            table,
            count,
            Place {
                id,
                priority: (numbers[1] % 256) as u8,
                since: numbers[2],
            },
        ),
        b't' => ready.take(id) == take_from(table, id),
        _ => {
            ready.set_priority(id, (numbers[1] % 256) as u8);
            set_in(table, id, (numbers[1] % 256) as u8);
            true
        }
    }
}

// Does a whole list, whose things end with a space: a letter and its numbers, with a point between two. Behind each the same thread goes
// first, and as many are ready.
fn is_same(ready: &mut Ready, version: u8, list: &str) -> bool {
    let mut table = [None; 48];
    let mut count: usize = 0;
    let mut what = 0;
    let mut numbers = [0u64; 3];
    let mut place: usize = 0;
    for byte in list.bytes() {
        match byte {
            b' ' => {
                if !does(ready, &mut table, count, what, numbers)
                    || ready.first() != first_of(version, &table)
                    || ready.count() != count_of(&table)
                {
                    return false;
                }
                count = count.wrapping_add(1);
                numbers = [0; 3];
                place = 0;
            }
            b'.' => place = place.wrapping_add(1),
            b'0'..=b'9' => {
                if let Some(number) = numbers.get_mut(place) {
                    *number = *number % 1_000_000 * 10 + (byte - b'0') as u64;
                }
            }
            _ => what = byte,
        }
    }
    true
}

// The first ten are by hand, and the others were drawn at random.
static LISTS: [&str; 44] = [
    "t5 p5.9 t0 t63 ",
    "a7.10.30 a2.10.20 a5.9.10 p5.11 p5.10 t7 t7 t2 t5 ",
    "a0.1.9 a63.1.8 a31.1.7 p0.2 p63.2 p31.2 t63 t0 t31 ",
    "a1.255.5 a2.255.5 a3.255.4 t1 t2 t3 ",
    "a1.0.5 a2.0.4 a3.0.3 p3.255 p2.255 p1.255 p3.0 p2.0 p1.0 ",
    "a4.7.1 p4.9 p4.7 a5.7.1 p4.9 p4.7 t4 a4.7.1 t5 ",
    "a9.3.50 a8.3.40 a7.3.30 t8 a8.3.20 t9 a9.3.10 t7 a7.3.60 ",
    "a10.64.1 a11.63.1 a12.65.1 a13.127.1 a14.128.1 a15.191.1 a16.192.1 t16 t15 t14 t13 t12 t10 t11 ",
    "a20.5.5 a21.5.5 p20.5 p21.5 t20 a20.5.5 p21.6 p21.5 ",
    "a63.255.0 a0.255.0 p63.0 p0.0 p63.1 p0.1 t63 t0 t63 ",
    "a9.127.7 t9 a18.128.11 a38.127.6 p18.128 a62.127.6 p18.128 p62.128 a22.128.2 a18.127.8 a5.128.7 a38.128.11 p38.128 a9.128.6 p38.128 p18.127 p18.127 p18.127 a32.128.3 a54.128.7 a54.127.11 a9.128.3 a62.127.5 a9.127.12 ",
    "a14.64.6 t14 a32.64.6 a14.64.9 a59.0.5 a62.0.7 p62.63 p59.63 a62.0.10 t62 t26 a43.0.3 t14 a26.64.5 a50.63.3 a26.64.8 a3.255.4 a20.63.12 t3 a20.63.3 a26.64.12 t43 t26 p50.0 ",
    "a15.9.0 a44.7.12 a15.7.6 a36.7.3 a44.8.8 a15.8.8 p15.9 a15.9.3 a44.7.10 a16.7.0 a44.8.9 t36 t44 a16.9.12 a15.9.7 a44.7.0 a16.7.6 a16.9.6 p44.9 t15 p44.9 a36.8.10 a36.9.4 t36 ",
    "a57.63.12 a26.63.12 a26.63.5 a57.64.9 p26.255 t57 t26 a42.64.0 a26.0.11 a57.64.2 p26.63 t42 t57 p57.0 a26.63.0 t26 a26.0.5 a26.63.3 a57.0.4 a26.255.9 a42.64.4 t26 a42.63.0 p57.255 ",
    "a47.5.0 p47.4 a47.5.4 a47.5.7 a47.5.5 a47.4.11 a21.5.8 a47.4.5 a47.4.7 a21.5.5 a47.5.2 t21 p47.4 p47.5 p47.4 p47.4 p47.4 t47 a47.5.0 a47.5.6 p21.4 p47.5 a47.4.1 t47 ",
    "a44.0.3 a44.119.4 t44 a44.136.0 p44.170 a47.221.4 a24.17.7 t47 p24.68 a47.51.12 a47.153.9 p44.187 p44.204 a24.187.0 a19.51.3 a19.85.7 a44.34.5 a47.85.5 a47.68.10 a47.136.4 a47.238.11 a19.68.2 p44.136 a44.102.1 ",
    "a25.1.4 a36.1.9 a36.1.4 t25 p36.1 a25.1.5 a25.1.9 a25.1.7 a36.1.9 a25.1.6 a25.1.7 t25 a25.1.3 a25.1.7 a25.1.4 p36.1 a36.1.0 a36.1.3 a25.1.5 a36.1.1 a25.1.0 p36.1 a25.1.0 a25.1.6 ",
    "a19.127.7 a48.127.6 t48 t19 a35.127.7 p35.127 p35.127 a19.127.2 t19 a19.127.3 a62.127.3 a48.128.6 p62.127 a27.127.11 a48.127.9 t62 a5.128.5 p19.127 a62.128.5 t5 a62.128.1 p48.128 p48.127 p35.128 ",
    "a11.119.4 p11.238 a20.221.10 p20.0 a20.238.1 p11.238 p11.170 t20 a20.255.0 a11.221.8 a20.34.3 t11 t20 a20.153.0 p20.68 a20.187.7 p20.17 t20 a20.238.4 t20 a11.34.1 p11.119 p11.187 t11 ",
    "a45.7.0 a45.8.3 a18.7.8 a56.8.6 p18.9 a8.7.9 a45.7.7 t45 p18.7 a56.9.1 a56.7.8 a8.8.2 a8.7.0 p8.7 a45.8.9 a45.9.4 p45.8 p8.8 p56.8 a34.8.10 a47.8.2 a34.9.2 p8.7 a8.7.1 ",
    "a59.136.8 t59 a16.153.2 t16 a59.136.6 p59.0 a16.204.0 p16.153 t59 t16 a59.238.11 p59.255 t59 a59.51.7 a59.170.2 a59.102.1 p59.0 t59 a16.102.0 a59.238.2 p16.102 p16.102 a59.204.4 a16.187.9 ",
    "a28.127.12 a10.128.11 p46.128 a28.128.7 a46.127.8 a10.127.3 a28.127.5 p28.128 a10.128.6 a28.127.9 a10.128.11 p28.128 t28 a28.127.2 a10.128.11 a28.128.6 t28 a28.128.0 a46.127.5 a28.127.10 a10.128.4 a46.128.7 a46.128.11 t10 ",
    "a49.63.5 a4.63.6 p4.64 p49.64 a23.63.1 a49.64.7 t49 p4.63 a49.63.4 a16.63.9 p4.255 p23.63 p4.63 p49.255 a4.64.5 p23.255 p4.63 p49.64 p23.0 t23 p16.64 p16.64 t16 a16.64.10 ",
    "a17.136.0 a15.187.2 a14.187.1 p17.102 a21.255.6 a17.34.0 t14 a17.68.11 p17.85 t21 t17 a15.17.11 p15.153 a15.170.0 a15.68.6 a21.34.3 a13.119.11 a17.0.6 t17 p13.221 a15.136.6 a44.85.4 a14.170.10 p44.0 ",
    "a54.127.2 a24.127.9 p54.128 t24 a24.128.9 a54.128.7 a11.127.7 p24.128 a24.128.11 a11.127.6 p54.128 a54.127.9 a54.128.0 p11.128 a54.128.6 t24 p54.128 p11.127 p54.127 a24.128.4 a24.128.4 t24 a54.127.7 p11.127 ",
    "a14.1.1 a14.1.5 a9.1.11 a28.1.1 t9 p29.1 a14.1.10 t14 t28 a9.1.1 p29.1 t9 a14.1.8 a29.1.5 a9.1.6 p14.1 a28.1.9 p9.1 a29.1.8 p29.1 a14.1.1 t14 a28.1.0 t28 ",
    "a18.8.7 a61.7.10 a42.8.7 t61 a61.8.11 p42.9 p18.8 a42.7.6 a61.8.0 a27.9.9 p27.8 t27 a18.7.2 p18.7 a27.9.3 t42 t18 a18.8.9 a18.8.6 a18.9.3 a57.9.11 a18.9.0 p61.9 a18.8.4 ",
    "a1.1.5 a43.1.7 t43 t1 a1.1.7 a43.1.4 a1.1.12 p43.1 a2.1.7 p1.1 a43.1.3 a1.1.7 t2 t1 t43 a2.1.6 p2.1 a1.1.12 t2 t1 a54.1.8 p54.1 a43.1.5 t43 ",
    "a3.0.7 t3 a55.64.8 t55 a55.63.4 p55.64 a16.0.5 p55.255 p16.0 a3.0.6 p9.255 a9.0.6 a25.64.12 p16.0 t55 a55.255.1 a3.0.10 t16 a41.64.6 a41.64.1 t9 t41 p41.63 p25.0 ",
    "a11.4.5 p11.5 p54.4 a54.5.2 a54.5.6 a54.4.0 a11.4.2 t54 a7.4.12 a7.4.12 a7.5.0 a7.5.4 a54.4.0 a7.4.2 t54 t7 a11.4.11 t7 a54.4.11 t11 a11.5.8 a54.4.10 a11.5.10 a54.4.2 ",
    "a6.102.1 t6 a12.255.6 t12 a36.255.6 a36.119.1 a51.255.5 p51.221 a59.187.5 t36 p51.238 a27.187.0 a36.0.5 p27.221 t27 a21.85.3 p59.221 p36.102 a62.51.5 a12.221.7 a6.170.2 a21.255.4 p21.221 t51 ",
    "a51.68.2 p8.221 p51.170 p51.221 a8.34.11 t8 a8.85.3 a8.34.3 p8.238 a8.51.8 p51.34 p8.136 a51.221.6 a51.238.2 t8 p51.238 p51.136 a8.85.4 a8.85.12 p51.255 a8.34.10 a51.17.10 a8.153.2 p8.34 ",
    "a63.5.3 a46.4.11 p46.5 p46.5 a31.4.5 t1 t63 p31.5 a46.5.10 a31.5.0 p31.5 t31 t46 a31.5.2 a30.4.7 a21.5.1 a30.4.11 t63 a11.5.4 p31.4 a21.4.7 a21.5.7 a12.4.11 t31 ",
    "a29.0.9 p29.85 a10.119.11 a10.85.10 p29.187 t29 t10 a29.102.2 p29.136 a38.119.3 t29 a37.51.1 a38.170.4 a10.238.6 a38.0.9 a37.238.7 a10.85.8 a37.238.4 a38.85.3 p10.170 p37.0 t10 p29.153 p38.136 ",
    "a50.1.9 a34.1.11 t50 a2.1.1 a34.1.12 p2.1 t34 a10.1.10 a2.1.8 t2 a50.1.1 p50.1 a50.1.12 a2.1.4 a34.1.8 a2.1.5 p50.1 p34.1 p50.1 t34 p50.1 a50.1.3 p50.1 p10.1 ",
    "a35.4.5 a29.5.9 a32.5.12 t35 a61.4.11 p29.5 t32 a61.5.6 p61.5 t61 p29.4 a49.5.8 a60.5.2 a49.4.9 a35.4.2 t60 a60.5.8 a46.4.1 a8.4.1 a8.4.11 a46.4.2 p49.5 a46.5.10 t46 ",
    "a49.127.4 p49.128 p49.128 t49 a19.128.7 a49.127.12 p49.127 t19 p49.127 t49 a16.128.2 p16.128 a34.128.11 a34.128.4 t16 a32.127.2 a16.128.2 t32 a49.127.5 a16.127.9 t34 a19.127.3 p49.127 t49 ",
    "a60.136.6 a26.34.11 a7.102.9 p60.153 p26.68 p55.51 a60.187.12 a54.204.11 a55.153.9 a55.221.0 t7 a26.85.10 p55.85 a54.153.10 a55.170.7 a7.136.7 a60.187.4 a57.34.5 a57.170.10 a54.170.12 a26.17.7 t26 a26.204.7 t60 ",
    "a63.8.3 t63 a46.8.10 t46 a46.7.2 a63.8.10 p63.7 a63.9.5 t63 a62.8.7 t62 p46.9 a63.7.4 a62.9.12 p62.8 a46.8.2 a46.8.6 a46.7.6 a63.9.5 p63.8 a63.9.4 p62.9 p62.7 a63.8.10 ",
    "a15.5.9 p15.5 p15.5 a36.5.8 t19 a19.4.7 p19.4 a22.4.12 p36.4 p22.5 a15.5.10 a14.5.0 a36.4.1 a14.5.1 a14.5.9 p36.5 a29.5.6 p36.4 a36.5.0 a14.4.11 t22 a19.5.0 a29.4.11 p15.5 ",
    "a42.7.11 t42 a0.9.3 p0.8 a62.9.4 p0.7 a34.7.1 a48.7.9 a48.9.8 a48.7.6 a34.7.10 t0 a34.7.5 t34 a12.7.0 a42.8.12 a62.8.11 a48.9.10 t62 p48.8 p42.9 a62.9.10 a34.8.0 a12.9.3 ",
    "a44.7.4 a36.7.7 a57.9.4 t44 a9.9.8 p36.8 a57.9.12 a12.7.8 t9 a57.7.5 t57 t9 a9.8.10 t9 a52.8.6 p52.8 p52.7 p52.8 a52.7.0 a36.8.10 t36 a52.9.7 a9.8.8 p52.7 ",
    "a31.5.5 a15.5.1 a15.5.6 a15.4.5 p31.4 p31.5 a15.4.7 p31.4 t31 p15.4 a15.5.7 p31.5 a15.5.9 p15.5 p15.4 a15.5.0 a31.4.11 a15.5.0 a31.5.12 p15.5 a31.5.5 t31 a31.4.2 a31.5.9 ",
    "a37.119.8 a55.221.2 t37 t55 a42.0.4 a42.221.12 t42 a37.221.9 a63.119.0 t63 p37.68 p55.204 a32.17.11 t32 a55.17.4 a37.255.5 a37.136.1 p37.153 t55 p0.17 t37 a32.34.9 a32.204.8 t37 ",
];

#[test]
fn the_queues_answer_as_a_scanned_list(rt: HostRuntime) -> Result<(), Fail> {
    for next in [0, 1, u64::MAX - 40, u64::MAX - 9, u64::MAX - 1, u64::MAX] {
        for version in [1, 2] {
            for list in &LISTS {
                let mut ready = Ready::counting_from(rt.alloc(), version, next)
                    .ok()
                    .ok_or("no memory")?;
                assert!(rt;
                    is_same(&mut ready, version, list),
                    "{next} {version} {list}"
                );
            }
        }
    }
    Ok(())
}

#[test]
fn after_the_greatest_number_the_order_is_kept(rt: HostRuntime) -> Result<(), Fail> {
    let mut ready = Ready::counting_from(rt.alloc(), 1, u64::MAX - 2)
        .ok()
        .ok_or("no memory")?;
    ready.add(9, 3, 0);
    ready.add(4, 3, 0);
    ready.add(7, 3, 0);
    ready.add(2, 3, 0);
    ready.add(5, 3, 0);
    for id in [9, 4, 7, 2, 5] {
        assert_eq!(rt; ready.first(), Some(id));
        assert_eq!(rt; ready.take(id), true);
    }
    assert_eq!(rt; ready.first(), None);
    Ok(())
}
