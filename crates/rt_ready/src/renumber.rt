// The next number of arrival, and numbering anew.
ghost use Rattle.std.specs.Prelude.{◌≡◌, ◌<◌, ◌≤◌, ◌^◌, ◌+◌};
ghost use Rattle.rt_ready.specs.Numbered.{AreNumbered};
ghost use Rattle.rt_ready.specs.Renumbered.{nearer, IsFrom, IsRenumbered};

use ready_queues::{Member, Queues};

// The nearer of the best so far and one more thread, if its number is at least so much.
fn nearer(
    best: Option<(u8, Member)>,
    id: u8,
    member: Option<Member>,
    from: u64,
) -> Option<(u8, Member)>
    ensures { result ≡ nearer best id member from }
{
    match member {
        None => best,
        Some(member) => {
            if member.number < from {
                best
            } else {
                match best {
                    None => Some((id, member)),
                    Some((other, old)) => {
                        if member.number < old.number {
                            Some((id, member))
                        } else {
                            Some((other, old))
                        }
                    }
                }
            }
        }
    }
}

// The thread of least number that is at least so much.
fn first_from(queues: &Queues, from: u64) -> Option<(u8, Member)>
    ensures { IsFrom queues.now from 64 result }
{
    let mut best = None;
    for id in 0..64u8 {
        best = nearer(best, id, queues.member(id), from);
    }
    best
}

// Numbers the threads anew from 0, in their order, and gives the next number.
fn renumber(queues: &mut Queues, next: u64) -> u64
    requires { AreNumbered queues.old next }
    ensures numbered { IsRenumbered queues.old next queues.new result }
    ensures few { result ≤ 64 }
{
    let mut count = 0;
    let mut from = 0;
    while let Some((id, member)) = first_from(queues, from) {
        queues.remove(id, member);
        queues.insert(
            id,
            Member {
                priority: member.priority,
                since: member.since,
                number: count,
            },
        );
        from = member.number + 1;
        count += 1;
    }
    count
}

/// The next number; where it is the greatest, the threads are first numbered anew.
pub fn next_number(queues: &mut Queues, next: u64) -> u64
    requires { AreNumbered queues.old next }
    ensures numbered { IsRenumbered queues.old next queues.new result }
    ensures more { result + 1 < 2 ^ 64 }
{
    let is_greatest = next == u64::MAX;
    if is_greatest {
        renumber(queues, next)
    } else {
        next
    }
}
