// The walk along a queue.
ghost use Rattle.std.specs.Prelude.{◌≡◌, ◌<◌, ◌+◌, ℕ, length, nat_lt, get_or};
ghost use Rattle.ready_queues.specs.Members.{queue_at, key_at, key};
ghost use Rattle.ready_queues.specs.Linked.{IsNext, IsLast};

use crate::queues::{Member, NONE};

// Whether one goes before another of the same queue.
fn is_before(version: u8, a: Member, b: Member) -> bool
    ensures { result ≡ nat_lt (key version a) (key version b) }
{
    let by_since = version == 2;
    if by_since {
        a.since < b.since || (a.since == b.since && a.number < b.number)
    } else {
        a.number < b.number
    }
}

// Whether a ready thread goes before another.
fn goes_before(version: u8, members: &[Option<Member>], id: u8, member: Member) -> bool
    requires within { id < length members.now }
    requires ready { queue_at members.now id < 256 }
    ensures { result ≡ nat_lt (key_at version members.now id) (key version member) }
{
    match &members[id as usize] {
        Some(other) => is_before(version, *other, member),
        None => false,
    }
}

// The last of the queue that goes before the member; `NONE` where none does.
pub fn last_before(
    version: u8,
    members: &[Option<Member>],
    links: &[u8],
    first: u8,
    member: Member,
) -> u8
    requires places { length members.now ≡ 64 }
    requires linked { length links.now ≡ 64 }
    requires next { (k : ℕ) → k < 64 → queue_at members.now k < 256 → IsNext (queue_at members.now) (key_at version members.now) (queue_at members.now k) (key_at version members.now k + 1) (get_or links.now k 0) }
    requires first { IsNext (queue_at members.now) (key_at version members.now) member.priority 0 first }
    ensures { IsLast (queue_at members.now) (key_at version members.now) member.priority (key version member) result }
{
    let mut last = NONE;
    let mut next = first;
    while next < NONE && goes_before(version, members, next, member) {
        last = next;
        next = links[next as usize];
    }
    last
}
