// Where an owner's place stands in the index, and where it would.
ghost use Rattle.std.specs.Prelude.{◌≡◌, ◌<◌, ◌≤◌, ◌+◌, ◌*◌, ℕ, length, nat_lt, get_or, true, false, IfSome, IfNone};
ghost use Rattle.rt_timeline.specs.Index.{rank_at, has_at, Sorts};

// Whether an entry comes before a due of an owner: by due, and of equal ones by place, the threads' by number before the guest's.
fn entry_before(dues: &[Option<u64>], place: u8, at: u64, owner: u8) -> bool
    requires dues { length dues.now ≡ 65 }
    requires place { place < 65 }
    requires owner { owner < 65 }
    requires there { has_at dues.now place ≡ true }
    ensures { result ≡ nat_lt (rank_at dues.now place) (at * 65 + owner) }
{
    match dues[place as usize] {
        Some(due) => due < at || (due == at && place < owner),
        None => false,
    }
}

// The number of entries that come before a due of an owner. The index is sorted, so each step halves what is left.
pub fn place_in(dues: &[Option<u64>], order: &[u8], at: u64, owner: u8) -> usize
    requires dues { length dues.now ≡ 65 }
    requires sorted { Sorts dues.now order.now }
    requires owner { owner < 65 }
    ensures within { result ≤ length order.now }
    ensures before { (i : ℕ) → i < result → rank_at dues.now (get_or order.now i 0) < at * 65 + owner }
    ensures behind { result < length order.now → at * 65 + owner ≤ rank_at dues.now (get_or order.now result 0) }
{
    let mut low = 0;
    let mut high = order.len();
    while low < high {
        let middle = low + (high - low) / 2;
        if entry_before(dues, order[middle], at, owner) {
            low = middle + 1;
        } else {
            high = middle;
        }
    }
    low
}

// Where a place stands in the index; `None` exactly where it has no due.
pub fn position_of(dues: &[Option<u64>], order: &[u8], place: u8) -> Option<usize>
    requires dues { length dues.now ≡ 65 }
    requires sorted { Sorts dues.now order.now }
    requires place { place < 65 }
    ensures there { IfSome result (λ i. (i < length order.now) × (get_or order.now i 0 ≡ place)) }
    ensures absent { IfNone result (has_at dues.now place ≡ false) }
{
    match dues[place as usize] {
        Some(at) => Some(place_in(dues, order, at, place)),
        None => None,
    }
}
