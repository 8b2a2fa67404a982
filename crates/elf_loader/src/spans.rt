// Ranges of addresses that are taken.

ghost use Rattle.std.specs.Prelude.{◌≡◌};
ghost use Rattle.elf_loader.specs.Place.{overlap, is_free};

use item_list::Items;

/// Ranges that are taken, each by its first address and one past its last.
pub type Spans = Items<(u32, u32)>;

/// No taken range shares a byte with this one.
#[tactic(auto, unfolding(crate::specs::Place::is_free))]
pub fn has_room(taken: &[(u32, u32)], span: (u32, u32)) -> bool
    ensures { result ≡ is_free taken.now span }
{
    taken.iter().all(|other| !shares(*other, span))
}

// Whether two ranges share a byte.
fn shares(a: (u32, u32), b: (u32, u32)) -> bool
    ensures { result ≡ overlap a b }
{
    a.0.max(b.0) < a.1.min(b.1)
}
