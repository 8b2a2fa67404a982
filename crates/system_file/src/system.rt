// What a system file holds, and why one isn't taken.

use crate::name::Name;
use item_list::Items;

/// What a system file holds. The sizes are in bytes.
#[derive(Drop)]
pub struct System {
    /// The version of the rule that picks among ready threads of equal priority: 1, the one that came first, or 2, the one whose due was
    /// first.
    pub version: u8,
    /// The file of the guest's image.
    pub image: Name,
    /// The size of the guest's side of memory.
    pub guest_memory: u32,
    /// The size of the real-time side of memory.
    pub real_time_memory: u32,
    /// The modules' files, which are numbered from 0 in this order.
    pub modules: Items<Name>,
    /// The script's file, if there is one.
    pub script: Option<Name>,
}

/// Why a system file isn't taken.
#[derive(Clone, Copy, Debug, PartialEq, Eq)]
pub enum SystemRefusal {
    /// The bytes are no TOML document.
    NotToml,
    /// A field is wrong, missing or unknown.
    Field,
    /// Memory was refused.
    NoMemory,
}
