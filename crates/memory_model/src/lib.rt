//! Sides of memory and the little-endian words in them, as definitions, with the laws over them.
//!
//! A side is a first address and the bytes from there on. The memory of a machine, the bus of a processor and the bare
//! machine all speak of the same sides.
#![tactic(auto)]

ghost use Rattle.memory_model.specs.Laws.{ReadsBack, KeepsPlace, KeepsOthers, StoresBytes};

/// A word that was stored is read back.
pub fn reads_back()
    ensures { ReadsBack }
{}

/// A store moves no side, and leaves its size.
pub fn keeps_place()
    ensures { KeepsPlace }
{}

/// A store leaves each byte outside its range.
pub fn keeps_others()
    ensures { KeepsOthers }
{}

/// A store of a word is a store of its bytes, the lowest first.
pub fn stores_bytes()
    ensures { StoresBytes }
{}
