//! Lists of things with their ticks, and what the real-time lines of a run say, as definitions.
#![tactic(auto)]
