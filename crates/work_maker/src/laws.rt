// What holds of all that is made.

ghost use Rattle.work_maker.specs.Laws.{GuestApart, GuestInside, KeepsRules, ModuleApart, ModuleInside, SegmentsFit};

/// The guest's segments lie wholly on a guest's side of `GUEST_SIZE` bytes.
#[tactic(auto, using(crate::proofs::Fits::guest_is_inside))]
pub fn guest_inside()
    ensures { GuestInside }
{}

/// No two of them share a byte, and these are their ranges.
#[tactic(auto, using(crate::proofs::Fits::guest_is_apart))]
pub fn guest_apart()
    ensures { GuestApart }
{}

/// The module's segment lies wholly on a real-time side of `REAL_TIME_SIZE` bytes behind that guest's side.
#[tactic(auto, using(crate::proofs::Fits::module_is_inside))]
pub fn module_inside()
    ensures { ModuleInside }
{}

/// It shares no byte with the reserved ranges of that side, and this is its range.
#[tactic(auto, using(crate::proofs::Fits::module_is_apart))]
pub fn module_apart()
    ensures { ModuleApart }
{}

/// No segment has more bytes than its size.
#[tactic(auto, using(crate::proofs::Fits::segments_do_fit))]
pub fn segments_fit()
    ensures { SegmentsFit }
{}

/// The script of each number and each count of ticks keeps the rules of scripts.
pub fn keeps_rules()
    ensures { KeepsRules }
{}
