// What is made has its place.
ghost use Rattle.make_request.specs.Placed.{GuestPlaced, ModulePlaced};

use work_maker::{guest_apart, guest_inside, module_apart, module_inside};

/// The guest of each number has its place on a guest's side of 1,048,576 bytes: placing it is never refused.
pub fn guest_has_its_place()
    ensures { GuestPlaced }
{
    guest_inside();
    guest_apart();
}

/// The module of each number has its place behind that, on a real-time side of 262,144 bytes, beside the stub and the stack.
pub fn module_has_its_place()
    ensures { ModulePlaced }
{
    module_inside();
    module_apart();
}
