// What the files hold.
ghost use Rattle.std.specs.Prelude.{◌≡◌, ◌≤◌, ◌<◌, ◌+◌, ◌^◌, length, IfOk, All};
ghost use Rattle.elf_loader.specs.Place.{FitsSize};
ghost use Rattle.device_script.specs.Event.{IsScript};
ghost use Rattle.run_files.specs.Files.{IsAccepted, system_in, fitted, sides_in, module_in, script_in, file_limit};
ghost use Rattle.run_files.specs.Modules.{with_module};
ghost use Rattle.run_files.specs.Refusal.{Accepts, BlamesBytes};
ghost use Rattle.run_files.specs.Sides.{sides_of};
ghost use Rattle.run_files.specs.Verdict.{about};

use crate::cause::{Cause, Refusal, refused};
use crate::modules::{Loaded, load_module};
use crate::sides::{Sides, make_sides};
use device_script::{Script, ScriptRefusal, read_script};
use elf_loader::{ElfRefusal, Image, PlaceRefusal, read_image};
use std::alloc::Global;
use system_file::{System, SystemRefusal, read_system};

/// The most bytes of a file.
pub const FILE_LIMIT: u32 = 33_554_432;

/// Reads the system file of this name.
#[tactic(auto, using(crate::proofs::Fields::accepted_keeps))]
pub fn accept_system(alloc: Global, name: &[u8], bytes: &[u8]) -> Result<System, Refusal>
    requires { length name.now ≤ 255 }
    ensures exact { Accepts result (about name.now (system_in bytes.now)) }
    ensures blame { BlamesBytes result }
    ensures fields { IfOk result IsAccepted }
{
    read(alloc, name, bytes)
}

#[tactic(auto, unfolding(crate::specs::Files::system_in, system_file::specs::Read::system_of_file))]
fn read(alloc: Global, name: &[u8], bytes: &[u8]) -> Result<System, Refusal>
    requires { length name.now ≤ 255 }
    ensures exact { Accepts result (about name.now (system_in bytes.now)) }
    ensures blame { BlamesBytes result }
{
    match read_system(alloc, bytes) {
        Ok(system) => Ok(system),
        Err(SystemRefusal::NotToml) => Err(refused(Cause::Document, name)),
        Err(SystemRefusal::Field) => Err(refused(Cause::Field, name)),
        Err(SystemRefusal::NoMemory) => Err(Refusal::NoMemory),
    }
}

/// Reads the image of a system, of this name, and puts it on the guest's side of a memory with the system's sizes. The real-time
/// side has its stub.
#[tactic(auto, unfolding(crate::specs::Files::sides_in))]
pub fn accept_image(
    alloc: Global,
    name: &[u8],
    system: &System,
    bytes: &[u8],
) -> Result<Sides, Refusal>
    requires name { length name.now ≤ 255 }
    requires room { 2 ≤ system.now.real_time_memory }
    ensures exact { Accepts result (about name.now (sides_in system.now bytes.now)) }
    ensures blame { BlamesBytes result }
    ensures guest_size { IfOk result (λ sides. length sides.memory.guest ≡ system.now.guest_memory) }
    ensures real_time_size { IfOk result (λ sides. length sides.memory.real_time ≡ system.now.real_time_memory) }
{
    match read_image(alloc, bytes) {
        Ok(image) => placed(alloc, name, system, &image),
        Err(ElfRefusal::Bad(rule)) => Err(refused(Cause::Image(rule), name)),
        Err(ElfRefusal::NoMemory) => Err(Refusal::NoMemory),
    }
}

// Puts an image on the guest's side.
fn placed(alloc: Global, name: &[u8], system: &System, image: &Image) -> Result<Sides, Refusal>
    requires name { length name.now ≤ 255 }
    requires fits { All FitsSize image.now.segments }
    requires room { 2 ≤ system.now.real_time_memory }
    ensures exact { Accepts result (about name.now (fitted (sides_of system.now.guest_memory system.now.real_time_memory image.now))) }
    ensures blame { BlamesBytes result }
    ensures guest_size { IfOk result (λ sides. length sides.memory.guest ≡ system.now.guest_memory) }
    ensures real_time_size { IfOk result (λ sides. length sides.memory.real_time ≡ system.now.real_time_memory) }
{
    match make_sides(alloc, system.guest_memory, system.real_time_memory, image) {
        Ok(sides) => Ok(sides),
        Err(PlaceRefusal::Outside) => Err(refused(Cause::Outside, name)),
        Err(PlaceRefusal::Overlap) => Err(refused(Cause::Overlap, name)),
        Err(PlaceRefusal::NoMemory) => Err(Refusal::NoMemory),
    }
}

/// Reads the module of this name, and puts it on the real-time side behind those before it.
#[tactic(auto, unfolding(crate::specs::Files::module_in))]
pub fn accept_module(
    alloc: Global,
    name: &[u8],
    loaded: Loaded,
    bytes: &[u8],
) -> Result<Loaded, Refusal>
    requires name { length name.now ≤ 255 }
    requires small { length loaded.sides.memory.guest + length loaded.sides.memory.real_time < 2 ^ 32 }
    ensures exact { Accepts result (about name.now (module_in loaded bytes.now)) }
    ensures blame { BlamesBytes result }
    ensures guest_size { IfOk result (λ next. length next.sides.memory.guest ≡ length loaded.sides.memory.guest) }
    ensures real_time_size { IfOk result (λ next. length next.sides.memory.real_time ≡ length loaded.sides.memory.real_time) }
    ensures count { IfOk result (λ next. length next.inits ≡ length loaded.inits + 1) }
{
    match read_image(alloc, bytes) {
        Ok(image) => behind(name, loaded, &image),
        Err(ElfRefusal::Bad(rule)) => Err(refused(Cause::Image(rule), name)),
        Err(ElfRefusal::NoMemory) => Err(Refusal::NoMemory),
    }
}

// Puts an image on the real-time side.
fn behind(name: &[u8], loaded: Loaded, image: &Image) -> Result<Loaded, Refusal>
    requires name { length name.now ≤ 255 }
    requires fits { All FitsSize image.now.segments }
    requires small { length loaded.sides.memory.guest + length loaded.sides.memory.real_time < 2 ^ 32 }
    ensures exact { Accepts result (about name.now (fitted (with_module loaded image.now))) }
    ensures blame { BlamesBytes result }
    ensures guest_size { IfOk result (λ next. length next.sides.memory.guest ≡ length loaded.sides.memory.guest) }
    ensures real_time_size { IfOk result (λ next. length next.sides.memory.real_time ≡ length loaded.sides.memory.real_time) }
    ensures count { IfOk result (λ next. length next.inits ≡ length loaded.inits + 1) }
{
    match load_module(loaded, image) {
        Ok(next) => Ok(next),
        Err(PlaceRefusal::Outside) => Err(refused(Cause::Outside, name)),
        Err(PlaceRefusal::Overlap) => Err(refused(Cause::Overlap, name)),
        Err(PlaceRefusal::NoMemory) => Err(Refusal::NoMemory),
    }
}

/// Reads the script of this name.
#[tactic(auto, unfolding(crate::specs::Files::script_in))]
pub fn accept_script(alloc: Global, name: &[u8], bytes: &[u8]) -> Result<Script, Refusal>
    requires name { length name.now ≤ 255 }
    requires limit { length bytes.now ≤ file_limit }
    ensures exact { Accepts result (about name.now (script_in bytes.now)) }
    ensures blame { BlamesBytes result }
    ensures rules { IfOk result (λ script. IsScript script.events) }
{
    match read_script(alloc, bytes) {
        Ok(script) => Ok(script),
        Err(ScriptRefusal::BadLine(line)) => Err(refused(Cause::Line(line), name)),
        Err(ScriptRefusal::NoMemory) => Err(Refusal::NoMemory),
    }
}
