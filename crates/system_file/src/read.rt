// Reading a system file.
ghost use Rattle.std.specs.Prelude.{◌≡◌, Some, None, option_map, []};
ghost use Rattle.std.specs.Prelude.{string_bytes};
ghost use Rattle.std.specs.List.{list_all};
ghost use Rattle.std.specs.BTreeMap.{keys};
ghost use Rattle.toml.specs.Data.{array, integer, string, get_member};
ghost use Rattle.toml.specs.View.{view, table_view, items_view};
ghost use Rattle.system_file.specs.Answers.{Gives, ReadsSystem};
ghost use Rattle.system_file.specs.Fields.{version_of, name_of, names_in, names_of, size_of, is_field, has_only_fields, system_of, required, optional};
ghost use Rattle.system_file.specs.Read.{system_of_file};

use crate::name::Name;
use crate::system::{System, SystemRefusal};
use item_list::Items;
use outside_io::NAME_LIMIT;
use std::alloc::Global;
use toml::{Table, Value};

/// The least size of a side of memory, in bytes.
const LEAST_MEMORY: u32 = 65_536;
/// The greatest size of the guest's side.
const MOST_GUEST_MEMORY: u32 = 16_777_216;
/// The greatest size of the real-time side.
const MOST_REAL_TIME_MEMORY: u32 = 4_194_304;
/// Sizes are multiples of this.
const PAGE: u32 = 4_096;
/// How many modules there may be.
const MOST_MODULES: usize = 16;

/// Reads the bytes of a system file.
pub fn read_system(alloc: Global, bytes: &[u8]) -> Result<System, SystemRefusal>
    ensures { ReadsSystem result (system_of_file bytes.now) }
{
    match toml::table_from_slice(alloc, bytes) {
        Ok(table) => system(alloc, &table),
        Err(fault) if fault.is_memory() => Err(SystemRefusal::NoMemory),
        Err(_) => Err(SystemRefusal::NotToml),
    }
}

// The system of a document.
#[tactic(auto, unfolding(crate::specs::Fields::fields_of))]
fn system(alloc: Global, table: &Table) -> Result<System, SystemRefusal>
    ensures { Gives result (system_of (table_view table.now)) }
{
    if !knows_all(table) {
        return Err(SystemRefusal::Field);
    }
    let version = version(field(table, "version"))?;
    let image = required_name(alloc, field(table, "image"))?;
    let guest_memory = size(field(table, "guest_memory"), MOST_GUEST_MEMORY)?;
    let real_time_memory = size(field(table, "real_time_memory"), MOST_REAL_TIME_MEMORY)?;
    let modules = modules(alloc, field(table, "modules"))?;
    let script = script(alloc, field(table, "script"))?;
    Ok(System {
        version,
        image,
        guest_memory,
        real_time_memory,
        modules,
        script,
    })
}

// No field is unknown.
#[tactic(auto, using(crate::proofs::Members::only_fields_of_keys))]
fn knows_all(table: &Table) -> bool
    ensures { result ≡ has_only_fields (table_view table.now) }
{
    knows_keys(table)
}

fn knows_keys(table: &Table) -> bool
    ensures { result ≡ list_all (λ key. is_field (string_bytes key)) (keys table.now) }
{
    table.keys().all(|key| is_known(key.as_str()))
}

fn is_known(key: &str) -> bool
    ensures { result ≡ is_field key.now }
{
    key == "version"
        || key == "image"
        || key == "guest_memory"
        || key == "real_time_memory"
        || key == "modules"
        || key == "script"
}

// The value of a field.
fn field<'a>(table: &'a Table, key: &str) -> Option<&'a Value>
    ensures { option_map (λ v. view v.now) result ≡ get_member key.now (table_view table.now) }
{
    table.get(key)
}

fn version(value: Option<&Value>) -> Result<u8, SystemRefusal>
    ensures { Gives result (required version_of (option_map (λ v. view v.now) value.entry)) }
{
    match value {
        Some(Value::Integer(1)) => Ok(1),
        Some(Value::Integer(2)) => Ok(2),
        _ => Err(SystemRefusal::Field),
    }
}

fn size(value: Option<&Value>, most: u32) -> Result<u32, SystemRefusal>
    ensures { Gives result (required (size_of most) (option_map (λ v. view v.now) value.entry)) }
{
    match value {
        Some(Value::Integer(n)) => size_in(*n, most),
        _ => Err(SystemRefusal::Field),
    }
}

fn size_in(n: i64, most: u32) -> Result<u32, SystemRefusal>
    ensures { Gives result (size_of most (integer n)) }
{
    match u32::try_from(n) {
        Ok(bytes) if LEAST_MEMORY <= bytes && bytes <= most && bytes % PAGE == 0 => Ok(bytes),
        _ => Err(SystemRefusal::Field),
    }
}

fn required_name(alloc: Global, value: Option<&Value>) -> Result<Name, SystemRefusal>
    ensures { Gives result (required name_of (option_map (λ v. view v.now) value.entry)) }
{
    match value {
        Some(value) => name(alloc, value),
        None => Err(SystemRefusal::Field),
    }
}

fn name(alloc: Global, value: &Value) -> Result<Name, SystemRefusal>
    ensures { Gives result (name_of (view value.now)) }
{
    match value {
        Value::String(text) => copied(alloc, text.as_str()),
        _ => Err(SystemRefusal::Field),
    }
}

// The text as a name.
fn copied(alloc: Global, text: &str) -> Result<Name, SystemRefusal>
    ensures { Gives result (name_of (string text.now)) }
{
    if text.is_empty() || text.len() > NAME_LIMIT {
        return Err(SystemRefusal::Field);
    }
    match String::from_str(alloc, text) {
        Ok(text) => Ok(Name::new(text)),
        Err(_) => Err(SystemRefusal::NoMemory),
    }
}

fn modules(alloc: Global, value: Option<&Value>) -> Result<Items<Name>, SystemRefusal>
    ensures { Gives result (optional names_of [] (option_map (λ v. view v.now) value.entry)) }
{
    match value {
        None => Ok(Items::empty(alloc)),
        Some(value) => names(alloc, value),
    }
}

fn names(alloc: Global, value: &Value) -> Result<Items<Name>, SystemRefusal>
    ensures { Gives result (names_of (view value.now)) }
{
    match value {
        Value::Array(values) => few_names(alloc, values.as_slice()),
        _ => Err(SystemRefusal::Field),
    }
}

// The names of an array, which isn't too long.
fn few_names(alloc: Global, values: &[Value]) -> Result<Items<Name>, SystemRefusal>
    ensures { Gives result (names_of (array (items_view values.now))) }
{
    let names = names_among(alloc, values)?;
    if names.len() <= MOST_MODULES {
        Ok(names)
    } else {
        Err(SystemRefusal::Field)
    }
}

// The names of an array, however long.
fn names_among(alloc: Global, values: &[Value]) -> Result<Items<Name>, SystemRefusal>
    ensures { Gives result (names_in (items_view values.now)) }
{
    let mut names = Items::empty(alloc);
    for value in values {
        let name = name(alloc, value)?;
        if names.push(name).is_err() {
            return Err(SystemRefusal::NoMemory);
        }
    }
    Ok(names)
}

fn script(alloc: Global, value: Option<&Value>) -> Result<Option<Name>, SystemRefusal>
    ensures { Gives result (optional (λ d. option_map Some (name_of d)) None (option_map (λ v. view v.now) value.entry)) }
{
    match value {
        None => Ok(None),
        Some(value) => Ok(Some(name(alloc, value)?)),
    }
}
