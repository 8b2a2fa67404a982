// Systems with modules. Both sides have 65,536 bytes, so the real-time side is from 10000h to 1FFFFh.
use crate::calls::hex_of;
use outside_io::MemoryStore;
use std::alloc::Global;
use std::test::Fail;

/// An image of one part: this code at this address, where it starts.
pub fn image_at(alloc: Global, address: u32, code: &[u8]) -> Result<Vec<u8>, Fail> {
    let place = address.to_le_bytes();
    let size = u32::try_from(code.len())
        .ok()
        .ok_or("too long")?
        .to_le_bytes();
    let mut image = hex_of(alloc, "7f454c460101010000000000000000000200030001000000")?;
    image.extend_from_slice(&place)?;
    image.extend_from_slice(hex_of(
        alloc,
        "3400000000000000000000003400200001000000000000000100000054000000",
    )?
    .as_slice())?;
    image.extend_from_slice(&place)?;
    image.extend_from_slice(&place)?;
    image.extend_from_slice(&size)?;
    image.extend_from_slice(&size)?;
    image.extend_from_slice(&[7, 0, 0, 0, 1, 0, 0, 0])?;
    image.extend_from_slice(code)?;
    Ok(image)
}

/// Files by their names.
pub type Held = Vec<(String, Vec<u8>)>;

/// A store of s.toml with this version and these names of modules, each quoted, of its guest and its script, and of these files.
pub fn store_with(
    alloc: Global,
    version: &str,
    names: &str,
    guest: &[u8],
    script: &[u8],
    mut files: Held,
) -> Result<MemoryStore, Fail> {
    let system = format!(in alloc;
        "version = {version}\nimage = \"k.bin\"\nguest_memory = 65536\nreal_time_memory = 65536\nmodules = [{names}]\nscript = \"d.txt\"\n"
    )?;
    files.push((
        String::from_str(alloc, "s.toml")?,
        system.as_bytes().to_vec(alloc)?,
    ))?;
    files.push((String::from_str(alloc, "k.bin")?, guest.to_vec(alloc)?))?;
    files.push((String::from_str(alloc, "d.txt")?, script.to_vec(alloc)?))?;
    Ok(MemoryStore::new(files, Vec::new(alloc)))
}

// The bytes of a module: hex digits at an address, or a whole file where there is no address.
fn module_of(alloc: Global, address: &str, digits: &str) -> Result<Vec<u8>, Fail> {
    let code = hex_of(alloc, digits)?;
    if address.is_empty() {
        return Ok(code);
    }
    let place = u32::from_str_radix(address, 16).ok().ok_or("no address")?;
    image_at(alloc, place, code.as_slice())
}

/// The same store with the modules of a field, apart by blanks: `m.elf=11000=c3` has its address and its code, `m.elf==c3` is a file of
/// just these bytes, and of `m.elf` alone there is no file.
pub fn store_of(
    alloc: Global,
    version: &str,
    modules: &str,
    guest: &[u8],
    script: &[u8],
) -> Result<MemoryStore, Fail> {
    let mut names = String::new(alloc);
    let mut files = Vec::new(alloc);
    for word in modules.split_whitespace() {
        let (name, rest) = word.split_once('=').unwrap_or((word, ""));
        names.push_str(format!(in alloc; "\"{name}\", ")?.as_str())?;
        if let Some((address, digits)) = rest.split_once('=') {
            files.push((
                String::from_str(alloc, name)?,
                module_of(alloc, address, digits)?,
            ))?;
        }
    }
    store_with(alloc, version, names.as_str(), guest, script, files)
}
