// What a system file holds. Which files are refused, and why first, stands in the rows of `run_tests`.
use std::test::Fail;
use system_file::read_system;

#[test]
fn what_a_file_holds(rt: HostRuntime) -> Result<(), Fail> {
    let text =
        b"# a system\n'version' = 0x1 # one\n\"image\" = '\xC3\xA9.bin'\nguest_memory = 131_072\nreal_time_memory = 0b1_0000_0000_0000_0000\nmodules = [\n  \"m.elf\", # the first\n  'n.elf',\n]\nscript = \"\\u0064.txt\"\n";
    let system = read_system(rt.alloc(), text).ok().ok_or("no system")?;
    assert_eq!(rt; system.version, 1);
    assert_eq!(rt; system.image.as_str(), "é.bin");
    assert_eq!(rt; system.guest_memory, 131_072);
    assert_eq!(rt; system.real_time_memory, 65_536);
    let names = ["m.elf", "n.elf"];
    assert_eq!(rt; system.modules.len(), names.len());
    for (module, name) in system.modules.as_slice().iter().zip(&names) {
        assert_eq!(rt; module.as_str(), *name);
    }
    match &system.script {
        Some(script) => assert_eq!(rt; script.as_str(), "d.txt"),
        None => assert!(rt; false, "no script"),
    }
    Ok(())
}
