// The system that is made of the number 3 for 3999 ticks. Its draws were computed from their definition apart from this program: the first
// thread has priority 148, period 289 and work 7, the guest's period is 1395, and the script has three events.
use device_script::Event;
use make_request::request_make;
use run_files::{AcceptedRun, Cause, Refusal, Report, Shown};
use std::alloc::Global;
use std::test::Fail;

fn request_of(alloc: Global, line: &str) -> Result<Result<AcceptedRun, Refusal>, Fail> {
    let mut words = Vec::new(alloc);
    for word in line.split(' ') {
        words.push(String::from_str(alloc, word)?)?;
    }
    Ok(request_make(alloc, words.as_slice()))
}

#[test]
fn ample_memory_has_the_system_of_a_number(rt: HostRuntime) -> Result<(), Fail> {
    let run = request_of(rt.alloc(), "3 --ticks 3999")?
        .ok()
        .ok_or("no run")?;
    assert_eq!(rt; run.ticks, 3999);
    assert_eq!(rt; run.version, 1);
    assert_eq!(rt; run.shown, Shown::Both);
    assert_eq!(rt; run.report, Report::Summary(3));
    assert_eq!(rt; run.inits.as_slice(), [0x0010_1000].as_slice());
    assert_eq!(rt;
        run.script.events.as_slice(),
        [
            (1819, Event::Com1(216)),
            (2687, Event::Com1(28)),
            (3890, Event::Line(5)),
        ]
        .as_slice()
    );
    Ok(())
}

#[test]
fn guest_and_module_stand_on_their_sides(rt: HostRuntime) -> Result<(), Fail> {
    let run = request_of(rt.alloc(), "3 --ticks 3999")?
        .ok()
        .ok_or("no run")?;
    let guest = run.sides.memory.guest_bytes();
    assert_eq!(rt; guest.len(), 1_048_576);
    assert_eq!(rt; run.sides.entry, 0x1000);
    assert_eq!(rt;
        &guest[0x0FFF..0x1006],
        b"\x00\xB8\x01\x00\x00\x00\xBB".as_slice()
    );
    // The timer's period is in EBX behind 26 bytes.
    assert_eq!(rt;
        &guest[0x101A..0x1025],
        b"\xB8\x03\x00\x00\x00\xBB\x73\x05\x00\x00\xCD".as_slice()
    );
    assert_eq!(rt;
        &guest[0x3170..0x3179],
        b"\x00\x11\x08\x00\x00\x8E\x00\x00\x00".as_slice()
    );
    let module = run.sides.memory.real_time_bytes();
    assert_eq!(rt; module.len(), 262_144);
    assert_eq!(rt; &module[..3], b"\xCD\xF9\x00".as_slice());
    // The first thread has its priority in ECX, its stack's end in EDX and its work in ESI.
    assert_eq!(rt;
        &module[0x1000..0x101B],
        b"\xB8\x02\x00\x00\x00\xBB\x71\x11\x10\x00\xB9\x94\x00\x00\x00\xBA\x00\x10\x12\x00\xBE\x07\x00\x00\x00\xCD\xF8".as_slice()
    );
    Ok(())
}

#[test]
fn words_and_ticks_are_refused(rt: HostRuntime) -> Result<(), Fail> {
    let rows = [
        ("3", Cause::Words),
        ("x --ticks 1", Cause::Words),
        ("4294967296 --ticks 1", Cause::Words),
        ("3 --ticks 0", Cause::Ticks),
        ("3 --ticks 1000000001", Cause::Ticks),
    ];
    for (line, cause) in rows {
        let is_refused = match request_of(rt.alloc(), line)? {
            Err(Refusal::Because(why, _)) => why == cause,
            _ => false,
        };
        assert!(rt; is_refused, "{line}");
    }
    Ok(())
}
