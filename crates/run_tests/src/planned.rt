// Periodic threads by their plan: the module that creates them, and its real-time lines by the arithmetic of periods, priorities and work,
// where no thread is still at work when its next due comes.
use crate::module_files::image_at;
use std::alloc::Global;
use std::test::Fail;

/// A periodic thread: its priority, how often it counts down each time, its first due and its period in ticks.
#[derive(Clone, Copy)]
pub struct Planned {
    pub priority: u32,
    pub turns: u32,
    pub start: u32,
    pub period: u32,
}

/// Where the module stands.
const MODULE: u32 = 0x1_1000;

/// Where its threads start, behind a jump.
const WORK: u32 = 0x1_1002;

/// Where the stack of the first thread ends; each next one ends 16 bytes later.
const STACKS: u32 = 0x1_4000;

/// A jump over the work of a thread, and this work: it counts ECX down from what it began with in EAX, and waits for its next period.
static BEGINNING: [u8; 18] = [
    0xeb, 0x10, // jmp init
    0x89, 0xc7, // mov edi, eax
    0x89, 0xf9, // again: mov ecx, edi
    0x49, // count: dec ecx
    0x75, 0xfd, // jnz count
    0xb8, 7, 0, 0, 0, // mov eax, 7
    0xcd, 0xf8, // int 0F8h
    0xeb, 0xf2, // jmp again
];

// The registers, as opcodes that give them a value.
const EAX: u8 = 0xb8;

const ECX: u8 = 0xb9;

const EDX: u8 = 0xba;

const EBX: u8 = 0xbb;

const ESI: u8 = 0xbe;

// A gate with these registers: an instruction for each of them, and one for the gate.
fn gate(code: &mut Vec<u8>, registers: &[(u8, u32)]) -> Result<(), Fail> {
    for (register, value) in registers {
        code.push(*register)?;
        code.extend_from_slice(&value.to_le_bytes())?;
    }
    code.extend_from_slice(&[0xcd, 0xf8])?;
    Ok(())
}

// Where the stack of a thread ends.
fn stack(number: u32) -> u32 {
    STACKS.wrapping_add(number.wrapping_mul(16))
}

/// The module that creates these threads, and makes each periodic. It then asks for one thread more where all numbers are taken.
pub fn module_of(alloc: Global, plan: &[Planned]) -> Result<Vec<u8>, Fail> {
    let mut code = BEGINNING.to_vec(alloc)?;
    let mut number = 0u32;
    for thread in plan {
        gate(
            &mut code,
            &[
                (EAX, 2),
                (EBX, WORK),
                (ECX, thread.priority),
                (EDX, stack(number)),
                (ESI, thread.turns),
            ],
        )?;
        gate(
            &mut code,
            &[
                (EAX, 6),
                (EBX, number),
                (ECX, thread.start),
                (EDX, thread.period),
            ],
        )?;
        number = number.wrapping_add(1);
    }
    if number == 64 {
        gate(
            &mut code,
            &[(EAX, 2), (EBX, WORK), (ECX, 0), (EDX, stack(number))],
        )?;
    }
    code.push(0xc3)?;
    image_at(alloc, MODULE, code.as_slice())
}

/// Lines that are written, by their ticks.
#[derive(Drop)]
pub struct Expected {
    alloc: Global,
    pub text: String,
}

impl Expected {
    pub fn new(alloc: Global) -> Expected {
        Expected {
            alloc,
            text: String::new(alloc),
        }
    }

    // Adds a line.
    fn line(&mut self, tick: u32, words: &str) -> Result<(), Fail> {
        let line = format!(in self.alloc; "R {tick} {words}\n")?;
        Ok(self.text.push_str(line.as_str())?)
    }
}

// Adds the line of a gate.
fn gate_line(
    lines: &mut Expected,
    tick: u32,
    function: u32,
    registers: [u32; 4],
    answer: i32,
) -> Result<(), Fail> {
    let [b, c, d, s] = registers;
    let words = format!(in lines.alloc;
        "gate {function} {b:08x} {c:08x} {d:08x} {s:08x} {answer}"
    )?;
    lines.line(tick, words.as_str())
}

// Adds the lines of the init, and gives its last tick: a jump, then eleven ticks for each thread, five for one thread more than there
// may be, and two to return.
fn init_lines(lines: &mut Expected, plan: &[Planned]) -> Result<u32, Fail> {
    lines.line(1, "on init 0")?;
    let mut tick = 1u32;
    let mut number = 0u32;
    let mut turns = 0;
    for thread in plan {
        let made = [WORK, thread.priority, stack(number), thread.turns];
        let timed = [number, thread.start, thread.period, thread.turns];
        gate_line(
            lines,
            tick.wrapping_add(6),
            2,
            made,
            i32::try_from(number).ok().ok_or("no number")?,
        )?;
        gate_line(lines, tick.wrapping_add(11), 6, timed, 0)?;
        tick = tick.wrapping_add(11);
        number = number.wrapping_add(1);
        turns = thread.turns;
    }
    if number == 64 {
        tick = tick.wrapping_add(5);
        gate_line(lines, tick, 2, [WORK, 0, stack(number), turns], -11)?;
    }
    tick = tick.wrapping_add(2);
    lines.line(tick, "ret")?;
    Ok(tick)
}

// A thread on its way: its next due, the ticks of work that are left where it is ready, and when it became ready.
#[derive(Clone, Copy)]
struct Followed {
    plan: Planned,
    next: u32,
    left: u32,
    since: u32,
}

// Of ready threads the greatest priority goes first, and of equal ones the one that has been ready for longest, by number in one tick.
fn first_of(threads: &[Followed]) -> Option<usize> {
    let mut first: Option<(usize, Followed)> = None;
    for (number, thread) in threads.iter().enumerate() {
        let goes_first = match first {
            None => true,
            Some((_, other)) => {
                thread.plan.priority > other.plan.priority
                    || thread.plan.priority == other.plan.priority && thread.since < other.since
            }
        };
        if thread.left > 0 && goes_first {
            first = Some((number, *thread));
        }
    }
    first.map(|found| found.0)
}

// What is on the processor between two ticks.
#[derive(Clone, Copy, PartialEq)]
enum On {
    Nothing,
    Guest,
    Thread(usize),
}

// Releases in a tick: a thread whose due has come has its ticks of work to do. These are two for each turn, and four beside.
fn release(lines: &mut Expected, tick: u32, threads: &mut [Followed]) -> Result<(), Fail> {
    for (number, thread) in threads.iter_mut().enumerate() {
        if thread.left == 0 && thread.next == tick {
            thread.left = thread.plan.turns.wrapping_mul(2).wrapping_add(4);
            thread.since = tick;
            let words = format!(in lines.alloc; "release {number}")?;
            lines.line(tick, words.as_str())?;
        }
    }
    Ok(())
}

// Adds the line of what comes on in this tick, where something else was on.
fn on_line(lines: &mut Expected, tick: u32, before: On, on: On) -> Result<(), Fail> {
    if before == on {
        return Ok(());
    }
    match on {
        On::Thread(number) => {
            let words = format!(in lines.alloc; "on thread {number}")?;
            lines.line(tick, words.as_str())
        }
        _ => lines.line(tick, "on guest"),
    }
}

// A tick of work, of which the last one is the gate that waits. Does the thread go on?
fn work(lines: &mut Expected, tick: u32, thread: &mut Followed) -> Result<bool, Fail> {
    thread.left = thread.left.wrapping_sub(1);
    if thread.left == 0 {
        thread.next = thread.next.wrapping_add(thread.plan.period);
        gate_line(lines, tick, 7, [0; 4], 0)?;
    }
    Ok(thread.left > 0)
}

// One tick behind the init, and what is on behind it.
fn follow(
    lines: &mut Expected,
    tick: u32,
    threads: &mut [Followed],
    before: On,
) -> Result<On, Fail> {
    release(lines, tick, threads)?;
    match first_of(threads) {
        None => {
            on_line(lines, tick, before, On::Guest)?;
            Ok(On::Guest)
        }
        Some(number) => {
            on_line(lines, tick, before, On::Thread(number))?;
            let thread = threads.get_mut(number).ok_or("no thread")?;
            let goes_on = work(lines, tick, thread)?;
            Ok(if goes_on {
                On::Thread(number)
            } else {
                On::Nothing
            })
        }
    }
}

/// The real-time lines of so many ticks of this plan, but the digest.
pub fn lines_of(alloc: Global, plan: &[Planned], ticks: u32) -> Result<Expected, Fail> {
    let mut lines = Expected::new(alloc);
    let ret = init_lines(&mut lines, plan)?;
    let mut threads = Vec::new(alloc);
    for thread in plan {
        threads.push(Followed {
            plan: *thread,
            next: thread.start,
            left: 0,
            since: 0,
        })?;
    }
    let mut on = On::Nothing;
    for tick in ret.wrapping_add(1)..ticks.wrapping_add(1) {
        on = follow(&mut lines, tick, threads.as_mut_slice(), on)?;
    }
    let ready = threads.iter().filter(|thread| thread.left > 0).count();
    let words = format!(in alloc; "end {} {ready}", plan.len())?;
    lines.line(ticks, words.as_str())?;
    Ok(lines)
}
