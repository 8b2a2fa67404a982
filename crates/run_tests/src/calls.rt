// Calls of the top call over the store and the sink in memory, and the fields of rows.
use outside_io::{MemorySink, MemoryStore};
use rtlinux_top::{Code, Device, Last, Status, rtlinux};
use std::alloc::Global;
use std::test::Fail;

/// The field at this place of a row.
pub fn field(row: &str, place: usize) -> Result<&str, Fail> {
    Ok(row.split(" | ").nth(place).ok_or("no such field")?)
}

/// The bytes of a field of text: a character is a byte, `;` stands for the end of a line, and `-` alone is no byte.
pub fn bytes_of(alloc: Global, text: &str) -> Result<Vec<u8>, Fail> {
    let mut bytes = Vec::new(alloc);
    if text != "-" {
        for letter in text.chars() {
            let byte = u8::try_from(u32::from(letter)).ok().ok_or("no byte")?;
            bytes.push(if byte == b';' { b'\n' } else { byte })?;
        }
    }
    Ok(bytes)
}

/// The bytes of a field of hex digits, where `-` alone is no byte.
pub fn hex_of(alloc: Global, digits: &str) -> Result<Vec<u8>, Fail> {
    if digits == "-" {
        return Ok(Vec::new(alloc));
    }
    Ok(hex::decode(alloc, digits).ok().ok_or("no hex")?)
}

// The words of a field, apart by blanks: '' is an empty word, and `-` alone is no word.
fn words_of(alloc: Global, text: &str) -> Result<Vec<String>, Fail> {
    let mut list = Vec::new(alloc);
    for word in text.split_whitespace() {
        if text != "-" {
            list.push(String::from_str(alloc, if word == "''" { "" } else { word })?)?;
        }
    }
    Ok(list)
}

fn code_of(text: &str) -> Result<Status, Fail> {
    let (number, part) = text.split_once('.').unwrap_or((text, "0"));
    Ok(Status::Refused(Code {
        number: number.parse::<u8>().ok().ok_or("no number")?,
        part: part.parse::<u8>().ok().ok_or("no part")?,
    }))
}

// The status of a field: a word, or the number of a refusal, as in 20.1.
fn status_of(text: &str) -> Result<Status, Fail> {
    match text {
        "done" => Ok(Status::Done),
        "breach" => Ok(Status::Breach),
        "fault" => Ok(Status::RtFault),
        "usage" => Ok(Status::Usage),
        "read" => Ok(Status::Outside(Device::Read)),
        "write" => Ok(Status::Outside(Device::Write)),
        _ => code_of(text),
    }
}

/// The files of a store: their names and bytes.
pub type Files<'a> = &'a [(&'a str, &'a [u8])];

/// What fails of a store and of a sink: which fetches, and which puts, each with how many of its bytes are taken.
#[derive(Drop)]
pub struct Failing<'a> {
    pub fetches: &'a [u32],
    pub puts: &'a [(u32, u32)],
}

/// A store and a sink of which nothing fails.
pub static NOTHING: Failing = Failing {
    fetches: &[],
    puts: &[],
};

fn store_of(alloc: Global, files: Files, failing: &[u32]) -> Result<MemoryStore, Fail> {
    let mut held = Vec::new(alloc);
    for (name, bytes) in files {
        held.push((String::from_str(alloc, *name)?, bytes.to_vec(alloc)?))?;
    }
    Ok(MemoryStore::new(held, failing.to_vec(alloc)?))
}

/// What a call came to: its status, whether it kept a machine, and the sink with what it wrote.
#[derive(Drop)]
pub struct Answer {
    pub status: Status,
    pub kept: bool,
    pub sink: MemorySink,
}

/// What these words come to over a store and a sink of so much room, of which these puts fail.
pub fn answer_of(
    alloc: Global,
    words: &str,
    mut store: MemoryStore,
    room: usize,
    puts: &[(u32, u32)],
) -> Result<Answer, Fail> {
    let mut sink = MemorySink::new(alloc, room, puts.to_vec(alloc)?)
        .ok()
        .ok_or("no sink")?;
    let mut last = Last::Nothing;
    let status = rtlinux(
        alloc,
        &words_of(alloc, words)?,
        &mut store,
        &mut sink,
        &mut last,
    );
    let kept = matches!(last, Last::Ran(_));
    Ok(Answer { status, kept, sink })
}

/// Has an answer this status and this output? The machine is kept where the ticks ran.
pub fn has_come(alloc: Global, answer: &Answer, status: &str, output: &str) -> Result<bool, Fail> {
    let ran = matches!(
        answer.status,
        Status::Done | Status::Breach | Status::RtFault
    );
    Ok(
        answer.status == status_of(status)?
            && answer.sink.written() == bytes_of(alloc, output)?.as_slice()
            && answer.kept == ran,
    )
}

/// Are these the status and the output for these words and files? The machine is kept where the ticks ran.
pub fn answers_failing(
    alloc: Global,
    failing: &Failing,
    words: &str,
    files: Files,
    status: &str,
    output: &str,
) -> Result<bool, Fail> {
    let store = store_of(alloc, files, failing.fetches)?;
    let answer = answer_of(alloc, words, store, 4000, failing.puts)?;
    has_come(alloc, &answer, status, output)
}

/// The same where nothing fails.
pub fn answers(
    alloc: Global,
    words: &str,
    files: Files,
    status: &str,
    output: &str,
) -> Result<bool, Fail> {
    answers_failing(alloc, &NOTHING, words, files, status, output)
}
