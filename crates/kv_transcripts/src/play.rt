//! Plays a run over an outside in memory, and compares what came of it.

ghost use Rattle.std.specs.Prelude.{◌≡◌, ◌↔◌, take, drop, Contains, IsTrue, IsNone, IfOk};
ghost use Rattle.kv_fakes.specs.MemDisk.{changes_of};
ghost use Rattle.kv_transcripts.specs.Agreement.{AsWanted, Ends, HasContent, Hold, IsWith};

use crate::fault::Fault;
use crate::run::{Begin, Content, Run, Setting, Talk, Wanted};
use kv_base::Blob;
use kv_fakes::{Calls, MemClock, MemDisk, MemSink, MemSource};
use kv_server::top_script;
use std::alloc::{AllocError, Global};

/// How a run ended, and what it wrote.
#[derive(Drop)]
struct Ending {
    status: u8,
    sink: MemSink,
}

/// Plays a run over the files that the run before left, and tells where it disagrees with what is wanted.
pub fn play(alloc: Global, run: Run, files: &mut MemDisk) -> Result<Option<String>, Fault> {
    let Run {
        setting,
        talk,
        wanted,
    } = run;
    set(alloc, &setting, files)?;
    let contents = wanted_contents(alloc, &wanted.records, files)?;
    let ending = speak(alloc, talk, files);
    Ok(disagreement(alloc, &wanted, &contents, &ending, files)?)
}

/// Makes the files of the run before those of the next one.
fn set(alloc: Global, setting: &Setting, files: &mut MemDisk) -> Result<(), Fault> {
    if setting.begin != Begin::Empty && !setting.fails.is_empty() {
        return Err(Fault::LaterCalls);
    }
    match setting.begin {
        Begin::Empty => {
            let fails = Calls::from_slice(alloc, setting.fails.as_slice())?;
            *files = MemDisk::new(alloc, fails);
        }
        Begin::Again => {}
        Begin::Crash(choice) => *files = files.crash(choice)?,
    }
    for put in &setting.puts {
        files.put(put.name, Blob::copy(alloc, &put.bytes)?)?;
    }
    for cut in &setting.cuts {
        let front = Blob::copy(alloc, front_of(files.bytes(cut.name), cut.length))?;
        files.put(cut.name, front)?;
    }
    Ok(())
}

/// The first bytes, as many as there are at most.
fn front_of(bytes: &[u8], length: u64) -> &[u8]
    ensures { result.now ≡ take length bytes.now }
{
    if length < bytes.len() as u64 {
        let (front, _) = bytes.split_at(length as usize);
        return front;
    }
    bytes
}

/// What the files are to hold afterwards, where these records are added to them.
fn wanted_contents(
    alloc: Global,
    records: &[Content],
    files: &MemDisk,
) -> Result<Vec<Content>, AllocError> {
    let mut contents = Vec::new(alloc);
    for added in records {
        contents.push(with_records(alloc, added, files)?)?;
    }
    Ok(contents)
}

/// What a file holds with records in the place of its last byte.
fn with_records(alloc: Global, added: &Content, files: &MemDisk) -> Result<Content, AllocError>
    ensures { IfOk result (λ content. IsWith (changes_of files.now) added.now content) }
{
    let before = files.bytes(added.name);
    let front = front_of(before, before.len().saturating_sub(1) as u64);
    let mut bytes = Vec::from_slice(alloc, front)?;
    bytes.extend_from_slice(&added.bytes)?;
    Ok(Content {
        name: added.name,
        bytes,
    })
}

/// Runs the program.
fn speak(alloc: Global, talk: Talk, files: &mut MemDisk) -> Ending {
    let Talk {
        words,
        mut input,
        end,
        pieces,
        reads,
        writes,
        readings,
    } = talk;
    if let Some(end) = end {
        let end = end.min(input.len() as u64);
        input.truncate(end as usize);
    }
    let mut source = MemSource::new(Blob::from_vec(input), pieces, reads);
    let mut sink = MemSink::new(alloc, writes);
    let mut clock = MemClock::new(readings);
    let status = top_script(alloc, &words, &mut source, &mut sink, files, &mut clock);
    Ending { status, sink }
}

/// Where a run came to something else than is wanted.
fn disagreement(
    alloc: Global,
    wanted: &Wanted,
    contents: &[Content],
    ending: &Ending,
    files: &MemDisk,
) -> Result<Option<String>, AllocError>
    ensures { IfOk result (λ finding. IsNone finding ↔ AsWanted wanted.now contents.now ending.now (changes_of files.now)) }
{
    match disagreeing_ending(alloc, wanted, ending)? {
        Some(finding) => Ok(Some(finding)),
        None => disagreeing_file(alloc, contents, files),
    }
}

/// How the ending differs from those that are wanted.
fn disagreeing_ending(
    alloc: Global,
    wanted: &Wanted,
    ending: &Ending,
) -> Result<Option<String>, AllocError>
    ensures { IfOk result (λ finding. IsNone finding ↔ Ends wanted.now ending.now) }
{
    let status = ending.status;
    let found = ending.sink.bytes();
    if !is_status(wanted.statuses.as_slice(), status) {
        let excerpt = excerpt(found, 0).escape_ascii();
        let finding = format!(in alloc; "status {status}, output: {excerpt}")?;
        return Ok(Some(finding));
    }
    let outputs = wanted.outputs.as_slice();
    if is_output(outputs, found) {
        return Ok(None);
    }
    Ok(Some(output_finding(alloc, outputs, found)?))
}

/// Is this one of the statuses that are wanted?
fn is_status(wanted: &[u64], status: u8) -> bool
    ensures { IsTrue result ↔ Contains wanted.now status }
{
    wanted.contains(&(status as u64))
}

/// Is this one of the outputs that are wanted?
fn is_output(wanted: &[Blob], found: &[u8]) -> bool
    ensures { IsTrue result ↔ Contains wanted.now found.now }
{
    wanted.iter().any(|output| output.bytes() == found)
}

/// How an output differs from the first of those that are wanted.
fn output_finding(alloc: Global, wanted: &[Blob], found: &[u8]) -> Result<String, AllocError> {
    match wanted.first() {
        Some(output) => difference(alloc, "output", found, output.bytes()),
        None => format!(in alloc; "an output where none is wanted"),
    }
}

/// How a file differs from what it is to hold, where one does.
fn disagreeing_file(
    alloc: Global,
    contents: &[Content],
    files: &MemDisk,
) -> Result<Option<String>, AllocError>
    ensures { IfOk result (λ finding. IsNone finding ↔ Hold (changes_of files.now) contents.now) }
{
    match contents.iter().find(|content| !is_held(content, files)) {
        Some(content) => {
            let found = files.bytes(content.name);
            Ok(Some(difference(alloc, "file", found, &content.bytes)?))
        }
        None => Ok(None),
    }
}

/// Does the file hold this content?
fn is_held(content: &Content, files: &MemDisk) -> bool
    ensures { IsTrue result ↔ HasContent (changes_of files.now) content.now }
{
    files.bytes(content.name) == content.bytes.as_slice()
}

/// Where two texts part, and how they go on there.
fn difference(
    alloc: Global,
    what: &str,
    found: &[u8],
    wanted: &[u8],
) -> Result<String, AllocError> {
    let place = found.iter().zip(wanted).take_while(|(a, b)| a == b).count();
    let found = excerpt(found, place).escape_ascii();
    let wanted = excerpt(wanted, place).escape_ascii();
    format!(in alloc; "{what} from {place} on: {found}, wanted: {wanted}")
}

/// Up to 100 bytes from a place on.
fn excerpt(bytes: &[u8], place: usize) -> &[u8]
    ensures { result.now ≡ take 100 (drop place bytes.now) }
{
    let (_, rest) = bytes.split_at(place.min(bytes.len()));
    front_of(rest, 100)
}
