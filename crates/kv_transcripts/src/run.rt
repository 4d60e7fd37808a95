//! One run of the program: what it meets, and what is wanted of it.

use crate::bytes::{push_hex_words, push_text};
use crate::fault::Fault;
use crate::numbers::{number, numbers};
use crate::wire::{push_choices, push_request, quoted};
use kv_base::{Blob, Blobs, FileName, Items, TableId};
use kv_fakes::{Calls, Readings, Sizes};
use std::alloc::Global;

/// How the files are at the beginning of a run.
#[derive(Clone, Copy, Debug, PartialEq, Eq)]
pub enum Begin {
    /// There are none.
    Empty,
    /// As the run before left them.
    Again,
    /// As a crash of this choice leaves them.
    Crash(u64),
}

/// Bytes of a file.
#[derive(Drop)]
pub struct Content {
    pub name: FileName,
    pub bytes: Vec<u8>,
}

/// A length to which a file is cut.
#[derive(Clone, Copy)]
pub struct Cut {
    pub name: FileName,
    pub length: u64,
}

/// What a run must come to.
#[derive(Drop)]
pub struct Wanted {
    /// The statuses that it may end with.
    pub statuses: Items<u64>,
    /// What it may write.
    pub outputs: Blobs,
    /// What it puts in the place of each file's last byte.
    pub records: Vec<Content>,
}

/// How the files are at the beginning of a run, and which calls to them fail.
#[derive(Drop)]
pub struct Setting {
    pub begin: Begin,
    pub puts: Vec<Content>,
    pub cuts: Vec<Cut>,
    pub fails: Calls,
}

/// What is said to the program.
#[derive(Drop)]
pub struct Talk {
    pub words: Vec<String>,
    pub input: Vec<u8>,
    /// After how many bytes the input ends, if not at its end.
    pub end: Option<u64>,
    pub pieces: Sizes,
    pub reads: Calls,
    pub writes: Calls,
    pub readings: Readings,
}

/// A run of the program.
#[derive(Drop)]
pub struct Run {
    pub setting: Setting,
    pub talk: Talk,
    pub wanted: Wanted,
}

impl Run {
    /// A run without requests, which is to end well and write nothing.
    pub fn new(alloc: Global, begin: Begin) -> Result<Run, Fault> {
        let mut outputs = Blobs::new(alloc);
        outputs.push(Blob::from_vec(Vec::new(alloc)))?;
        let words = words_of(alloc, "script --dir d")?;
        Ok(Run {
            setting: Setting {
                begin,
                puts: Vec::new(alloc),
                cuts: Vec::new(alloc),
                fails: Calls::new(alloc),
            },
            talk: Talk {
                words,
                input: Vec::new(alloc),
                end: None,
                pieces: Sizes::new(alloc),
                reads: Calls::new(alloc),
                writes: Calls::new(alloc),
                readings: Readings::new(alloc),
            },
            wanted: Wanted {
                statuses: Items::from_slice(alloc, &[0])?,
                outputs,
                records: Vec::new(alloc),
            },
        })
    }

    /// Reads a line that tells of this run.
    pub fn read(&mut self, alloc: Global, line: &str) -> Result<(), Fault> {
        if line.is_empty() || line.starts_with('#') {
            return Ok(());
        }
        if let Some(text) = line.strip_prefix("@ ") {
            return self.obey(alloc, text);
        }
        self.exchange(alloc, line)
    }

    /// Reads a line of what is sent or answered.
    fn exchange(&mut self, alloc: Global, line: &str) -> Result<(), Fault> {
        if let Some(reply) = line.strip_prefix("< ") {
            return push_choices(alloc, &mut self.wanted.outputs, reply);
        }
        let (reading, text) = line.split_once('>').ok_or(Fault::Line)?;
        if !reading.is_empty() {
            self.talk.readings.push(number(reading)?)?;
        }
        match text.split_once(" => ") {
            Some((sent, reply)) => {
                self.send(alloc, sent)?;
                push_choices(alloc, &mut self.wanted.outputs, reply)
            }
            None => self.send(alloc, text),
        }
    }

    /// Adds a request, or, behind a second `>`, bytes as they are.
    fn send(&mut self, alloc: Global, text: &str) -> Result<(), Fault> {
        match text.strip_prefix("> ") {
            Some(bytes) => push_text(&mut self.talk.input, bytes.trim_end()),
            None => push_request(alloc, &mut self.talk.input, text),
        }
    }

    /// Reads a directive.
    fn obey(&mut self, alloc: Global, text: &str) -> Result<(), Fault> {
        let (name, rest) = text.split_once(' ').unwrap_or((text, ""));
        if name == "words" {
            self.talk.words = words_of(alloc, rest)?;
            return Ok(());
        }
        if name == "end" {
            self.talk.end = Some(number(rest)?);
            return Ok(());
        }
        if name == "status" {
            self.wanted.statuses = numbers(alloc, rest)?;
            return Ok(());
        }
        if name == "pieces" {
            self.talk.pieces = numbers(alloc, rest)?;
            return Ok(());
        }
        let (object, rest) = rest.split_once(' ').ok_or(Fault::Directive)?;
        if name == "times" {
            return self.repeat(alloc, number(object)?, rest);
        }
        if name == "fail" {
            return self.fail(object, numbers(alloc, rest)?);
        }
        self.obey_on_file(alloc, name, file_name(object)?, rest)
    }

    /// Reads an exchange so many times.
    fn repeat(&mut self, alloc: Global, count: u64, line: &str) -> Result<(), Fault> {
        for _ in 0..count {
            self.exchange(alloc, line)?;
        }
        Ok(())
    }

    /// Takes the numbers of the calls that fail.
    fn fail(&mut self, what: &str, calls: Calls) -> Result<(), Fault> {
        if what == "reads" {
            self.talk.reads = calls;
            return Ok(());
        }
        if what == "writes" {
            self.talk.writes = calls;
            return Ok(());
        }
        if what == "files" {
            self.setting.fails = calls;
            return Ok(());
        }
        Err(Fault::Directive)
    }

    /// Reads a directive on a file.
    fn obey_on_file(
        &mut self,
        alloc: Global,
        name: &str,
        file: FileName,
        text: &str,
    ) -> Result<(), Fault> {
        if name == "put" {
            return push_content(alloc, &mut self.setting.puts, file, text);
        }
        if name == "adds" {
            return push_content(alloc, &mut self.wanted.records, file, text);
        }
        if name == "cut" {
            let length = number(text)?;
            self.setting.cuts.push(Cut { name: file, length })?;
            return Ok(());
        }
        Err(Fault::Directive)
    }
}

/// Adds to the bytes of a file.
fn push_content(
    alloc: Global,
    contents: &mut Vec<Content>,
    name: FileName,
    text: &str,
) -> Result<(), Fault> {
    for content in contents.iter_mut() {
        if content.name.is(name) {
            return push_hex_words(alloc, &mut content.bytes, text);
        }
    }
    let mut bytes = Vec::new(alloc);
    push_hex_words(alloc, &mut bytes, text)?;
    contents.push(Content { name, bytes })?;
    Ok(())
}

/// The file of this name: `wal-N`, `slot-a`, `slot-b` or `t-RUN-PART`.
fn file_name(text: &str) -> Result<FileName, Fault> {
    if text == "slot-a" {
        return Ok(FileName::SlotA);
    }
    if text == "slot-b" {
        return Ok(FileName::SlotB);
    }
    if let Some(segment) = text.strip_prefix("wal-") {
        return Ok(FileName::Segment(number(segment)?));
    }
    let table = text.strip_prefix("t-").ok_or(Fault::FileName)?;
    let (run, part) = table.split_once('-').ok_or(Fault::FileName)?;
    Ok(FileName::Table(TableId {
        run: number(run)?,
        part: number(part)?,
    }))
}

/// These words, each as a text.
fn words_of(alloc: Global, text: &str) -> Result<Vec<String>, Fault> {
    let mut words = Vec::new(alloc);
    for word in text.split_whitespace() {
        words.push(String::from_str(alloc, quoted(word).unwrap_or(word))?)?;
    }
    Ok(words)
}
