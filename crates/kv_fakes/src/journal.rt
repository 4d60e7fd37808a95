ghost use Rattle.std.specs.Prelude.{◌≡◌, [], ◌∷◌, ◌++◌, true, false, List, ℕ, OnOk, OnErr, IfOk};
ghost use Rattle.kv_base.specs.declared.name.FileName.{FileName};
ghost use Rattle.kv_fakes.specs.Past.{after_change, read_after, with_change};
ghost use Rattle.kv_fakes.specs.Crash.{left_after};

use crate::crash::leave;
use crate::file::{File, content_of, cut_file, place_file, write_file};
use crate::past::{Change, ChangeKind};
use kv_base::{Blob, FileName, NoMem};
use std::alloc::Global;
use std::marker::Model;

/// The record of all changes of a disk, beside what they made of it. Contracts see the changes.
#[derive(Drop)]
pub struct Journal {
    changes: Vec<Change>,
    files: Vec<File>,
}

impl Model for Journal {
    ghost use Rattle.std.specs.Prelude.{List};
    ghost use Rattle.kv_fakes.specs.declared.past.Change.{Change};
    ghost use Rattle.kv_fakes.specs.Content.{Presents};

    ghost Value = { List Change };

    ghost view = { λ r. r.changes.items };

    ghost invariant = { λ r. Presents r.files.items r.changes.items };
}

impl Journal {
    /// No change, and no file.
    pub fn new(alloc: Global) -> Journal
        ensures { result ≡ [] }
    {
        Journal {
            changes: Vec::new(alloc),
            files: Vec::new(alloc),
        }
    }

    /// What a file reads as.
    pub fn bytes(&self, name: FileName) -> &[u8]
        ensures { result.now ≡ read_after self.now name [] }
    {
        content_of(&self.files, name)
    }

    /// Adds a change that leaves the bytes of its file as they are.
    pub fn note(&mut self, name: FileName, kind: ChangeKind) -> Result<(), NoMem>
        requires { (old : List ℕ) → after_change kind old ≡ old }
        ensures ok { OnOk result (self.new ≡ with_change self.old name kind) }
        ensures err { OnErr result (self.new ≡ self.old) }
    {
        self.changes.push(Change { name, kind })?;
        Ok(())
    }

    /// Writes to a file.
    pub fn write(
        &mut self,
        alloc: Global,
        name: FileName,
        at: u64,
        piece: &[u8],
    ) -> Result<(), NoMem>
        ensures ok { OnOk result (self.new ≡ with_change self.old name (ChangeKind.Written at piece.now true)) }
        ensures err { OnErr result (self.new ≡ self.old) }
    {
        let bytes = Blob::copy(alloc, piece)?;
        let done = true;
        let kind = ChangeKind::Written { at, bytes, done };
        self.changes.push(Change { name, kind })?;
        match write_file(alloc, &mut self.files, name, at as usize, piece) {
            Ok(()) => Ok(()),
            Err(error) => {
                let _ = self.changes.pop();
                Err(error)
            }
        }
    }

    /// Cuts a file.
    pub fn cut(&mut self, name: FileName, len: u64) -> Result<(), NoMem>
        ensures ok { OnOk result (self.new ≡ with_change self.old name (ChangeKind.Cut len true)) }
        ensures err { OnErr result (self.new ≡ self.old) }
    {
        let kind = ChangeKind::Cut { len, done: true };
        self.changes.push(Change { name, kind })?;
        cut_file(&mut self.files, name, len as usize);
        Ok(())
    }

    /// Takes a file away.
    pub fn remove(&mut self, name: FileName) -> Result<(), NoMem>
        ensures ok { OnOk result (self.new ≡ with_change self.old name ChangeKind.Gone) }
        ensures err { OnErr result (self.new ≡ self.old) }
    {
        let kind = ChangeKind::Gone;
        self.changes.push(Change { name, kind })?;
        cut_file(&mut self.files, name, 0);
        Ok(())
    }

    /// Puts a file there, durable.
    pub fn place(&mut self, alloc: Global, name: FileName, bytes: Blob) -> Result<(), NoMem>
        ensures ok { OnOk result (self.new ≡ with_change self.old name (ChangeKind.Placed bytes)) }
        ensures err { OnErr result (self.new ≡ self.old) }
    {
        let copy = Vec::from_slice(alloc, bytes.bytes())?;
        let kind = ChangeKind::Placed { bytes };
        self.changes.push(Change { name, kind })?;
        match place_file(alloc, &mut self.files, name, copy) {
            Ok(()) => Ok(()),
            Err(error) => {
                let _ = self.changes.pop();
                Err(error)
            }
        }
    }

    /// What a crash leaves, chosen by the number: a record that puts each file there, durable.
    pub fn crash(&self, alloc: Global, choice: u64) -> Result<Journal, NoMem>
        ensures { IfOk result (λ left. (name : FileName) → read_after left name [] ≡ left_after self.now choice name []) }
    {
        let mut files = leave(alloc, &self.changes, choice)?;
        let mut record = Journal::new(alloc);
        while let Some(file) = files.pop() {
            record.place(alloc, file.name, Blob::from_vec(file.bytes))?;
        }
        Ok(record)
    }
}
