ghost use Rattle.std.specs.Prelude.{◌≡◌, ◌≤◌, ◌<◌, ◌+◌, [], ◌∷◌, ◌++◌, true, false, List, ℕ, length, Some, IfOk, OnOk, OnErr, IfSome};
ghost use Rattle.kv_outside.specs.Causes.{HasCause};
ghost use Rattle.kv_outside.specs.Disk.{Agrees, IsDurable, CrashLeaves, Touches};
ghost use Rattle.gated_log.specs.Gated.{records, EndsAt, HasShutGate, HasRecordsOrNone, HasRecordsOrOneMore};
ghost use Rattle.gated_log.specs.States.{Rests, Wavers, IsLeft, Tells, TellsTried, TellsLeft};

use crate::steps::{OPEN, SHUT, close_end, close_first, open_empty, open_synced, store};
use kv_base::FileName;
use kv_outside::{Failed, Files};
use record_body::RecordBody;
use std::marker::Model;

/// A gated file that is open for appending.
#[derive(Drop)]
pub struct GatedLog<F: Files> {
    log: F::Log,
    /// The place of the gate behind the last record.
    end: u64,
    /// That gate may stand open.
    unsure: bool,
}

impl<F: Files> Model for GatedLog<F> {
    ghost use Rattle.gated_log.specs.States.{LogState, HasGate};

    ghost Value = { LogState };

    ghost view = { λ g. record { name = F.name_of g.log; held = F.bytes_of g.log; end = g.end; unsure = g.unsure } };

    ghost invariant = { λ g. HasGate g.end (F.bytes_of g.log) };
}

impl<F: Files> GatedLog<F> {
    /// Makes the file anew, without a record: the one byte 00, synced.
    ///
    /// Where no crash could leave more than one byte of the file, none leaves a record of it at any moment of the call.
    pub fn create(files: &mut F, name: FileName) -> Result<Self, Failed>
        ensures made { IfOk result (λ log. Rests (F.disk files.new) log []) }
        ensures told { IfOk result (λ log. Tells log []) }
        ensures bytes { IfOk result (λ log. IfSome log.held (λ c. c ≡ 0 ∷ [])) }
        ensures end { IfOk result (λ log. log.end ≡ 0) }
        ensures sure { IfOk result (λ log. log.unsure ≡ false) }
        ensures name { IfOk result (λ log. log.name ≡ name) }
        ensures any_moment { CrashLeaves (F.disk files.old) name (λ c. length c ≤ 1)
            → Touches name (F.disk files.old) (F.disk files.new) (λ c. (length c ≤ 1) × (records c ≡ [])) }
        ensures cause { HasCause (F.faults files.old) (F.faults files.new) result }
    {
        let mut log = open_empty(files, name)?;
        store(files, &mut log, 0, &[SHUT])?;
        Ok(GatedLog {
            log,
            end: 0,
            unsure: false,
        })
    }

    /// Opens the file again for appending behind its records, whose end is told: it syncs the file, and where the byte
    /// at the end is 01 or not there it writes 00 there and syncs again. So what a crash left of an append that was cut
    /// off lies behind a closed gate before the next one is written over it.
    ///
    /// The file is opened anew. Where the log tells its bytes though the disk does not, those before its end are the
    /// file's, and it has the records that they are.
    pub fn resume(files: &mut F, name: FileName, end: u64) -> Result<Self, Failed>
        // What the log tells agrees with the disk, a crash leaves it, and the gate at its end is not open.
        ensures agrees { IfOk result (λ log. Agrees (F.disk files.new) name log.held) }
        ensures durable { IfOk result (λ log. IsDurable (F.disk files.new) name log.held) }
        ensures shut { IfOk result (λ log. IfSome log.held (HasShutGate log.end)) }
        // Records that the disk tells up to this end are what the log tells.
        ensures told { IfOk result (λ log. (bodies : List (List ℕ)) (bytes : List ℕ)
            → (F.disk files.old).reads name ≡ Some bytes → EndsAt end bodies bytes → Tells log bodies) }
        // Records that each crash leaves up to this end are what it leaves from then on.
        ensures rests { IfOk result (λ log. (bodies : List (List ℕ))
            → CrashLeaves (F.disk files.old) name (EndsAt end bodies) → Rests (F.disk files.new) log bodies) }
        ensures end { IfOk result (λ log. log.end ≤ end) }
        ensures sure { IfOk result (λ log. log.unsure ≡ false) }
        ensures name { IfOk result (λ log. log.name ≡ name) }
        ensures any_moment { (bodies : List (List ℕ)) → CrashLeaves (F.disk files.old) name (EndsAt end bodies)
            → Touches name (F.disk files.old) (F.disk files.new) (EndsAt end bodies) }
        ensures cause { HasCause (F.faults files.old) (F.faults files.new) result }
    {
        let mut log = open_synced(files, name)?;
        let end = close_end(files, &mut log, end)?;
        Ok(GatedLog {
            log,
            end,
            unsure: false,
        })
    }

    /// Opens the file again without its records, for appending from its start on: it syncs the file, and where the byte at
    /// 0 is 01 or not there it writes 00 there and syncs again.
    pub fn reset(files: &mut F, name: FileName) -> Result<Self, Failed>
        ensures rests { IfOk result (λ log. Rests (F.disk files.new) log []) }
        ensures told { IfOk result (λ log. Tells log []) }
        ensures end { IfOk result (λ log. log.end ≡ 0) }
        ensures sure { IfOk result (λ log. log.unsure ≡ false) }
        ensures name { IfOk result (λ log. log.name ≡ name) }
        // At every moment of the call each image has the records from before it, or none.
        ensures any_moment { (bodies : List (List ℕ)) → CrashLeaves (F.disk files.old) name (λ c. records c ≡ bodies)
            → Touches name (F.disk files.old) (F.disk files.new) (HasRecordsOrNone bodies) }
        ensures cause { HasCause (F.faults files.old) (F.faults files.new) result }
    {
        let mut log = open_synced(files, name)?;
        close_first(files, &mut log)?;
        Ok(GatedLog {
            log,
            end: 0,
            unsure: false,
        })
    }

    /// Adds a record. At `Ok` it is there, and from then on each crash leaves a file that has it.
    ///
    /// At `Failed` nothing was added. Where its gate was tried the log is unsure: a crash may leave the record too, and
    /// the gate has to be closed by `mend` before the next append.
    pub fn append(&mut self, files: &mut F, body: &RecordBody) -> Result<(), Failed>
        requires { self.old.unsure ≡ false }
        ensures added { OnOk result ((bodies : List (List ℕ)) → Rests (F.disk files.old) self.old bodies
            → Rests (F.disk files.new) self.new (bodies ++ body.now ∷ [])) }
        ensures told { OnOk result ((bodies : List (List ℕ)) → Tells self.old bodies
            → Tells self.new (bodies ++ body.now ∷ [])) }
        ensures sure { OnOk result (self.new.unsure ≡ false) }
        ensures end { OnOk result (self.new.end ≡ self.old.end + 5 + length body.now) }
        ensures not_added { OnErr result ((bodies : List (List ℕ)) → Rests (F.disk files.old) self.old bodies
            → IsLeft self.new.unsure (F.disk files.new) self.new bodies body.now) }
        ensures told_left { OnErr result ((bodies : List (List ℕ)) → Tells self.old bodies
            → TellsLeft self.new.unsure self.new bodies body.now) }
        ensures end_stays { OnErr result (self.new.end ≡ self.old.end) }
        ensures name { self.new.name ≡ self.old.name }

        // At every moment of the call each image has the records from before it, or those and this one.
        ensures any_moment { (bodies : List (List ℕ)) → Rests (F.disk files.old) self.old bodies
            → Touches self.old.name (F.disk files.old) (F.disk files.new) (HasRecordsOrOneMore bodies body.now) }
        // Where the gate was not tried, no image has this one.
        ensures not_tried { OnErr result (self.new.unsure ≡ false → (bodies : List (List ℕ)) → Rests (F.disk files.old) self.old bodies
            → Touches self.old.name (F.disk files.old) (F.disk files.new) (λ c. records c ≡ bodies)) }
        ensures cause { HasCause (F.faults files.old) (F.faults files.new) result }
    {
        let framed = body.framed();
        store(files, &mut self.log, self.end + 1, framed)?;
        self.unsure = true;
        store(files, &mut self.log, self.end, &[OPEN])?;
        self.unsure = false;
        self.end += framed.len() as u64;
        Ok(())
    }

    /// Closes the gate of an append that failed, and syncs. At `Failed` the log stays unsure. Where it is not unsure,
    /// no call is made.
    pub fn mend(&mut self, files: &mut F) -> Result<(), Failed>
        ensures idle { self.old.unsure ≡ false → (files.new ≡ files.old) × (self.new ≡ self.old) }
        ensures mended { OnOk result ((bodies : List (List ℕ)) (body : List ℕ)
            → IsLeft self.old.unsure (F.disk files.old) self.old bodies body → Rests (F.disk files.new) self.new bodies) }
        ensures told { OnOk result ((bodies : List (List ℕ)) (body : List ℕ)
            → TellsLeft self.old.unsure self.old bodies body → Tells self.new bodies) }
        ensures sure { OnOk result (self.new.unsure ≡ false) }
        ensures not_mended { OnErr result ((bodies : List (List ℕ)) (body : List ℕ)
            → IsLeft self.old.unsure (F.disk files.old) self.old bodies body → Wavers (F.disk files.new) self.new bodies body) }
        ensures told_left { OnErr result ((bodies : List (List ℕ)) (body : List ℕ)
            → TellsLeft self.old.unsure self.old bodies body → TellsTried self.new bodies body) }
        ensures unsure { OnErr result (self.new.unsure ≡ true) }
        ensures end { self.new.end ≡ self.old.end }
        ensures name { self.new.name ≡ self.old.name }

        // At every moment of the call each image has the records, or those and the one that was tried.
        ensures any_moment { (bodies : List (List ℕ)) (body : List ℕ)
            → IsLeft self.old.unsure (F.disk files.old) self.old bodies body
            → Touches self.old.name (F.disk files.old) (F.disk files.new) (HasRecordsOrOneMore bodies body) }
        ensures cause { HasCause (F.faults files.old) (F.faults files.new) result }
    {
        if self.unsure {
            store(files, &mut self.log, self.end, &[SHUT])?;
            self.unsure = false;
        }
        Ok(())
    }

    /// May the gate behind the last record stand open?
    pub fn unsure(&self) -> bool
        ensures { result ≡ self.now.unsure }
    {
        self.unsure
    }

    /// The place of the gate behind the last record, in bytes.
    pub fn end(&self) -> u64
        ensures { result ≡ self.now.end }
    {
        self.end
    }
}
