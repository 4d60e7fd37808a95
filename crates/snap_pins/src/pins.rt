//! Pins, and those who watch a compaction.

ghost use Rattle.std.specs.Prelude.{◌≡◌, [], ◌∷◌, ◌++◌, IfOk, IsNone, OnErr, OnOk, is_some, map};
ghost use Rattle.snap_pins.specs.Pinned.{HaveOwnCallers, pin_among, pin_watcher, pins_without};

use filter_laws::Watcher;
use kv_base::NoMem;
use std::alloc::Global;
use std::marker::Model;

/// A caller that reads the rows up to a sequence as they stand at a moment, in milliseconds since the beginning of 1970.
#[derive(Clone, Copy, Debug, PartialEq, Eq)]
pub struct PinAt {
    pub caller: u32,
    pub seq: u64,
    pub moment: u64,
}

/// The pins of a store, in the order in which they were made: at most one of each caller. Contracts see the list of them.
#[derive(Drop)]
pub struct Pins {
    pins: Vec<PinAt>,
}

impl Model for Pins {
    ghost use Rattle.std.specs.Prelude.{List};
    ghost use Rattle.snap_pins.specs.declared.pins.PinAt.{PinAt};
    ghost use Rattle.snap_pins.specs.Pinned.{HaveOwnCallers};

    ghost Value = { List PinAt };

    ghost view = { λ p. p.pins.items };

    ghost invariant = { λ p. HaveOwnCallers p.pins.items };
}

impl Pins {
    /// No pins, which takes no memory.
    pub fn new(alloc: Global) -> Pins
        ensures { result ≡ [] }
    {
        Pins {
            pins: Vec::new(alloc),
        }
    }

    /// The pin of a caller, where it has one.
    pub fn find(&self, caller: u32) -> Option<PinAt>
        ensures { result ≡ pin_among caller self.now }
    {
        find_pin(self.pins.as_slice(), caller)
    }

    /// A pin behind those that stand, for a caller that has none. Want of memory leaves the pins as they are.
    pub fn add(&mut self, caller: u32, seq: u64, moment: u64) -> Result<(), NoMem>
        requires free { IsNone (pin_among caller self.old) }
        ensures added { OnOk result (self.new ≡ self.old ++ record { caller = caller; seq = seq; moment = moment } ∷ []) }
        ensures kept { OnErr result (self.new ≡ self.old) }
    {
        add_pin(
            &mut self.pins,
            PinAt {
                caller,
                seq,
                moment,
            },
        )
    }

    /// The pin of a caller goes; whether it had one. The others stay as they are, in their order.
    pub fn remove(&mut self, caller: u32) -> bool
        ensures had { result ≡ is_some (pin_among caller self.old) }
        ensures rest { self.new ≡ pins_without caller self.old }
    {
        let had = self.find(caller).is_some();
        remove_pin(&mut self.pins, caller);
        had
    }

    /// Whom a compaction that begins now has to leave what it sees: each pin, in their order, and behind them whoever reads the
    /// newest rows from now on, by the last sequence and the greatest moment so far.
    pub fn watch(&self, alloc: Global, seq: u64, floor: u64) -> Result<Vec<Watcher>, NoMem>
        ensures { IfOk result (λ watch. watch.items ≡ map pin_watcher self.now ++ record { seq = seq; moment = floor } ∷ []) }
    {
        watchers(alloc, self.pins.as_slice(), Watcher { seq, moment: floor })
    }
}

/// The first pin of a caller.
fn find_pin(pins: &[PinAt], caller: u32) -> Option<PinAt>
    ensures { result ≡ pin_among caller pins.now }
{
    for pin in pins {
        if pin.caller == caller {
            return Some(*pin);
        }
    }
    None
}

/// A pin behind the others. Want of memory leaves them as they are.
fn add_pin(pins: &mut Vec<PinAt>, pin: PinAt) -> Result<(), NoMem>
    requires own { HaveOwnCallers pins.old.items }
    requires free { IsNone (pin_among pin.caller pins.old.items) }
    ensures own { HaveOwnCallers pins.new.items }
    ensures added { OnOk result (pins.new.items ≡ pins.old.items ++ pin ∷ []) }
    ensures kept { OnErr result (pins.new.items ≡ pins.old.items) }
{
    pins.push(pin)?;
    Ok(())
}

/// All but those of a caller.
fn remove_pin(pins: &mut Vec<PinAt>, caller: u32)
    requires own { HaveOwnCallers pins.old.items }
    ensures own { HaveOwnCallers pins.new.items }
    ensures rest { pins.new.items ≡ pins_without caller pins.old.items }
{
    pins.retain(|pin| pin.caller != caller);
}

/// What each pin sees, and one more watcher behind them.
fn watchers(alloc: Global, pins: &[PinAt], newest: Watcher) -> Result<Vec<Watcher>, NoMem>
    ensures { IfOk result (λ watch. watch.items ≡ map pin_watcher pins.now ++ newest ∷ []) }
{
    let mut watch = Vec::new(alloc);
    for pin in pins {
        watch.push(Watcher {
            seq: pin.seq,
            moment: pin.moment,
        })?;
    }
    watch.push(newest)?;
    Ok(watch)
}
