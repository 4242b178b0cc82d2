//! Who is told of the changes.
ghost use Rattle.std.specs.Prelude.{◌≡◌, Bool, true, false, List, [], ◌∷◌, ◌++◌, IfOk, refl};
ghost use Rattle.bounded.specs.Items.{bounded_items};
ghost use Rattle.calls.specs.World.{kept, fits};
ghost use Rattle.calls.specs.declared.events.RecorderEvent.{RecorderEvent};
ghost use Rattle.calls.proofs.Outcomes.{fits_none};

use bounded::Bounded;
use calls::events::{MAX_RECORDS, RecorderEvent};
use std::alloc::{AllocError, Global};

/// It is told of each change as it is made.
pub trait RewriteListener {
    /// The records that it has.
    ghost log: { Self → List RecorderEvent };

    /// Does it keep records?
    ghost keeps: { Bool };

    /// Can it be told of so many changes more?
    fn takes(&self, count: usize) -> bool
        ensures { result ≡ fits keeps (log self.now) count };

    fn notify(&mut self, event: RecorderEvent)
        requires { fits keeps (log self.old) 1 ≡ true }
        ensures { log self.new ≡ log self.old ++ kept keeps (event ∷ []) };

    /// It never has more than there is room for.
    ghost within: { (s : Self) → fits keeps (log s) 0 ≡ true };
}

/// It keeps the records in order, in memory that is reserved when it is made.
#[derive(Drop)]
pub struct Recorder {
    events: Bounded<RecorderEvent, MAX_RECORDS>,
}

impl Recorder {
    /// A recorder with no record.
    pub fn new(heap: Global) -> Result<Recorder, AllocError>
        ensures { IfOk result (λ s. bounded_items s.events ≡ []) }
    {
        let events = Bounded::new(heap)?;
        Ok(Recorder { events })
    }

    /// The records, the oldest first.
    pub fn events(&self) -> &[RecorderEvent]
        ensures { result.now ≡ bounded_items self.now.events }
    {
        self.events.as_slice()
    }

    /// Lets all records go.
    pub fn clear(&mut self)
        ensures { bounded_items self.new.events ≡ [] }
    {
        self.events.clear();
    }
}

impl RewriteListener for Recorder {
    ghost log = { λ s. bounded_items s.events };

    ghost keeps = { true };

    ghost within = { λ s. fits_none true (bounded_items s.events) s.events.within };

    fn takes(&self, count: usize) -> bool {
        count <= MAX_RECORDS - self.events.len()
    }

    fn notify(&mut self, event: RecorderEvent) {
        self.events.push(event);
    }
}

/// It keeps no record, and so always has room.
#[derive(Clone, Copy)]
pub struct DummyListener;

impl RewriteListener for DummyListener {
    ghost log = { λ _. [] };

    ghost keeps = { false };

    ghost within = { λ _. refl };

    fn takes(&self, _count: usize) -> bool {
        true
    }

    fn notify(&mut self, _event: RecorderEvent) {}
}
