// A sink in memory whose room is sure.
ghost use Rattle.std.specs.Prelude.{◌≡◌, ◌++◌, ◌-◌, ◌≤◌, ◌↔◌, Some, [], length, IsOk, IsErr, OnOk, OnErr};
ghost use Rattle.std.specs.Io.KnownBytes.{Appends};
ghost use Rattle.rst_outside.specs.Causes.{HasCause, AppendsPrefix, raised};

use crate::{Failed, MemorySink, NoMemory, Sink};
use std::alloc::Global;
use std::marker::Model;

/// The bytes that were put, with sure room that `reserve` makes: a put fails only where it doesn't fit.
#[derive(Drop)]
pub struct SureSink {
    sink: MemorySink,
}

impl Model for SureSink {
    ghost use Rattle.std.specs.Prelude.{◌≡◌, []};
    ghost use Rattle.rst_outside.specs.MemorySink.{SureSinkState};

    ghost Value = { SureSinkState };

    ghost view = { λ s. record { taken = s.sink.taken; room = s.sink.room; faults = s.sink.faults } };

    ghost invariant = { λ s. s.sink.failing ≡ [] };
}

impl SureSink {
    /// A sink without bytes and without room.
    pub fn new(alloc: Global) -> SureSink
        ensures { result ≡ record { taken = []; room = 0; faults = 0 } }
    {
        SureSink {
            sink: MemorySink::new(alloc, Vec::new(alloc)),
        }
    }

    /// Makes room for puts of `bytes` bytes in all. Want of memory leaves everything as before.
    pub fn reserve(&mut self, bytes: u64) -> Result<(), NoMemory>
        ensures ok { OnOk result (self.new ≡ record self.old { room = bytes }) }
        ensures err { OnErr result (self.new ≡ self.old) }
    {
        self.sink.reserve(bytes)
    }

    /// The bytes that were put so far.
    pub fn taken(&self) -> &[u8]
        ensures { result.now ≡ self.now.taken }
    {
        self.sink.taken()
    }
}

impl Sink for SureSink {
    ghost taken = { λ s. Some s.taken };

    ghost faults = { λ s. s.faults };

    ghost sure_room = { λ s. Some s.room };

    fn put(&mut self, piece: &[u8]) -> Result<(), Failed>
        ensures whole { OnOk result (Appends (Some self.old.taken) (Some self.new.taken) piece.now) }
        ensures prefix { OnErr result (AppendsPrefix (Some self.old.taken) (Some self.new.taken) piece.now) }
        ensures cause { HasCause self.old.faults self.new.faults (IsErr result) }

        // It fails exactly where there is no room, and takes nothing then.
        ensures succeeds { IsOk result ↔ (length piece.now ≤ self.old.room) }
        ensures ok { OnOk result (self.new ≡ record self.old { taken = self.old.taken ++ piece.now; room = self.old.room - length piece.now }) }
        ensures err { OnErr result (self.new ≡ record self.old { faults = raised self.old.faults }) }
    {
        self.sink.put(piece)
    }
}
