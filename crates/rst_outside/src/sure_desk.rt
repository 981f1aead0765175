// A desk in memory whose loads of held files never fail, and whose room for pieces is sure.
ghost use Rattle.std.specs.Prelude.{◌≡◌, ◌-◌, ◌≤◌, ◌<◌, ◌^◌, ◌↔◌, Some, None, true, length, vec_len, min, IsTrue, IsSome, IsOk, IsErr, IsErrOf, IfOk, IfSome, OnOk, OnErr, if◌then◌else◌};
ghost use Rattle.std.specs.Option.{option_copied};
ghost use Rattle.rst_outside.specs.Causes.{HasCause, raised};
ghost use Rattle.rst_outside.specs.Files.{bytes_under, names_differ, IsHeldUnder, IsLongUnder, IsPieceUnder, SavesPiece, ChangesOnly};
ghost use Rattle.rst_outside.specs.SureRoom.{HasRoomFor, lowered};
ghost use Rattle.rst_outside.specs.MemoryFiles.{with_piece};
ghost use Rattle.rst_outside.specs.MemoryDesk.{is_load_fault};

use crate::{Desk, DeskFile, Failed, LoadError, MemoryDesk, NoMemory};
use std::alloc::Global;
use std::marker::Model;

/// Files in memory, with sure room for pieces under one name: that of the last `reserve`.
///
/// A load fails only where there is no file under the name, and a save only where there is no room.
#[derive(Drop)]
pub struct SureDesk {
    desk: MemoryDesk,
}

impl Model for SureDesk {
    ghost use Rattle.std.specs.Prelude.{◌≡◌, []};
    ghost use Rattle.rst_outside.specs.SureDesk.{SureState};

    ghost Value = { SureState };

    ghost view = { λ s. record { files = s.desk.files; room = s.desk.room; load_faults = s.desk.load_faults; save_faults = s.desk.save_faults } };

    ghost invariant = { λ s. s.desk.failing ≡ [] };
}

impl SureDesk {
    /// A desk with these files, without room for saves until `reserve` makes some.
    pub fn new(alloc: Global, files: Vec<DeskFile>) -> SureDesk
        requires { IsTrue (names_differ files.items) }
        ensures { result ≡ record { files = files.items; room = None; load_faults = 0; save_faults = 0 } }
    {
        SureDesk {
            desk: MemoryDesk::new(alloc, files, Vec::new(alloc)),
        }
    }

    /// Makes room for pieces of `bytes` bytes in all under the name, and for none under another.
    ///
    /// Want of memory leaves everything as before.
    pub fn reserve(&mut self, name: &str, bytes: u64) -> Result<(), NoMemory>
        ensures ok { OnOk result (self.new ≡ record self.old { room = Some (record { name = name.now; left = bytes }) }) }
        ensures err { OnErr result (self.new ≡ self.old) }
    {
        self.desk.reserve(name, bytes)
    }

    /// The bytes of the file under a name, or none where no file has the name.
    pub fn file(&self, name: &str) -> Option<&[u8]>
        ensures { option_copied result ≡ bytes_under name.now self.now.files }
    {
        self.desk.file(name)
    }
}

impl Desk for SureDesk {
    ghost files = { λ d. Some d.files };

    ghost load_faults = { λ d. d.load_faults };

    ghost save_faults = { λ d. d.save_faults };

    ghost sure_loads = { λ _. true };

    ghost sure_room = { λ d. d.room };

    fn load(&mut self, alloc: Global, name: &str, limit: u64) -> Result<Vec<u8>, LoadError>
        requires { limit ≤ 2 ^ 62 }
        ensures short { IfOk result (λ bytes. vec_len bytes ≤ limit) }
        ensures held { IfOk result (λ bytes. IsHeldUnder name.now bytes.items self.old.files) }
        ensures long { IsErrOf result LoadError.TooLong → IsLongUnder name.now limit self.old.files }
        ensures cause { HasCause self.old.load_faults self.new.load_faults (IsErrOf result LoadError.Failed) }

        // It fails exactly at absent names.
        ensures fails { IsErrOf result LoadError.Failed ↔ (bytes_under name.now self.old.files ≡ None) }

        // Beside the number of faults nothing changes.
        ensures state { self.new ≡ record self.old { load_faults = (if is_load_fault result then raised self.old.load_faults else self.old.load_faults) } }
    {
        self.desk.load(alloc, name, limit)
    }

    fn load_piece(&mut self, name: &str, from: u64, into: &mut [u8]) -> Result<u32, Failed>
        requires some { 0 < length into.old }
        requires at_most { length into.old ≤ 65536 }
        ensures within { IfOk result (λ count. count ≤ length into.old) }
        ensures piece { IfOk result (λ count. IsPieceUnder name.now from count into.new self.old.files) }
        ensures cause { HasCause self.old.load_faults self.new.load_faults (IsErr result) }

        // It gives as many bytes as there are and as fit.
        ensures most { IfOk result (λ count. IfSome (bytes_under name.now self.old.files) (λ bytes. count ≡ min (length into.old) (length bytes - from))) }

        // It fails exactly at absent names.
        ensures succeeds { IsOk result ↔ IsSome (bytes_under name.now self.old.files) }

        // Beside the number of faults nothing changes.
        ensures ok { OnOk result (self.new ≡ self.old) }
        ensures err { OnErr result (self.new ≡ record self.old { load_faults = raised self.old.load_faults }) }
    {
        self.desk.load_piece(name, from, into)
    }

    fn save_piece(&mut self, name: &str, first: bool, bytes: &[u8]) -> Result<(), Failed>
        ensures saved { OnOk result (SavesPiece name.now first bytes.now (Some self.old.files) (Some self.new.files)) }
        ensures others { ChangesOnly name.now (Some self.old.files) (Some self.new.files) }
        ensures cause { HasCause self.old.save_faults self.new.save_faults (IsErr result) }

        // It fails exactly where there is no room, and changes no file then.
        ensures succeeds { IsOk result ↔ HasRoomFor name.now (length bytes.now) self.old.room }
        ensures ok { OnOk result (self.new ≡ record self.old { files = with_piece name.now first bytes.now self.old.files; room = lowered (length bytes.now) self.old.room }) }
        ensures err { OnErr result (self.new ≡ record self.old { save_faults = raised self.old.save_faults }) }
    {
        self.desk.save_piece(name, first, bytes)
    }
}
