// The files of a desk in memory, with room for pieces under one name.
ghost use Rattle.std.specs.Prelude.{◌≡◌, ◌↔◌, None, Some, length, IsTrue, OnOk, OnErr};
ghost use Rattle.std.specs.Option.{option_copied};
ghost use Rattle.std.specs.Bool.{OnTrue, OnFalse};
ghost use Rattle.rst_outside.specs.Files.{bytes_under};
ghost use Rattle.rst_outside.specs.SureRoom.{HasRoomFor, lowered};
ghost use Rattle.rst_outside.specs.MemoryFiles.{with_piece};
ghost use Rattle.rst_outside.specs.Rooms.{shown, fits_first, saved_in_first};

use crate::room::Room;
use crate::{DeskFile, NoMemory};
use std::alloc::Global;
use std::marker::Model;

/// The files that it was made with, under those that were saved: each `reserve` puts a new room in
/// front, and only that in front takes pieces.
#[derive(Drop)]
pub(crate) struct Store {
    alloc: Global,
    files: Vec<DeskFile>,
    rooms: Vec<Room>,
}

impl Model for Store {
    ghost use Rattle.rst_outside.specs.MemoryFiles.{StoreState};
    ghost use Rattle.rst_outside.specs.Rooms.{shown, room_of, IsCopied};

    ghost Value = { StoreState };

    ghost view = { λ s. record { files = shown s.rooms.items s.files.items; room = room_of s.rooms.items } };

    ghost invariant = { λ s. IsCopied s.rooms.items s.files.items };
}

// The bytes under a name among files.
fn bytes_in<'a>(files: &'a [DeskFile], name: &str) -> Option<&'a [u8]>
    ensures { option_copied result ≡ bytes_under name.now files.now }
{
    for file in files {
        if file.name.as_slice() == name.as_bytes() {
            return Some(file.bytes.as_slice());
        }
    }
    None
}

// The bytes under a name, whether saved or there from the start.
fn bytes_shown<'a>(rooms: &'a [Room], files: &'a [DeskFile], name: &str) -> Option<&'a [u8]>
    ensures { option_copied result ≡ bytes_under name.now (shown rooms.now files.now) }
{
    for room in rooms {
        if room.is_for(name) {
            if let Some(bytes) = room.saved() {
                return Some(bytes);
            }
        }
    }
    bytes_in(files, name)
}

// Saves a piece where the newest room is for the name and has room left.
fn save_in(rooms: &mut Vec<Room>, name: &str, first: bool, piece: &[u8]) -> bool
    ensures fits { result ≡ fits_first name.now (length piece.now) rooms.old.items }
    ensures saved { OnTrue result (rooms.new.items ≡ saved_in_first first piece.now rooms.old.items) }
    ensures not_saved { OnFalse result (rooms.new.items ≡ rooms.old.items) }
{
    if rooms.is_empty() {
        return false;
    }
    let room = &mut rooms[0];
    room.is_for(name) && room.save_piece(first, piece)
}

impl Store {
    pub(crate) fn new(alloc: Global, files: Vec<DeskFile>) -> Store
        ensures { result ≡ record { files = files.items; room = None } }
    {
        Store {
            alloc,
            files,
            rooms: Vec::new(alloc),
        }
    }

    pub(crate) fn file(&self, name: &str) -> Option<&[u8]>
        ensures { option_copied result ≡ bytes_under name.now self.now.files }
    {
        bytes_shown(&self.rooms, &self.files, name)
    }

    pub(crate) fn reserve(&mut self, name: &str, bytes: u64) -> Result<(), NoMemory>
        ensures ok { OnOk result (self.new ≡ record self.old { room = Some (record { name = name.now; left = bytes }) }) }
        ensures err { OnErr result (self.new ≡ self.old) }
    {
        let content = self.file(name).unwrap_or(&[]);
        let room = Room::new(self.alloc, name, content, bytes)?;
        self.rooms.insert(0, room)?;
        Ok(())
    }

    pub(crate) fn save_piece(&mut self, name: &str, first: bool, piece: &[u8]) -> bool
        ensures fits { IsTrue result ↔ HasRoomFor name.now (length piece.now) self.old.room }
        ensures saved { OnTrue result (self.new ≡ record { files = with_piece name.now first piece.now self.old.files; room = lowered (length piece.now) self.old.room }) }
        ensures not_saved { OnFalse result (self.new ≡ self.old) }
    {
        save_in(&mut self.rooms, name, first, piece)
    }
}
