// A desk that gives small pieces.
ghost use Rattle.std.specs.Prelude.{◌≡◌, true, Some};

use rst_outside::{Desk, Failed, LoadError, SureDesk};
use std::alloc::Global;

/// A desk in memory whose pieces have at most so many bytes, and one at least.
#[derive(Drop)]
pub(crate) struct SmallPieces {
    pub desk: SureDesk,
    pub most: usize,
}

impl Desk for SmallPieces {
    ghost files = { λ d. Some d.desk.files };

    ghost load_faults = { λ d. d.desk.load_faults };

    ghost save_faults = { λ d. d.desk.save_faults };

    ghost sure_loads = { λ _. true };

    ghost sure_room = { λ d. d.desk.room };

    fn load(&mut self, alloc: Global, name: &str, limit: u64) -> Result<Vec<u8>, LoadError> {
        self.desk.load(alloc, name, limit)
    }

    fn load_piece(&mut self, name: &str, from: u64, into: &mut [u8]) -> Result<u32, Failed> {
        let size = into.len().min(self.most.max(1));
        self.desk.load_piece(name, from, &mut into[..size])
    }

    fn save_piece(&mut self, name: &str, first: bool, bytes: &[u8]) -> Result<(), Failed> {
        self.desk.save_piece(name, first, bytes)
    }
}
