// For each literal the clauses that watch its opposite, in one pool.
use crate::cells::narrow;
use std::alloc::{AllocError, Global};

/// In place of a clause: the blocker is the one other literal.
pub const BINARY: u32 = 0xFFFF_FFFF;

/// Added to a literal in place of a clause: a clause of three, which all of its literals watch.
pub const TERNARY: u32 = 0x8000_0000;

/// A clause that watches a literal, with another of its literals.
#[derive(Clone, Copy)]
pub struct Watch {
    pub clause: u32,
    pub blocker: u32,
}

/// Where the watches of a literal lie.
#[derive(Clone, Copy)]
pub struct List {
    pub start: u32,
    pub len: u32,
    pub room: u32,
}

/// What stands in the pool where there is no watch.
const NO_WATCH: Watch = Watch {
    clause: BINARY,
    blocker: 0xFFFF_FFFE,
};

/// The watches of all literals.
#[derive(Drop)]
pub struct Watches {
    pub alloc: Global,
    pub pool: Vec<Watch>,
    pub lists: Vec<List>,
    /// Cells of the pool that no list has.
    pub waste: usize,
}

impl Watches {
    /// No watch.
    pub fn new(alloc: Global, vars: u32) -> Result<Watches, AllocError> {
        let slots = 2 * (vars as usize);
        let none = List {
            start: 0,
            len: 0,
            room: 0,
        };
        Ok(Watches {
            alloc,
            pool: Vec::new(alloc),
            lists: vec![in alloc; none; slots]?,
            waste: 0,
        })
    }

    /// Where the watches of the literal lie.
    #[inline(always)]
    pub fn list(&self, lit: u32) -> List {
        let i = lit as usize;
        if i < self.lists.len() {
            self.lists[i]
        } else {
            List {
                start: 0,
                len: 0,
                room: 0,
            }
        }
    }

    // Writes where the watches of the literal lie.
    #[inline(always)]
    fn set_list(&mut self, lit: u32, list: List) {
        let i = lit as usize;
        if i < self.lists.len() {
            self.lists[i] = list;
        }
    }

    /// The watch at the place of the pool.
    #[inline(always)]
    pub fn at(&self, place: u32) -> Watch {
        let i = place as usize;
        if i < self.pool.len() {
            self.pool[i]
        } else {
            NO_WATCH
        }
    }

    /// Writes the watch at the place of the pool.
    #[inline(always)]
    pub fn put(&mut self, place: u32, watch: Watch) {
        let i = place as usize;
        if i < self.pool.len() {
            self.pool[i] = watch;
        }
    }

    /// The list of the literal ends at the place.
    #[inline(always)]
    pub fn cut(&mut self, lit: u32, end: u32) {
        let i = lit as usize;
        if i < self.lists.len() {
            let list = &mut self.lists[i];
            list.len = end.wrapping_sub(list.start);
        }
    }

    // Moves the list to the end of the pool, with so much room.
    fn move_list(&mut self, lit: u32, room: u32) -> Result<(), AllocError> {
        let list = self.list(lit);
        let start = narrow(self.pool.len());
        if start.checked_add(room).is_none() {
            return Err(AllocError);
        }
        for k in 0..room {
            let watch = if k < list.len {
                self.at(list.start.wrapping_add(k))
            } else {
                NO_WATCH
            };
            self.pool.push(watch)?;
        }
        self.waste = self.waste.wrapping_add(list.room as usize);
        self.set_list(
            lit,
            List {
                start,
                len: list.len,
                room,
            },
        );
        Ok(())
    }

    #[inline(never)]
    fn grow(&mut self, lit: u32) -> Result<(), AllocError> {
        let len = self.list(lit).len;
        let room = len.saturating_add(len / 2).saturating_add(2);
        self.move_list(lit, room)
    }

    /// One more watch of the literal.
    #[inline(always)]
    pub fn push(&mut self, lit: u32, watch: Watch) -> Result<(), AllocError> {
        let before = self.list(lit);
        if before.len >= before.room {
            self.grow(lit)?;
        }
        let list = self.list(lit);
        self.put(list.start.wrapping_add(list.len), watch);
        let i = lit as usize;
        if i < self.lists.len() {
            self.lists[i].len = list.len.wrapping_add(1);
        }
        Ok(())
    }
}

impl Watches {
    /// The clause does not watch the literal any more.
    pub fn remove(&mut self, lit: u32, clause: u32) {
        let list = self.list(lit);
        let end = list.start.wrapping_add(list.len);
        for i in list.start..end {
            if self.at(i).clause == clause {
                let last = end.wrapping_sub(1);
                let watch = self.at(last);
                self.put(i, watch);
                self.cut(lit, last);
                return;
            }
        }
    }

    /// One more watch of the literal will come, and the pool is empty yet.
    pub fn expect(&mut self, lit: u32) {
        let i = lit as usize;
        if i < self.lists.len() {
            let list = &mut self.lists[i];
            list.room = list.room.wrapping_add(1);
        }
    }

    /// Lays out the lists in the pool, each with the room for what was expected.
    pub fn make_room(&mut self) -> Result<(), AllocError> {
        let mut start = 0u32;
        for lit in 0..narrow(self.lists.len()) {
            let List {
                start: _,
                len,
                room,
            } = self.list(lit);
            self.set_list(lit, List { start, len, room });
            let Some(end) = start.checked_add(room) else {
                return Err(AllocError);
            };
            start = end;
        }
        self.pool = vec![in self.alloc; NO_WATCH; start as usize]?;
        Ok(())
    }

    // The lists alone, with a little room each.
    fn compact(&mut self) -> Result<(), AllocError> {
        let mut pool = Vec::with_capacity(self.alloc, self.pool.len() - self.pool.len() / 4)?;
        for lit in 0..narrow(self.lists.len()) {
            let list = self.list(lit);
            let start = narrow(pool.len());
            let room = list.len.saturating_add(list.len / 8).saturating_add(1);
            for k in 0..room {
                let watch = if k < list.len {
                    self.at(list.start.wrapping_add(k))
                } else {
                    NO_WATCH
                };
                pool.push(watch)?;
            }
            let len = list.len;
            self.set_list(lit, List { start, len, room });
        }
        self.pool = pool;
        self.waste = 0;
        Ok(())
    }

    /// Closes the gaps of the pool where they are more than half of it.
    pub fn collect(&mut self) -> Result<(), AllocError> {
        if self.waste > self.pool.len() / 2 {
            self.compact()?;
        }
        Ok(())
    }
}
