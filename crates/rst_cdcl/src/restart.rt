// Restarts, after runs of conflicts whose lengths follow Luby's sequence.
use crate::assignment::OPEN;
use crate::cells::word;
use crate::search::Search;
use std::alloc::AllocError;

/// Conflicts of the shortest run between restarts.
const RUN: u64 = 100;

/// Luby's sequence, by Knuth's pair: the second number is the next member.
#[derive(Clone, Copy)]
pub struct Luby {
    index: u64,
    member: u64,
}

impl Luby {
    /// The first member.
    pub fn new() -> Luby {
        Luby {
            index: 1,
            member: 1,
        }
    }

    // The next member comes.
    fn advance(self) -> Luby {
        let Luby { index, member } = self;
        if index & index.wrapping_neg() == member {
            Luby {
                index: index.wrapping_add(1),
                member: 1,
            }
        } else {
            Luby {
                index,
                member: member.wrapping_mul(2),
            }
        }
    }
}

impl Search {
    // The first open variable of the scores.
    fn first_open(&mut self) -> Option<u32> {
        for _ in 0..self.assignment.vars {
            let variable = self.scores.first()?;
            if self.assignment.value(variable << 1) == OPEN {
                return Some(variable);
            }
            let _ = self.scores.pop();
        }
        None
    }

    // The last level whose decisions a new start would make again.
    fn reused_level(&mut self, assumed: usize) -> u32 {
        let Some(next) = self.first_open() else {
            return self.assignment.level;
        };
        for level in 0..self.assignment.level {
            let start = word(&self.assignment.starts, level);
            let decision = word(&self.assignment.trail, start);
            if level as usize >= assumed && !self.scores.is_before(decision >> 1, next) {
                return level;
            }
        }
        self.assignment.level
    }

    /// Starts anew where the run is long enough. The assumptions stand below the first levels.
    pub fn restart(&mut self, assumed: usize) -> Result<(), AllocError> {
        if self.since_restart < RUN.saturating_mul(self.luby.member) {
            return Ok(());
        }
        self.since_restart = 0;
        self.luby = self.luby.advance();
        let level = self.reused_level(assumed);
        self.backtrack(level);
        self.watches.collect()
    }
}
