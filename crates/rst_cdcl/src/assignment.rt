// The values of the literals, and the trail of those that stand.
use crate::cells::{byte, set_byte, set_word, word};
use std::alloc::{AllocError, Global};

/// A literal that is neither true nor false.
pub const OPEN: u8 = 0;
/// A literal that stands.
pub const TRUE: u8 = 1;
/// A literal whose opposite stands.
pub const FALSE: u8 = 2;

/// Why a literal stands.
#[derive(Clone, Copy)]
pub enum Reason {
    /// It was decided, or given.
    Decision,
    /// It is the clause of this number in the log.
    Learnt(u32),
    /// The other literal of a clause of two is false.
    Binary(u32),
    /// The other literals of a clause of three are false.
    Ternary(u32, u32),
    /// All other literals of the clause at this place are false.
    Clause(u32),
}

/// When and why a variable got its value.
#[derive(Clone, Copy)]
pub struct Origin {
    pub level: u32,
    pub reason: Reason,
}

/// The values of all literals, with the trail.
#[derive(Drop)]
pub struct Assignment {
    pub vars: u32,
    /// By literal.
    pub values: Vec<u8>,
    /// By variable.
    pub origins: Vec<Origin>,
    /// By variable, the last value: 1 for true.
    pub phases: Vec<u8>,
    /// By variable, where it stands on the trail.
    places: Vec<u32>,
    pub trail: Vec<u32>,
    /// How many literals stand.
    pub count: u32,
    /// How many of them were propagated.
    pub propagated: u32,
    /// How many stood when each level began.
    pub starts: Vec<u32>,
    pub level: u32,
}

impl Assignment {
    /// Nothing stands.
    pub fn new(alloc: Global, vars: u32) -> Result<Assignment, AllocError> {
        let slots = vars as usize;
        let first = Origin {
            level: 0,
            reason: Reason::Decision,
        };
        Ok(Assignment {
            vars,
            values: vec![in alloc; OPEN; 2 * slots]?,
            origins: vec![in alloc; first; slots]?,
            phases: vec![in alloc; 0u8; slots]?,
            places: vec![in alloc; 0u32; slots]?,
            trail: vec![in alloc; 0u32; slots]?,
            count: 0,
            propagated: 0,
            starts: Vec::new(alloc),
            level: 0,
        })
    }

    /// The value of the literal.
    #[inline(always)]
    pub fn value(&self, lit: u32) -> u8 {
        byte(&self.values, lit)
    }

    /// Whether the literal stands.
    pub fn is_true(&self, lit: u32) -> bool {
        self.value(lit) == TRUE
    }

    /// When and why the variable got its value.
    #[inline(always)]
    pub fn origin(&self, variable: u32) -> Origin {
        let i = variable as usize;
        if i < self.origins.len() {
            self.origins[i]
        } else {
            Origin {
                level: 0,
                reason: Reason::Decision,
            }
        }
    }

    /// Writes when and why the variable got its value.
    pub fn set_origin(&mut self, variable: u32, origin: Origin) {
        let i = variable as usize;
        if i < self.origins.len() {
            self.origins[i] = origin;
        }
    }

    /// The level at which the variable got its value.
    #[inline(always)]
    pub fn level_of(&self, variable: u32) -> u32 {
        self.origin(variable).level
    }

    /// Where the variable stands on the trail.
    pub fn place_of(&self, variable: u32) -> u32 {
        word(&self.places, variable)
    }

    /// Writes the literal at the place of the trail.
    #[inline(always)]
    pub fn put(&mut self, place: u32, lit: u32) {
        set_word(&mut self.trail, place, lit);
        set_word(&mut self.places, lit >> 1, place);
    }

    /// The literal of the variable that stands.
    pub fn standing(&self, variable: u32) -> u32 {
        let high = variable << 1;
        if self.is_true(high) { high } else { high | 1 }
    }

    /// The literal stands from now on, on a level.
    #[inline(always)]
    pub fn assign(&mut self, lit: u32, level: u32, reason: Reason) {
        set_byte(&mut self.values, lit, TRUE);
        set_byte(&mut self.values, lit ^ 1, FALSE);
        let i = (lit >> 1) as usize;
        if i < self.origins.len() {
            self.origins[i] = Origin { level, reason };
        }
        self.put(self.count, lit);
        self.count = self.count.wrapping_add(1);
    }

    /// The next literal to propagate.
    #[inline(always)]
    pub fn next(&mut self) -> Option<u32> {
        if self.propagated >= self.count {
            return None;
        }
        let lit = word(&self.trail, self.propagated);
        self.propagated = self.propagated.wrapping_add(1);
        Some(lit)
    }

    /// A new level begins.
    pub fn open_level(&mut self) -> Result<(), AllocError> {
        self.starts.push(self.count)?;
        self.level = self.level.wrapping_add(1);
        Ok(())
    }

    /// The literal stands no longer. Its variable keeps its value as the next phase.
    #[inline(always)]
    pub fn unassign(&mut self, lit: u32) {
        set_byte(&mut self.values, lit, OPEN);
        set_byte(&mut self.values, lit ^ 1, OPEN);
        let phase = if lit & 1 == 0 { 1u8 } else { 0u8 };
        set_byte(&mut self.phases, lit >> 1, phase);
    }
}
