// The variables in the order in which they took part in conflicts: a list, whose last comes first.
use crate::cells::{long, set_long, set_word, word};
use std::alloc::{AllocError, Global};

/// No variable.
const NONE: u32 = 0xFFFF_FFFF;

// A variable of the last conflict, and when it was met before.
#[derive(Clone, Copy, PartialEq, Eq, PartialOrd, Ord)]
struct Met {
    time: u64,
    variable: u32,
}

/// The variables by the last conflict that they took part in.
#[derive(Drop)]
pub struct Queue {
    /// By variable its neighbours in the list, and when it was put there.
    before: Vec<u32>,
    behind: Vec<u32>,
    times: Vec<u64>,
    last: u32,
    /// All variables behind this one have values.
    search: u32,
    time: u64,
    met: Vec<Met>,
}

impl Queue {
    /// The variables by their numbers.
    pub fn new(alloc: Global, vars: u32) -> Result<Queue, AllocError> {
        let slots = vars as usize;
        let mut queue = Queue {
            before: vec![in alloc; NONE; slots]?,
            behind: vec![in alloc; NONE; slots]?,
            times: vec![in alloc; 0u64; slots]?,
            last: NONE,
            search: NONE,
            time: 0,
            met: Vec::new(alloc),
        };
        for v in 0..vars {
            queue.append(v);
        }
        queue.search = queue.last;
        Ok(queue)
    }

    // Puts the variable at the end.
    fn append(&mut self, variable: u32) {
        self.time = self.time.wrapping_add(1);
        set_long(&mut self.times, variable, self.time);
        set_word(&mut self.before, variable, self.last);
        set_word(&mut self.behind, variable, NONE);
        set_word(&mut self.behind, self.last, variable);
        self.last = variable;
    }

    // Takes a variable that has a value out of the list.
    fn remove(&mut self, variable: u32) {
        let before = word(&self.before, variable);
        let behind = word(&self.behind, variable);
        set_word(&mut self.behind, before, behind);
        set_word(&mut self.before, behind, before);
        if behind == NONE {
            self.last = before;
        }
        if self.search == variable {
            self.search = before;
        }
    }

    /// Whether the first comes before the second.
    #[inline(always)]
    pub fn is_before(&self, a: u32, b: u32) -> bool {
        long(&self.times, a) > long(&self.times, b)
    }

    /// The variable is open.
    #[inline(always)]
    pub fn insert(&mut self, variable: u32) {
        if self.search == NONE || self.is_before(variable, self.search) {
            self.search = variable;
        }
    }

    /// The first variable that may be open.
    pub fn first(&self) -> Option<u32> {
        if self.search == NONE {
            return None;
        }
        Some(self.search)
    }

    /// The same; it has a value from now on.
    pub fn pop(&mut self) -> Option<u32> {
        let first = self.first()?;
        self.search = word(&self.before, first);
        Some(first)
    }

    /// The variable took part in the conflict.
    pub fn meet(&mut self, variable: u32) -> Result<(), AllocError> {
        let time = long(&self.times, variable);
        self.met.push(Met { time, variable })?;
        Ok(())
    }

    /// Puts what took part in the conflict at the end, in the order in which it stands.
    pub fn advance(&mut self) {
        self.met.sort_unstable();
        for k in 0..self.met.len() {
            let Some(met) = self.met.get(k) else {
                break;
            };
            let variable = met.variable;
            self.remove(variable);
            self.append(variable);
        }
        self.met.clear();
    }
}
