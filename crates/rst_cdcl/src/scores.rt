// The order in which variables are decided. It is that of their activity: those without any are
// taken by their numbers, the last first; the others stand in a binary heap. Where there are many
// variables a heap is dear, and they are taken by the last conflict that they took part in, in
// turns.
use crate::cells::{long, narrow, set_long, set_word, word};
use crate::queue::Queue;
use std::alloc::{AllocError, Global};

/// The place of a variable that is not in the heap.
const ABSENT: u32 = 0xFFFF_FFFF;
/// What the activity of an early variable has more than others have.
const EARLY: u64 = 1 << 62;
/// Where the activities are scaled down.
const HIGH: u64 = 1 << 58;
/// By so many bits.
const SCALE: u32 = 40;
/// No heap is deeper.
const DEPTH: u32 = 33;
/// More variables are many.
const MANY: u32 = 8192;
/// Conflicts of a turn.
const TURN: u64 = 20_000;

/// Open variables, and others, by activity.
#[derive(Drop)]
pub struct Scores {
    activity: Vec<u64>,
    heap: Vec<u32>,
    count: u32,
    /// By variable.
    places: Vec<u32>,
    /// No open variable from here on is without activity.
    cold: u32,
    step: u64,
    /// Of no variable where these are few.
    queue: Queue,
    by_queue: bool,
    is_large: bool,
    conflicts: u64,
}

impl Scores {
    /// All variables, those below `early` before all others.
    pub fn new(alloc: Global, vars: u32, early: u32) -> Result<Scores, AllocError> {
        let slots = vars as usize;
        let is_large = vars > MANY && early == 0;
        let mut scores = Scores {
            activity: vec![in alloc; 0u64; slots]?,
            heap: vec![in alloc; 0u32; slots]?,
            count: 0,
            places: vec![in alloc; ABSENT; slots]?,
            cold: vars,
            step: 1 << 18,
            queue: Queue::new(alloc, if is_large { vars } else { 0 })?,
            by_queue: is_large,
            is_large,
            conflicts: 0,
        };
        for v in 0..early.min(vars) {
            set_long(&mut scores.activity, v, EARLY);
            scores.insert(v);
        }
        Ok(scores)
    }

    /// Whether the first comes before the second.
    #[inline(always)]
    pub fn is_before(&self, a: u32, b: u32) -> bool {
        if self.by_queue {
            return self.queue.is_before(a, b);
        }
        self.is_more_active(a, b)
    }

    #[inline(always)]
    fn is_more_active(&self, a: u32, b: u32) -> bool {
        let x = long(&self.activity, a);
        let y = long(&self.activity, b);
        x > y || (x == y && a > b)
    }

    #[inline(always)]
    fn put(&mut self, at: u32, variable: u32) {
        set_word(&mut self.heap, at, variable);
        set_word(&mut self.places, variable, at);
    }

    // Moves the variable from the place up.
    fn raise(&mut self, from: u32, variable: u32) {
        let mut at = from;
        for _ in 0..DEPTH {
            if at == 0 {
                break;
            }
            let above = (at - 1) / 2;
            let parent = word(&self.heap, above);
            if !self.is_more_active(variable, parent) {
                break;
            }
            self.put(at, parent);
            at = above;
        }
        self.put(at, variable);
    }

    // The place of the child that comes first, if there is one.
    #[inline(always)]
    fn first_child(&self, at: u32) -> Option<u32> {
        let left = at.wrapping_mul(2).wrapping_add(1);
        if left >= self.count {
            return None;
        }
        let right = left.wrapping_add(1);
        if right < self.count
            && self.is_more_active(word(&self.heap, right), word(&self.heap, left))
        {
            return Some(right);
        }
        Some(left)
    }

    // Moves the variable from the place down.
    fn lower(&mut self, from: u32, variable: u32) {
        let mut at = from;
        for _ in 0..DEPTH {
            let Some(below) = self.first_child(at) else {
                break;
            };
            let child = word(&self.heap, below);
            if !self.is_more_active(child, variable) {
                break;
            }
            self.put(at, child);
            at = below;
        }
        self.put(at, variable);
    }

    /// The variable is open.
    pub fn insert(&mut self, variable: u32) {
        if self.by_queue {
            return self.queue.insert(variable);
        }
        if long(&self.activity, variable) == 0 {
            self.cold = self.cold.max(variable.wrapping_add(1));
            return;
        }
        if word(&self.places, variable) != ABSENT {
            return;
        }
        let at = self.count;
        self.count = at.wrapping_add(1);
        self.raise(at, variable);
    }

    // The last variable below `cold` that has no activity.
    fn first_cold(&mut self) -> Option<u32> {
        for v in (0..self.cold).rev() {
            if long(&self.activity, v) == 0 {
                self.cold = v + 1;
                return Some(v);
            }
        }
        self.cold = 0;
        None
    }

    /// The first variable that may be open.
    pub fn first(&mut self) -> Option<u32> {
        if self.by_queue {
            return self.queue.first();
        }
        if self.count == 0 {
            return self.first_cold();
        }
        Some(word(&self.heap, 0))
    }

    /// Takes the first variable out.
    pub fn pop(&mut self) -> Option<u32> {
        if self.by_queue {
            return self.queue.pop();
        }
        if self.count == 0 {
            let first = self.first_cold()?;
            self.cold = first;
            return Some(first);
        }
        let first = word(&self.heap, 0);
        set_word(&mut self.places, first, ABSENT);
        self.count -= 1;
        if self.count > 0 {
            let last = word(&self.heap, self.count);
            self.lower(0, last);
        }
        Some(first)
    }

    /// The variable took part in a conflict.
    pub fn bump(&mut self, variable: u32) -> Result<(), AllocError> {
        if self.by_queue {
            self.queue.meet(variable)?;
        }
        let higher = long(&self.activity, variable).saturating_add(self.step);
        set_long(&mut self.activity, variable, higher);
        let at = word(&self.places, variable);
        if at != ABSENT {
            self.raise(at, variable);
        }
        Ok(())
    }

    // Orders the heap anew, without the variables that have no activity any more.
    fn order(&mut self) {
        let count = self.count;
        self.count = 0;
        for at in 0..count {
            let variable = word(&self.heap, at);
            set_word(&mut self.places, variable, ABSENT);
            self.insert(variable);
        }
    }

    // The other order from now on, where there are many variables. Any of them may be open.
    fn take_turns(&mut self) {
        self.by_queue = !self.by_queue;
        for v in 0..narrow(self.activity.len()) {
            self.insert(v);
        }
    }

    // Scales all activities down.
    fn rescale(&mut self) {
        for v in 0..narrow(self.activity.len()) {
            let activity = long(&self.activity, v);
            let lower = (activity & !EARLY) >> SCALE;
            set_long(&mut self.activity, v, lower | (activity & EARLY));
        }
        self.step >>= SCALE;
        self.order();
    }

    /// A conflict is over: what took part in earlier ones counts less from now on.
    pub fn decay(&mut self) {
        if self.by_queue {
            self.queue.advance();
        }
        self.step = self.step.saturating_add(self.step / 16);
        if self.step > HIGH {
            self.rescale();
        }
        self.conflicts = self.conflicts.wrapping_add(1);
        if self.is_large && self.conflicts % TURN == 0 {
            self.take_turns();
        }
    }
}
