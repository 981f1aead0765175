// The edges of the signals' bits.
ghost use Rattle.std.specs.Prelude.{◌≡◌, ◌+◌, ◌<◌, [], ◌∷◌, ◌++◌, length, slice_set, IfOk};
ghost use Rattle.rst_lower.specs.WireWords.{word_of};

use rst_gate::Edge;
use rst_outside::NoMemory;
use std::alloc::Global;
use std::marker::Model;

/// The edges of each signal's bits, lowest first, by the signal's number.
#[derive(Drop)]
pub struct Wires {
    words: Vec<Vec<Edge>>,
}

impl Model for Wires {
    ghost use Rattle.std.specs.Prelude.{List, map};
    ghost use Rattle.std.specs.declared.vec.Vec.{Vec};
    ghost use Rattle.std.specs.declared.alloc.Global.{Global};
    ghost use Rattle.rst_gate.specs.declared.edge.Edge.{Edge};

    ghost Value = { List (List Edge) };

    ghost view = { λ w. map (λ (v : Vec Edge Global). v.items) w.words.items };
}

impl Wires {
    /// No signals yet.
    pub fn new(alloc: Global) -> Wires
        ensures { result ≡ [] }
    {
        Wires {
            words: Vec::new(alloc),
        }
    }

    /// One more signal, numbered next, with these edges.
    #[tactic(auto, using(crate::proofs::Loops::words_push))]
    pub fn push(&mut self, word: Vec<Edge>) -> Result<(), NoMemory>
        ensures { IfOk result (λ _. self.new ≡ self.old ++ word.items ∷ []) }
    {
        self.words.push(word)?;
        Ok(())
    }

    /// The edges of a signal's bits, lowest first.
    #[tactic(auto, using(crate::proofs::Loops::words_length, crate::proofs::Loops::words_read))]
    pub fn word(&self, signal: u32) -> &[Edge]
        requires { signal < length self.now }
        ensures { result.now ≡ word_of self.now signal }
    {
        self.words[signal as usize].as_slice()
    }

    /// How many signals there are.
    #[tactic(auto, using(crate::proofs::Loops::words_length))]
    pub fn len(&self) -> usize
        ensures { result ≡ length self.now }
    {
        self.words.len()
    }

    /// A signal's edges in place of those that it had.
    #[tactic(auto, using(crate::proofs::Loops::words_length, crate::proofs::Loops::words_set))]
    pub fn replace(&mut self, signal: u32, word: Vec<Edge>)
        requires { signal < length self.old }
        ensures { self.new ≡ slice_set self.old signal word.items }
    {
        self.words[signal as usize] = word;
    }
}
