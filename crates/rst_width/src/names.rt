// Names of which some have no width and sign yet.

ghost use Rattle.std.specs.Prelude.{◌≡◌};
ghost use Rattle.rst_tree.specs.Trees.{Text};
ghost use Rattle.rst_width.specs.Scopes.{unshaped_of, names_with};
ghost use Rattle.rst_width.specs.Plain.{plain_meaning};

use crate::scope::{Entry, Scope, SignalShape};
use indexmap::IndexMap;
use rst_outside::Name;
use rst_word::Word;
use std::alloc::Global;

/// A name that is declared, but has no width and sign yet.
#[derive(Clone, Copy, Debug, PartialEq, Eq)]
pub struct Unshaped {
    /// Whether it is declared with a range. Of one without no bit can be selected.
    pub ranged: bool,
}

/// Names without a width and sign yet: signals while the ranges of declarations are worked out, and parameters before their value
/// is.
#[derive(Drop)]
pub struct UnshapedNames {
    pub entries: IndexMap<Name, Unshaped>,
}

// What a name stands for, whether it has a width and sign yet or not.
#[derive(Clone, Copy)]
pub enum Meaning {
    Signal(u32, SignalShape),
    Param(Word),
    Later(Unshaped),
}

impl UnshapedNames {
    /// A table without names. It takes no memory.
    pub fn new(alloc: Global) -> UnshapedNames
        ensures { (name : Text) → unshaped_of result name ≡ None }
    {
        UnshapedNames {
            entries: IndexMap::new(alloc),
        }
    }

    /// What is known of the name, if it is declared.
    pub fn entry(&self, name: &Name) -> Option<Unshaped>
        ensures { result ≡ unshaped_of self.now name.now }
    {
        self.entries.get(name).copied()
    }
}

// What the name stands for: by the scope, or else by the names without a width and sign.
pub fn stands_for(scope: &Scope, unshaped: &UnshapedNames, name: &Name) -> Option<Meaning>
    ensures { plain_meaning result ≡ names_with scope.now unshaped.now name.now }
{
    match scope.entry(name) {
        Some(Entry::Signal(signal, shape)) => Some(Meaning::Signal(signal, shape)),
        Some(Entry::Param(word)) => Some(Meaning::Param(word)),
        None => match unshaped.entry(name) {
            Some(declared) => Some(Meaning::Later(declared)),
            None => None,
        },
    }
}
