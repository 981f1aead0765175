// What the names of an expression stand for.

ghost use Rattle.std.specs.Prelude.{◌+◌, ◌<◌, ◌≤◌};

use indexmap::IndexMap;
use rst_outside::Name;
use rst_word::Word;

/// How a signal was declared.
#[derive(Clone, Copy, Debug, PartialEq, Eq)]
pub struct SignalShape {
    /// How many bits, 1 to 64.
    pub width: u8,
    /// The number of its lowest bit: `2` in `[9:2]`. With the width it is at most 65,536.
    pub low: u32,
    pub signed: bool,
    /// Whether it was declared with a range. One without is a scalar, of which no bit can be selected.
    pub ranged: bool,
    pub ghost some_bits: { 0 < width },
    pub ghost at_most_64: { width ≤ 64 },
    pub ghost in_reach: { low + width ≤ 65536 },
}

/// What a name stands for.
#[derive(Clone, Copy, Debug, PartialEq, Eq)]
pub enum Entry {
    /// The signal of this number.
    Signal(u32, SignalShape),
    /// A parameter with this value.
    Param(Word),
}

/// The names that an expression may use.
#[derive(Drop)]
pub struct Scope {
    pub entries: IndexMap<Name, Entry>,
}

impl Scope {
    ghost use Rattle.std.specs.Prelude.{◌≡◌};
    ghost use Rattle.rst_width.specs.Scopes.{entry_of};

    /// What the name stands for, if it is declared.
    pub fn entry(&self, name: &Name) -> Option<Entry>
        ensures { result ≡ entry_of self.now name.now }
    {
        self.entries.get(name).copied()
    }
}
