// What a script says, and why a text or a script is refused.
ghost use Rattle.std.specs.Prelude.{◌≡◌};
ghost use Rattle.rst_script.specs.declared.script.ScriptFault.TheVariants.{NoMemory};

use rst_outside::Name;
use std::alloc::{AllocError, AllocFailed};

/// What a step says of one input.
#[derive(Drop)]
pub struct Setting {
    /// The input's name.
    pub name: Name,
    /// The input's value in each cycle of the step; nothing where all its bits are free.
    pub value: Option<u64>,
}

/// A step of a script: the same settings in so many clock cycles.
#[derive(Drop)]
pub struct Step {
    /// Its line, counted from 1.
    pub line: u32,
    /// How many clock cycles it has, at least 1.
    pub times: u32,
    /// The settings in the order of the line. Inputs that it doesn't name are 0.
    pub values: Vec<Setting>,
}

/// A script.
#[derive(Drop)]
pub struct Script {
    /// 1 or 2.
    pub version: u32,
    /// The name of the design's clock, or nothing where the design has none.
    pub clock: Option<Name>,
    /// How much work may be done, at most 100,000.
    pub budget: u32,
    /// How many cycles a search may go, from 1 to 128.
    pub bound: u32,
    /// Whether the report is JSON, and not text.
    pub json: bool,
    /// The steps in the order of the text: at most 128 clock cycles in all.
    pub steps: Vec<Step>,
}

/// Why a script is refused, with the line, counted from 1.
#[derive(Clone, Copy, Debug, PartialEq, Eq)]
pub enum ScriptFault {
    /// The line breaks the grammar. Where the text ends too early, it is one more than the number of lines.
    BadLine(u32),
    /// The line has a setting that an earlier line has, or sets an input twice.
    Repeated(u32),
    /// With this line the clock cycles pass 128.
    TooMany(u32),
    /// The line names no input of the design.
    BadName(u32),
    /// The line gives an input a value of more bits than the input has.
    BadValue(u32),
    /// With this line the free bits pass 1,024.
    TooFree(u32),
    /// Memory ran out.
    NoMemory,
}

impl From<rst_outside::NoMemory> for ScriptFault {
    ghost from_gives = { λ _ e. e ≡ NoMemory };

    fn from(_: rst_outside::NoMemory) -> ScriptFault {
        ScriptFault::NoMemory
    }
}

impl From<AllocError> for ScriptFault {
    ghost from_gives = { λ _ e. e ≡ NoMemory };

    fn from(_: AllocError) -> ScriptFault {
        ScriptFault::NoMemory
    }
}

impl<T: Drop> From<AllocFailed<T>> for ScriptFault {
    ghost from_gives = { λ _ e. e ≡ NoMemory };

    fn from(_: AllocFailed<T>) -> ScriptFault {
        ScriptFault::NoMemory
    }
}
