// Refusals of elaboration.

ghost use Rattle.std.specs.Prelude.{◌≡◌};
ghost use Rattle.rst_names.specs.declared.faults.ElabError.TheVariants.{NoMemory};
ghost use Rattle.rst_names.specs.Faults.{Tells, fault_at};

use rst_outside::Name;
use std::alloc::{AllocError, AllocFailed, Global};

/// Why a design is refused. `docs/LANGUAGE.md` says where each comes.
#[derive(Clone, Copy, Debug, PartialEq, Eq)]
pub enum ElabCode {
    TwoModules,
    NoTop,
    NoModule,
    Recursive,
    Twice,
    BadPort,
    NoName,
    BadConnect,
    NoParameter,
    NotConstant,
    ZeroDivisor,
    TooWide,
    ZeroWidth,
    BadSelect,
    MayLeaveRange,
    BadRange,
    BadTarget,
    PortWidth,
    ClockMissing,
    Edges,
    ClockMisused,
    ResetMisused,
    ManyDrivers,
    Undriven,
    Limit,
}

/// A refusal: why, at which name, and for some codes the number of an item, else 0.
#[derive(Drop)]
pub struct ElabFault {
    pub code: ElabCode,
    pub name: Name,
    pub number: u32,
}

/// What elaboration answers where it gives no design.
#[derive(Drop)]
pub enum ElabError {
    Fault(ElabFault),
    /// Memory ran out.
    NoMemory,
}

impl From<AllocError> for ElabError {
    ghost from_gives = { λ _ e. e ≡ NoMemory };

    fn from(_: AllocError) -> ElabError {
        ElabError::NoMemory
    }
}

impl<T: Drop> From<AllocFailed<T>> for ElabError {
    ghost from_gives = { λ _ e. e ≡ NoMemory };

    fn from(_: AllocFailed<T>) -> ElabError {
        ElabError::NoMemory
    }
}

impl From<rst_outside::NoMemory> for ElabError {
    ghost from_gives = { λ _ e. e ≡ NoMemory };

    fn from(_: rst_outside::NoMemory) -> ElabError {
        ElabError::NoMemory
    }
}

// The refusal with this code, name and number, unless memory runs out.
pub fn refusal(alloc: Global, code: ElabCode, name: &[u8], number: u32) -> ElabError
    ensures { Tells result (fault_at code name.now number) }
{
    match Name::new(alloc, name) {
        Ok(name) => ElabError::Fault(ElabFault { code, name, number }),
        Err(_) => ElabError::NoMemory,
    }
}
