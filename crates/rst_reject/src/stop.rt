// Why a call gives nothing.

ghost use Rattle.std.specs.Prelude.{◌≡◌};
ghost use Rattle.rst_reject.specs.declared.stop.Stop.TheVariants.{NoMemory as ran_out};
ghost use Rattle.rst_reject.specs.Rejects.{at_line, at_name, in_design, IfRejected};

use crate::code::Code;
use crate::reject::Reject;
use rst_outside::{Name, NoMemory};
use std::alloc::{AllocError, AllocFailed, Global};

/// Why a call that reads an input gives nothing.
#[derive(Drop)]
pub enum Stop {
    /// The input is refused.
    Rejected(Reject),
    /// Memory ran out.
    NoMemory,
}

impl From<NoMemory> for Stop {
    ghost from_gives = { λ _ stop. stop ≡ ran_out };

    fn from(_: NoMemory) -> Stop {
        Stop::NoMemory
    }
}

impl From<AllocError> for Stop {
    ghost from_gives = { λ _ stop. stop ≡ ran_out };

    fn from(_: AllocError) -> Stop {
        Stop::NoMemory
    }
}

impl<T: Drop> From<AllocFailed<T>> for Stop {
    ghost from_gives = { λ _ stop. stop ≡ ran_out };

    fn from(_: AllocFailed<T>) -> Stop {
        Stop::NoMemory
    }
}

impl Stop {
    /// The refusal of a file at a line of it, counted from 1, or of the whole file, where the line is 0.
    pub fn at_line(alloc: Global, code: Code, file: u16, line: u32) -> Stop
        ensures { IfRejected result (λ r. r ≡ at_line code file line) }
    {
        Stop::at_name(alloc, code, file, b"", line)
    }

    /// The refusal of a file at a line of it, which names something there.
    pub fn at_name(alloc: Global, code: Code, file: u16, name: &[u8], line: u32) -> Stop
        ensures { IfRejected result (λ r. r ≡ at_name code file name.now line) }
    {
        match Name::new(alloc, name) {
            Ok(name) => Stop::Rejected(Reject {
                code,
                file: Some(file),
                name,
                number: line,
            }),
            Err(NoMemory) => Stop::NoMemory,
        }
    }

    /// The refusal of the design at a name, with the number of an item or 0.
    pub fn in_design(alloc: Global, code: Code, name: &[u8], number: u32) -> Stop
        ensures { IfRejected result (λ r. r ≡ in_design code name.now number) }
    {
        match Name::new(alloc, name) {
            Ok(name) => Stop::Rejected(Reject {
                code,
                file: None,
                name,
                number,
            }),
            Err(NoMemory) => Stop::NoMemory,
        }
    }
}
