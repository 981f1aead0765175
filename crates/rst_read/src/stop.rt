// Why no tree was read.

ghost use Rattle.std.specs.Prelude.{◌≡◌};
ghost use Rattle.rst_read.specs.declared.stop.Stop.TheVariants.{NoMemory};

use rst_outside::NoMemory;
use std::alloc::{AllocError, AllocFailed};

/// Why no tree was read: there is none within the height that is allowed, or memory ran out.
#[derive(Clone, Copy, PartialEq, Eq, Debug)]
pub enum Stop {
    NoTree,
    NoMemory,
}

impl From<AllocError> for Stop {
    ghost from_gives = { λ _ e. e ≡ NoMemory };

    fn from(_: AllocError) -> Stop {
        Stop::NoMemory
    }
}

impl<T: Drop> From<AllocFailed<T>> for Stop {
    ghost from_gives = { λ _ e. e ≡ NoMemory };

    fn from(_: AllocFailed<T>) -> Stop {
        Stop::NoMemory
    }
}

impl From<NoMemory> for Stop {
    ghost from_gives = { λ _ e. e ≡ NoMemory };

    fn from(_: NoMemory) -> Stop {
        Stop::NoMemory
    }
}
