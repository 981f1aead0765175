// Why a file gives no certificate.
use rst_cert_reader::CertFault;
use rst_outside::{LoadError, NoMemory};

/// Why a file gives no certificate.
#[derive(Clone, Copy, Debug, PartialEq, Eq)]
pub enum TakeFault {
    /// The file wasn't read to its end.
    Load(LoadError),
    /// Its text isn't a certificate. This is never the fault of memory, which is a load's.
    Text(CertFault),
}

impl From<LoadError> for TakeFault {
    ghost use Rattle.std.specs.Prelude.{◌≡◌};
    ghost use Rattle.rst_take.specs.declared.fault.TakeFault.TheVariants.{Load};

    ghost from_gives = { λ fault e. e ≡ Load fault };

    fn from(fault: LoadError) -> TakeFault {
        TakeFault::Load(fault)
    }
}

impl From<NoMemory> for TakeFault {
    ghost use Rattle.std.specs.Prelude.{◌≡◌};
    ghost use Rattle.rst_outside.specs.declared.desk.LoadError.TheVariants as errors;
    ghost use Rattle.rst_take.specs.declared.fault.TakeFault.TheVariants.{Load};

    ghost from_gives = { λ _ e. e ≡ Load errors.NoMemory };

    fn from(_: NoMemory) -> TakeFault {
        TakeFault::Load(LoadError::NoMemory)
    }
}
