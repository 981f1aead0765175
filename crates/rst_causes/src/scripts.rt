// Faults of a script.

ghost use Rattle.std.specs.Prelude.{◌≡◌, Some};
ghost use Rattle.rst_reject.specs.Rejects.{IfRejected};
ghost use Rattle.rst_causes.specs.Causes.{script_reject};

use rst_reject::{Code, Stop};
use rst_script::ScriptFault;
use std::alloc::Global;

/// The refusal of a script that has this fault: at its line.
pub fn script_stop(alloc: Global, file: u16, fault: ScriptFault) -> Stop
    ensures { IfRejected result (λ r. script_reject file fault ≡ Some r) }
{
    let (code, line) = match fault {
        ScriptFault::BadLine(line) => (Code::BadLine, line),
        ScriptFault::Repeated(line) => (Code::Repeated, line),
        ScriptFault::TooMany(line) => (Code::TooMany, line),
        ScriptFault::BadName(line) => (Code::BadName, line),
        ScriptFault::BadValue(line) => (Code::BadValue, line),
        ScriptFault::TooFree(line) => (Code::TooFree, line),
        ScriptFault::NoMemory => return Stop::NoMemory,
    };
    Stop::at_line(alloc, code, file, line)
}
