// Faults of a design: of its elaboration and of its netlist.

ghost use Rattle.std.specs.Prelude.{◌≡◌, Some};
ghost use Rattle.rst_names.specs.Faults.{plain_fault};
ghost use Rattle.rst_reject.specs.declared.stop.Stop.TheVariants.{Rejected};
ghost use Rattle.rst_reject.specs.Rejects.{in_design, IfRejected};
ghost use Rattle.rst_causes.specs.Causes.{elaboration_code, elaboration_reject, flow_reject};

use rst_flow::FlowError;
use rst_names::{ElabCode, ElabFault};
use rst_outside::Name;
use rst_reject::{Code, Reject, Stop};
use std::alloc::Global;

fn code_of(code: ElabCode) -> Code
    ensures { result ≡ elaboration_code code }
{
    match code {
        ElabCode::TwoModules => Code::TwoModules,
        ElabCode::NoTop => Code::NoTop,
        ElabCode::NoModule => Code::NoModule,
        ElabCode::Recursive => Code::Recursive,
        ElabCode::Twice => Code::Twice,
        ElabCode::BadPort => Code::BadPort,
        ElabCode::NoName => Code::NoName,
        ElabCode::BadConnect => Code::BadConnect,
        ElabCode::NoParameter => Code::NoParameter,
        ElabCode::NotConstant => Code::NotConstant,
        ElabCode::ZeroDivisor => Code::ZeroDivisor,
        ElabCode::TooWide => Code::TooWide,
        ElabCode::ZeroWidth => Code::ZeroWidth,
        ElabCode::BadSelect => Code::BadSelect,
        ElabCode::MayLeaveRange => Code::MayLeaveRange,
        ElabCode::BadRange => Code::BadRange,
        ElabCode::BadTarget => Code::BadTarget,
        ElabCode::PortWidth => Code::PortWidth,
        ElabCode::ClockMissing => Code::ClockMissing,
        ElabCode::Edges => Code::Edges,
        ElabCode::ClockMisused => Code::ClockMisused,
        ElabCode::ResetMisused => Code::ResetMisused,
        ElabCode::ManyDrivers => Code::ManyDrivers,
        ElabCode::Undriven => Code::Undriven,
        ElabCode::Limit => Code::Limit,
    }
}

/// The refusal of a design that has this fault.
pub fn elaboration_stop(fault: ElabFault) -> Stop
    ensures { result ≡ Rejected (elaboration_reject (plain_fault fault)) }
{
    let ElabFault { code, name, number } = fault;
    Stop::Rejected(Reject {
        code: code_of(code),
        file: None,
        name,
        number,
    })
}

// The refusal at a signal.
fn signal_stop(code: Code, name: Name) -> Stop
    ensures { result ≡ Rejected (in_design code name 0) }
{
    Stop::Rejected(Reject {
        code,
        file: None,
        name,
        number: 0,
    })
}

/// The refusal of a flat design that has no netlist.
pub fn flow_stop(alloc: Global, error: FlowError) -> Stop
    ensures { IfRejected result (λ r. flow_reject error ≡ Some r) }
{
    match error {
        FlowError::Blocking(name) => signal_stop(Code::Blocking, name),
        FlowError::Sensitivity(name) => signal_stop(Code::Sensitivity, name),
        FlowError::Latch(name) => signal_stop(Code::Latch, name),
        FlowError::Loop(name) => signal_stop(Code::Loop, name),
        FlowError::Limit => Stop::in_design(alloc, Code::Limit, b"Weight", 0),
        FlowError::NoMemory => Stop::NoMemory,
    }
}
