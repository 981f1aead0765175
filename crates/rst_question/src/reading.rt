// Reads a question from its texts.
ghost use Rattle.std.specs.Prelude.{◌≡◌, ◌≤◌, ◌<◌, ◌+◌, ◌^◌, Ok, Err, Some, None, length, map, vec_len, IfOk, IfErr, IfSome};
ghost use Rattle.std.specs.List.{All};
ghost use Rattle.std.specs.Option.{option_copied};
ghost use Rattle.rst_net.specs.declared.signal.Role.TheVariants as role;
ghost use Rattle.rst_net.specs.Units.{plain_signal};
ghost use Rattle.rst_reject.specs.Rejects.{IfRejected};
ghost use Rattle.rst_reject.specs.Steps.{StopsBy};
ghost use Rattle.rst_script.specs.Scripts.{plain_script};
ghost use Rattle.rst_design.specs.Texts.{texts_of, IsShort};
ghost use Rattle.rst_design.specs.Netlists.{IsNetlistOf};
ghost use Rattle.rst_ports.specs.Ports.{ports_with};
ghost use Rattle.rst_question.specs.Questions.{ScriptGives, FitGives, PlacedDesign, QuestionGives, placed, IsRead};

use crate::question::{Places, Question};
use rst_causes::script_stop;
use rst_design::read_design;
use rst_flow::Net;
use rst_gate::Pattern;
use rst_outside::PortBits;
use rst_ports::inputs;
use rst_reject::{Reject, Stop};
use rst_script::{Script, fit_script, read_script};
use std::alloc::Global;

// The script that a text says.
fn script_of(alloc: Global, place: u16, text: &[u8]) -> Result<Script, Stop>
    requires { length text.now ≤ 1048576 }
    ensures script { IfOk result (λ script. ScriptGives place text.now (Ok (plain_script script))) }
    ensures refused { IfErr result (StopsBy (ScriptGives place text.now)) }
{
    match read_script(alloc, text) {
        Ok(script) => Ok(script),
        Err(fault) => Err(script_stop(alloc, place, fault)),
    }
}

// The pattern that a script gives a design with these inputs.
fn pattern_of(
    alloc: Global,
    place: u16,
    script: &Script,
    ports: &[PortBits],
) -> Result<Pattern, Stop>
    ensures pattern { IfOk result (λ pattern. FitGives place ports.now (plain_script script.now) (Ok pattern)) }
    ensures refused { IfErr result (StopsBy (FitGives place ports.now (plain_script script.now))) }
{
    match fit_script(alloc, script, ports) {
        Ok(pattern) => Ok(pattern),
        Err(fault) => Err(script_stop(alloc, place, fault)),
    }
}

// The name of the clock, if the design has one.
fn clock_of(script: &Script) -> Option<&[u8]>
    ensures { option_copied result ≡ script.now.clock }
{
    match &script.clock {
        Some(name) => Some(name.as_slice()),
        None => None,
    }
}

// A refusal with the place of its file's word.
fn placed(first: u16, reject: Reject) -> Reject
    requires near { first ≤ 4 }
    requires few { IfSome reject.file (λ k. k < 64) }
    ensures { result ≡ placed first reject }
{
    let file = match reject.file {
        Some(k) => Some(first + k),
        None => None,
    };
    Reject { file, ..reject }
}

// The netlist of the design.
fn net_of(
    alloc: Global,
    first: u16,
    sources: &[Vec<u8>],
    top: &[u8],
    clock: Option<&[u8]>,
) -> Result<Net, Stop>
    requires near { first ≤ 4 }
    requires short { All IsShort sources.now }
    requires few { length sources.now ≤ 64 }
    ensures net { IfOk result (IsNetlistOf (texts_of sources.now) top.now (option_copied clock.entry)) }
    ensures refused { IfErr result (StopsBy (PlacedDesign first (texts_of sources.now) top.now (option_copied clock.entry))) }
{
    match read_design(alloc, sources, top, clock) {
        Ok(net) => Ok(net),
        Err(Stop::Rejected(reject)) => Err(Stop::Rejected(placed(first, reject))),
        Err(Stop::NoMemory) => Err(Stop::NoMemory),
    }
}

/// Reads what a script asks of the design of these sources below the module `top`: first the script's text, then the design under the
/// script's clock, then the inputs that the script gives the design. The first that refuses is the refusal. A refusal of a file has
/// the place of the file's word.
///
/// The script's text and each source have at most 1,048,576 bytes, and there are at most 64 sources.
#[tactic(auto, using(crate::proofs::Parts::read_of))]
pub fn read_question(
    alloc: Global,
    places: Places,
    top: &[u8],
    script: &[u8],
    sources: &[Vec<u8>],
) -> Result<Question, Stop>
    requires near { places.sources ≤ 4 }
    requires script { length script.now ≤ 1048576 }
    requires short { All IsShort sources.now }
    requires few { length sources.now ≤ 64 }
    ensures question { IfOk result (IsRead places top.now script.now (texts_of sources.now)) }
    ensures refused { IfErr result (StopsBy (QuestionGives places top.now script.now (texts_of sources.now))) }
{
    let said = match script_of(alloc, places.script, script) {
        Ok(said) => said,
        Err(stop) => return Err(stop),
    };
    let net = match net_of(alloc, places.sources, sources, top, clock_of(&said)) {
        Ok(net) => net,
        Err(stop) => return Err(stop),
    };
    let ports = inputs(alloc, net.signals.as_slice())?;
    let pattern = match pattern_of(alloc, places.script, &said, ports.as_slice()) {
        Ok(pattern) => pattern,
        Err(stop) => return Err(stop),
    };
    Ok(Question {
        script: said,
        net,
        pattern,
    })
}
