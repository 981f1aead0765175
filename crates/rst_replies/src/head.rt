// The report and the certificate of a verdict.
ghost use Rattle.std.specs.Prelude.{◌≡◌, IfOk};
ghost use Rattle.rst_net.specs.declared.signal.Role.TheVariants as role;
ghost use Rattle.rst_ports.specs.Ports.{ports_with};
ghost use Rattle.rst_report.specs.Heads.{KeepsLimits};
ghost use Rattle.rst_script.specs.Scripts.{plain_script};
ghost use Rattle.rst_design.specs.Netlists.{plain_net};
ghost use Rattle.rst_replies.specs.Replies.{head_for, report_for, cert_for};

use rst_flow::Net;
use rst_outside::{Bytes, Name, NoMemory};
use rst_ports::{inputs, outputs, registers};
use rst_report::{Head, report_text, width_sum};
use rst_report_json::report_json;
use rst_script::Script;
use rst_verdict::{Cert, Verdict};
use std::alloc::Global;

// Form 2 numbers shared gates.
const FORM: u32 = 2;

/// The head of a report.
pub(crate) fn head(alloc: Global, top: &str, budget: u32, net: &Net) -> Result<Head, NoMemory>
    ensures head { IfOk result (λ head. head ≡ head_for top.now budget (ports_with role.Input (plain_net net.now).signals) (plain_net net.now)) }
    ensures limits { IfOk result KeepsLimits }
{
    let name = Name::new(alloc, top.as_bytes())?;
    let outs = outputs(alloc, net.signals.as_slice(), net.outputs.as_slice())?;
    let states = registers(alloc, net.signals.as_slice())?;
    let ins = inputs(alloc, net.signals.as_slice())?;
    Ok(Head {
        top: name,
        inputs: ins,
        outputs: outs,
        registers: states,
        budget,
    })
}

/// The report of a verdict, as text or JSON.
pub(crate) fn report(
    alloc: Global,
    json: bool,
    head: &Head,
    verdict: &Verdict,
) -> Result<Bytes, NoMemory>
    requires { KeepsLimits head.now }
    ensures { IfOk result (λ text. text ≡ report_for json head.now verdict.now) }
{
    if json {
        report_json(alloc, head, verdict)
    } else {
        report_text(alloc, head, verdict)
    }
}

// A copy of the clock's name, if the design has one.
fn clock(alloc: Global, script: &Script) -> Result<Option<Name>, NoMemory>
    ensures { IfOk result (λ name. name ≡ (plain_script script.now).clock) }
{
    match &script.clock {
        Some(name) => Ok(Some(Name::new(alloc, name.as_slice())?)),
        None => Ok(None),
    }
}

/// The certificate of a verdict.
pub(crate) fn certificate(
    alloc: Global,
    script: &Script,
    head: &Head,
    verdict: Verdict,
) -> Result<Box<Cert>, NoMemory>
    requires { KeepsLimits head.now }
    ensures { IfOk result (λ cert. cert.value ≡ cert_for (plain_script script.now) head.now verdict) }
{
    let name = match clock(alloc, script) {
        Ok(name) => name,
        Err(error) => {
            drop(verdict);
            return Err(error);
        }
    };
    let cert = Cert {
        version: script.version,
        form: FORM,
        clock: name,
        registers: width_sum(head.registers.as_slice()) as u32,
        inputs: width_sum(head.inputs.as_slice()) as u32,
        outputs: width_sum(head.outputs.as_slice()) as u32,
        verdict,
    };
    Ok(Box::new(alloc, cert)?)
}
