// The replies to a question.
ghost use Rattle.std.specs.Prelude.{◌≡◌, ◌≤◌, ◌++◌, List, IfOk, length, codes};
ghost use Rattle.std.specs.List.{AllByRecursion};
ghost use Rattle.rst_value.specs.declared.tern.Tern.{Tern};
ghost use Rattle.rst_gate.specs.TernMachine.{KnowsPattern};
ghost use Rattle.rst_sim.specs.Trails.{pattern_trail};
ghost use Rattle.rst_text.specs.Lines.{line, counted};
ghost use Rattle.rst_certificate.specs.CertText.{free_bits_of};
ghost use Rattle.rst_relation.specs.Verdicts.{Decides};
ghost use Rattle.rst_report.specs.Heads.{KeepsLimits};
ghost use Rattle.rst_net.specs.declared.signal.Role.TheVariants as role;
ghost use Rattle.rst_script.specs.Scripts.{plain_script};
ghost use Rattle.rst_design.specs.Netlists.{plain_net};
ghost use Rattle.rst_settled.specs.Orderly.{IsOrderly};
ghost use Rattle.rst_design_terms.specs.Gates.{gates_of, input_bits};
ghost use Rattle.rst_known.specs.Readings.{design_terns};
ghost use Rattle.rst_net_gates.specs.Netlists.{IsLowerable};
ghost use Rattle.rst_ports.specs.Ports.{ports_with};
ghost use Rattle.rst_answer.specs.Answers.{plain_due, CertFits};
ghost use Rattle.rst_question.specs.Questions.{Question as Question_, Stands};
ghost use Rattle.rst_replies.specs.Replies.{power_up, head_for, report_for, check_due_for, demo_due_for, shown_due, IsSound, HasOrderedGates, CheckGives, DemoGives};

use crate::head::{certificate, head, report};
use rst_answer::{Answer, Ready, put_only};
use rst_decision::known_states;
use rst_flow::Net;
use rst_gate::{Cube, Pattern};
use rst_net_gates::lower;
use rst_outside::{Bytes, NoMemory};
use rst_ports::registers;
use rst_question::Question;
use rst_relation::decide_check;
use rst_report::{Head, known_rows};
use rst_script::Script;
use rst_sim::TernTrace;
use rst_text::Text;
use rst_verdict::Verdict;
use std::alloc::Global;

// What is due of a verdict: the report, and the certificate to save.
fn checked(
    alloc: Global,
    top: &str,
    script: &Script,
    net: &Net,
    verdict: Verdict,
) -> Result<Ready, NoMemory>
    requires version { script.now.version ≡ 1 → free_bits_of verdict ≡ 0 }
    ensures due { IfOk result (λ ready. plain_due ready ≡ check_due_for top.now (plain_script script.now) (plain_net net.now) verdict) }
    ensures fits { IfOk result CertFits }
{
    let (text, head) = match reported(alloc, top, script, net, &verdict) {
        Ok(found) => found,
        Err(error) => {
            drop(verdict);
            return Err(error);
        }
    };
    let cert = certificate(alloc, script, &head, verdict)?;
    Ok(Ready::Save { cert, text })
}

// The report of a verdict, with its head.
fn reported(
    alloc: Global,
    top: &str,
    script: &Script,
    net: &Net,
    verdict: &Verdict,
) -> Result<(Bytes, Head), NoMemory>
    ensures text { IfOk result (λ it. it.0 ≡ report_for script.now.json it.1 verdict.now) }
    ensures head { IfOk result (λ it. it.1 ≡ head_for top.now script.now.budget (ports_with role.Input (plain_net net.now).signals) (plain_net net.now)) }
    ensures limits { IfOk result (λ it. KeepsLimits it.1) }
{
    let head = head(alloc, top, script.budget, net)?;
    let text = report(alloc, script.json, &head, verdict)?;
    Ok((text, head))
}

// What is due in a demonstration: its number, and the report.
fn numbered(alloc: Global, stages: u8, report: &Bytes) -> Result<Bytes, NoMemory>
    ensures { IfOk result (λ text. text ≡ line (counted (codes "demo") stages) ++ report.now) }
{
    let mut text = Text::new(alloc);
    text.put_count_line(b"demo", u64::from(stages))?;
    text.put(report.as_slice())?;
    text.finish()
}

// What is due in a demonstration of this verdict.
fn demonstrated(
    alloc: Global,
    stages: u8,
    script: &Script,
    net: &Net,
    verdict: Verdict,
) -> Result<Ready, NoMemory>
    ensures fits { IfOk result CertFits }
    ensures due { IfOk result (λ ready. plain_due ready ≡ demo_due_for stages (plain_script script.now) (plain_net net.now) verdict) }
{
    let report = match reported(alloc, "demo", script, net, &verdict) {
        Ok((text, _)) => text,
        Err(error) => {
            drop(verdict);
            return Err(error);
        }
    };
    match numbered(alloc, stages, &report) {
        Ok(text) => put_only(alloc, Answer::Decided(verdict), text),
        Err(error) => {
            drop(verdict);
            Err(error)
        }
    }
}

// A copy of a pattern.
fn copied(alloc: Global, cubes: &[Cube]) -> Result<Pattern, NoMemory>
    ensures { IfOk result (λ own. own ≡ cubes.now) }
{
    let mut own = Pattern::new(alloc);
    for cube in cubes {
        own.push(Cube::from_slice(alloc, cube.as_slice())?)?;
    }
    Ok(own)
}

// The verdict on the pattern of a design, within the budget.
fn decided(alloc: Global, net: &Net, pattern: &Pattern, budget: u32) -> Result<Verdict, NoMemory>
    requires lowerable { IsLowerable (plain_net net.now) }
    requires orderly { IsOrderly (plain_net net.now) }
    requires places { AllByRecursion (λ (places : List Tern). length places ≡ input_bits (plain_net net.now)) pattern.now }
    requires cycles { length pattern.now ≤ 128 }
    requires budget { budget ≤ 100000 }
    ensures verdict { IfOk result (λ verdict. Decides (KnowsPattern (design_terns (plain_net net.now)) pattern.now) (gates_of (plain_net net.now)) pattern.now budget verdict) }
    ensures gates { IfOk result (λ verdict. HasOrderedGates (plain_net net.now)) }
{
    let gates = lower(alloc, net)?;
    let own = copied(alloc, pattern.as_slice())?;
    decide_check(alloc, &gates, own, budget)
}

/// What is due in `check`: a verdict on the question's pattern, with its report and its certificate.
pub fn reply_check(alloc: Global, top: &str, question: &Question) -> Result<Ready, NoMemory>
    requires { IsSound question.now }
    ensures due { IfOk result (λ ready. (q : Question_) → Stands q question.now → CheckGives top.now q (plain_due ready)) }
    ensures fits { IfOk result CertFits }
    ensures gates { IfOk result (λ ready. HasOrderedGates (plain_net question.now.net)) }
{
    let net = &question.net;
    let script = &question.script;
    let verdict = decided(alloc, net, &question.pattern, script.budget)?;
    checked(alloc, top, script, net, verdict)
}

/// What is due in `demo N`: the report behind a line with N. No certificate is saved.
pub fn reply_demo(alloc: Global, stages: u8, question: &Question) -> Result<Ready, NoMemory>
    requires { IsSound question.now }
    ensures due { IfOk result (λ ready. (q : Question_) → Stands q question.now → DemoGives stages q (plain_due ready)) }
    ensures fits { IfOk result CertFits }
    ensures gates { IfOk result (λ ready. HasOrderedGates (plain_net question.now.net)) }
{
    let net = &question.net;
    let script = &question.script;
    let verdict = decided(alloc, net, &question.pattern, script.budget)?;
    demonstrated(alloc, stages, script, net, verdict)
}

// The registers of a design in three values along a pattern.
fn known_trace(alloc: Global, net: &Net, pattern: &Pattern) -> Result<TernTrace, NoMemory>
    requires lowerable { IsLowerable (plain_net net.now) }
    requires places { AllByRecursion (λ (places : List Tern). length places ≡ input_bits (plain_net net.now)) pattern.now }
    ensures gates { IfOk result (λ trace. HasOrderedGates (plain_net net.now)) }
    ensures states { IfOk result (λ trace. trace.states.items ≡ pattern_trail (design_terns (plain_net net.now)) (power_up (plain_net net.now)) pattern.now) }
{
    let gates = lower(alloc, net)?;
    known_states(alloc, &gates, pattern)
}

/// What is due in `known`: the registers in three values, at power-up and behind each cycle of the pattern.
pub fn reply_known(alloc: Global, question: &Question) -> Result<Ready, NoMemory>
    requires { IsSound question.now }
    ensures due { IfOk result (λ ready. (q : Question_) → Stands q question.now → plain_due ready ≡ shown_due q) }
    ensures fits { IfOk result CertFits }
    ensures gates { IfOk result (λ ready. HasOrderedGates (plain_net question.now.net)) }
{
    let trace = known_trace(alloc, &question.net, &question.pattern)?;
    let ports = registers(alloc, question.net.signals.as_slice())?;
    let text = known_rows(alloc, ports.as_slice(), trace.states.as_slice())?;
    put_only(alloc, Answer::Shown, text)
}
