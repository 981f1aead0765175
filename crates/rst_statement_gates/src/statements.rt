// The gates of statements, which change the wires in place.
ghost use Rattle.std.specs.Prelude.{◌≡◌, ◌+◌, ◌^◌, ◌≤◌, ℕ, false, true, not, length, OnOk, IfOk};
ghost use Rattle.std.specs.List.{All, AllByRecursion};
ghost use Rattle.rst_gate.specs.Circuits.{IsBelow};
ghost use Rattle.rst_gate.specs.GateLists.{next_node};
ghost use Rattle.rst_width.specs.Typed.{plain_typed};
ghost use Rattle.rst_net.specs.Statements.{Set, no_arm, plain_set, plain_stmt, plain_stmts, plain_arms, plain_case};
ghost use Rattle.rst_cycle.specs.Effects.{target_width};
ghost use Rattle.rst_terms.specs.declared.kinds.Connective.TheVariants.{Or};
ghost use Rattle.rst_terms.specs.Recurrences.{reduced};
ghost use Rattle.rst_word_gates.specs.GateAlgebra.{gates_so_far};
ghost use Rattle.rst_typed_terms.specs.Expressions.{expression_bits};
ghost use Rattle.rst_typed_terms.specs.Weights.{expression_weight};
ghost use Rattle.rst_lower.specs.WireWords.{widths_of, WiresStand};
ghost use Rattle.rst_statement_terms.specs.Targets.{with_slice, with_target};
ghost use Rattle.rst_statement_terms.specs.Statements.{seen, Held, Current, statement_bits, all_bits, default_bits};
ghost use Rattle.rst_statement_terms.specs.Weights.{statement_weight, all_weight, arms_weight, default_weight};
ghost use Rattle.rst_statement_values.specs.Fits.{ExpressionFits, SliceInside, SetFits, StatementFits, AllFit, ArmsFit, DefaultFits, blocking_of};
ghost use Rattle.rst_statement_gates.specs.Sights.{sight_of, AreWires};
ghost use Rattle.rst_statement_gates.specs.Plain.{plain_default};
ghost use Rattle.rst_statement_gates.specs.Marks.{Ascend, CoversSets, mark_statement, chain_marks};
ghost use Rattle.rst_statement_gates.specs.Choices.{IsReady};
ghost use Rattle.rst_statement_gates.specs.Chains.{ArmsLeft, Keeps, case_bits, no_more};

use crate::labels::{arm_test, condition, read};
use crate::marks::{Chain, Mark, branch_marks, chain_of};
use crate::waiting::{Waiting, choice, merge, merge_all, turn_back};
use rst_gate::{Edge, GateBuilder};
use rst_lower::Wires;
use rst_net::{Slice, TypedArm, TypedCase, TypedSet, TypedStmt};
use rst_outside::NoMemory;
use std::alloc::Global;

// How many bits a target has, at most `most`.
fn target_width(target: &[Slice], most: usize) -> usize
    requires { target_width target.now ≤ most }
    ensures { result ≡ target_width target.now }
{
    let _most = most;
    let mut sum = 0;
    for slice in target {
        sum += slice.width as usize;
    }
    sum
}

// The bits of a slice in place of those that it had.
#[tactic(auto, using(crate::proofs::Tables::there))]
fn put_slice(alloc: Global, wires: &mut Wires, slice: Slice, part: &[Edge]) -> Result<(), NoMemory>
    requires inside { SliceInside (widths_of wires.old) slice }
    requires wide { slice.width ≤ length part.now }
    ensures { OnOk result (wires.new ≡ with_slice slice part.now wires.old) }
{
    let word = wires.word(slice.signal);
    let low = slice.low as usize;
    let width = slice.width as usize;
    let mut bits = Vec::from_slice(alloc, &word[..low])?;
    bits.extend_from_slice(&part[..width])?;
    bits.extend_from_slice(&word[low + width..])?;
    wires.replace(slice.signal, bits);
    Ok(())
}

// A target set to a word.
fn put_target(
    alloc: Global,
    wires: &mut Wires,
    target: &[Slice],
    part: &[Edge],
) -> Result<(), NoMemory>
    requires inside { AllByRecursion (SliceInside (widths_of wires.old)) target.now }
    requires wide { target_width target.now ≤ length part.now }
    ensures { OnOk result (wires.new ≡ with_target target.now part.now wires.old) }
{
    let mut left = target_width(target, part.len());
    for slice in target {
        left -= slice.width as usize;
        put_slice(alloc, wires, *slice, &part[left..])?;
    }
    Ok(())
}

// A set: its value, and then the target's bits.
fn set(
    alloc: Global,
    gates: &mut GateBuilder,
    held: &Wires,
    clocked: bool,
    wires: &mut Wires,
    set: &TypedSet,
) -> Result<(), NoMemory>
    requires fit { SetFits (widths_of wires.old) (blocking_of (sight_of clocked held.now)) (plain_set set.now) }
    requires are { AreWires (next_node gates.old) clocked held.now wires.old }
    requires room { next_node gates.old + expression_weight (widths_of wires.old) (plain_set set.now).value ≤ 2 ^ 31 }
    ensures gates { OnOk result (gates.new ≡ (expression_bits gates_so_far (seen (sight_of clocked held.now) wires.old) gates.old (plain_set set.now).value).0) }
    ensures wires { OnOk result (wires.new ≡ with_target (plain_set set.now).target (expression_bits gates_so_far (seen (sight_of clocked held.now) wires.old) gates.old (plain_set set.now).value).1 wires.old) }
    ensures stand { OnOk result (WiresStand (next_node gates.new) wires.new) }
    ensures grows { OnOk result (next_node gates.old ≤ next_node gates.new) }
    ensures few { OnOk result (next_node gates.new ≤ next_node gates.old + expression_weight (widths_of wires.old) (plain_set set.now).value) }
{
    let value = read(alloc, gates, held, clocked, wires, &set.value)?;
    put_target(alloc, wires, set.target.as_slice(), value.as_slice())
}

// A branch that others follow: the wires are put back, and the branch's words of the marked signals wait for the choice.
#[cycle(lowering)]
fn first_branch(
    deep: u32,
    alloc: Global,
    gates: &mut GateBuilder,
    held: &Wires,
    clocked: bool,
    wires: &mut Wires,
    test: Edge,
    marks: Vec<Mark>,
    body: &TypedStmt,
) -> Result<Waiting, NoMemory>
    requires fit { StatementFits (widths_of wires.old) (blocking_of (sight_of clocked held.now)) (plain_stmt body.now) }
    requires are { AreWires (next_node gates.old) clocked held.now wires.old }
    requires test_stands { IsBelow (next_node gates.old) test }
    requires ascend { Ascend 0 (length wires.old) marks.items }
    requires marked { CoversSets (length wires.old) (plain_stmt body.now) marks.items }
    requires room { next_node gates.old + statement_weight (widths_of wires.old) (length wires.old) (plain_stmt body.now) ≤ 2 ^ 31 }
    ensures gates { OnOk result (gates.new ≡ (statement_bits gates_so_far (sight_of clocked held.now) gates.old wires.old (plain_stmt body.now)).0) }
    ensures back { OnOk result (wires.new ≡ wires.old) }
    ensures kept { IfOk result (λ w. Keeps test marks.items (statement_bits gates_so_far (sight_of clocked held.now) gates.old wires.old (plain_stmt body.now)).1 w) }
    ensures ready { IfOk result (λ w. IsReady (next_node gates.new) (length wires.old) (widths_of wires.old) w) }
    ensures grows { OnOk result (next_node gates.old ≤ next_node gates.new) }
    ensures few { OnOk result (next_node gates.new ≤ next_node gates.old + statement_weight (widths_of wires.old) (length wires.old) (plain_stmt body.now)) }
{
    if deep == 0 {
        return Err(NoMemory);
    }
    let below = deep - 1;
    let waiting = choice(alloc, wires, test, marks)?;
    statement(below, alloc, gates, held, clocked, wires, body)?;
    turn_back(alloc, wires, waiting)
}

// The gates of a statement, where a clocked block reads the wires `held`. Calls below go at most `deep` levels down.
#[cycle(lowering)]
#[tactic(auto, using(crate::proofs::Rows::rows))]
fn statement(
    deep: u32,
    alloc: Global,
    gates: &mut GateBuilder,
    held: &Wires,
    clocked: bool,
    wires: &mut Wires,
    stmt: &TypedStmt,
) -> Result<(), NoMemory>
    requires fit { StatementFits (widths_of wires.old) (blocking_of (sight_of clocked held.now)) (plain_stmt stmt.now) }
    requires are { AreWires (next_node gates.old) clocked held.now wires.old }
    requires room { next_node gates.old + statement_weight (widths_of wires.old) (length wires.old) (plain_stmt stmt.now) ≤ 2 ^ 31 }
    ensures gates { OnOk result (gates.new ≡ (statement_bits gates_so_far (sight_of clocked held.now) gates.old wires.old (plain_stmt stmt.now)).0) }
    ensures wires { OnOk result (wires.new ≡ (statement_bits gates_so_far (sight_of clocked held.now) gates.old wires.old (plain_stmt stmt.now)).1) }
    ensures stand { OnOk result (WiresStand (next_node gates.new) wires.new) }
    ensures grows { OnOk result (next_node gates.old ≤ next_node gates.new) }
    ensures few { OnOk result (next_node gates.new ≤ next_node gates.old + statement_weight (widths_of wires.old) (length wires.old) (plain_stmt stmt.now)) }
{
    if deep == 0 {
        return Err(NoMemory);
    }
    let below = deep - 1;
    match stmt {
        TypedStmt::Block(parts) => all(below, alloc, gates, held, clocked, wires, parts),
        TypedStmt::If(asked, first, second) => {
            let test = condition(alloc, gates, held, clocked, wires, asked)?;
            let marks = branch_marks(alloc, wires.len(), first, second)?;
            let waiting = first_branch(
                below, alloc, gates, held, clocked, wires, test, marks, first,
            )?;
            statement(below, alloc, gates, held, clocked, wires, second)?;
            merge(alloc, gates, wires, &waiting)
        }
        TypedStmt::Case(case) => case_statement(below, alloc, gates, held, clocked, wires, case),
        TypedStmt::Set(one) => set(alloc, gates, held, clocked, wires, one),
        TypedStmt::Empty => Ok(()),
    }
}

// Statements in order.
#[cycle(lowering)]
fn all(
    deep: u32,
    alloc: Global,
    gates: &mut GateBuilder,
    held: &Wires,
    clocked: bool,
    wires: &mut Wires,
    parts: &[TypedStmt],
) -> Result<(), NoMemory>
    requires fit { AllFit (widths_of wires.old) (blocking_of (sight_of clocked held.now)) (plain_stmts parts.now) }
    requires are { AreWires (next_node gates.old) clocked held.now wires.old }
    requires room { next_node gates.old + all_weight (widths_of wires.old) (length wires.old) (plain_stmts parts.now) ≤ 2 ^ 31 }
    ensures gates { OnOk result (gates.new ≡ (all_bits gates_so_far (sight_of clocked held.now) gates.old wires.old (plain_stmts parts.now)).0) }
    ensures wires { OnOk result (wires.new ≡ (all_bits gates_so_far (sight_of clocked held.now) gates.old wires.old (plain_stmts parts.now)).1) }
    ensures stand { OnOk result (WiresStand (next_node gates.new) wires.new) }
    ensures grows { OnOk result (next_node gates.old ≤ next_node gates.new) }
    ensures few { OnOk result (next_node gates.new ≤ next_node gates.old + all_weight (widths_of wires.old) (length wires.old) (plain_stmts parts.now)) }
{
    if deep == 0 {
        return Err(NoMemory);
    }
    let below = deep - 1;
    for part in parts {
        statement(below, alloc, gates, held, clocked, wires, part)?;
    }
    Ok(())
}

// A case: its selector, its arms in order, its default, and then the choices from the last arm to the first.
#[cycle(lowering)]
#[tactic(auto, using(crate::proofs::Rows::cases))]
fn case_statement(
    deep: u32,
    alloc: Global,
    gates: &mut GateBuilder,
    held: &Wires,
    clocked: bool,
    wires: &mut Wires,
    case: &TypedCase,
) -> Result<(), NoMemory>
    requires fit { StatementFits (widths_of wires.old) (blocking_of (sight_of clocked held.now)) (plain_case case.now) }
    requires are { AreWires (next_node gates.old) clocked held.now wires.old }
    requires room { next_node gates.old + statement_weight (widths_of wires.old) (length wires.old) (plain_case case.now) ≤ 2 ^ 31 }
    ensures gates { OnOk result (gates.new ≡ (statement_bits gates_so_far (sight_of clocked held.now) gates.old wires.old (plain_case case.now)).0) }
    ensures wires { OnOk result (wires.new ≡ (statement_bits gates_so_far (sight_of clocked held.now) gates.old wires.old (plain_case case.now)).1) }
    ensures stand { OnOk result (WiresStand (next_node gates.new) wires.new) }
    ensures grows { OnOk result (next_node gates.old ≤ next_node gates.new) }
    ensures few { OnOk result (next_node gates.new ≤ next_node gates.old + statement_weight (widths_of wires.old) (length wires.old) (plain_case case.now)) }
{
    if deep == 0 {
        return Err(NoMemory);
    }
    let below = deep - 1;
    let selector = read(alloc, gates, held, clocked, wires, &case.selector)?;
    let chain = chain_of(alloc, &case.arms, &case.otherwise, wires.len())?;
    let waiting = arms(
        below,
        alloc,
        gates,
        held,
        clocked,
        wires,
        selector.as_slice(),
        case.full,
        &case.arms,
        &case.otherwise,
        chain,
    )?;
    default(below, alloc, gates, held, clocked, wires, &case.otherwise)?;
    merge_all(alloc, gates, wires, waiting)
}

// The statement of a default, if there is one.
#[cycle(lowering)]
fn default(
    deep: u32,
    alloc: Global,
    gates: &mut GateBuilder,
    held: &Wires,
    clocked: bool,
    wires: &mut Wires,
    otherwise: &Option<Box<TypedStmt>>,
) -> Result<(), NoMemory>
    requires fit { DefaultFits (widths_of wires.old) (blocking_of (sight_of clocked held.now)) (plain_default otherwise.now) }
    requires are { AreWires (next_node gates.old) clocked held.now wires.old }
    requires room { next_node gates.old + default_weight (widths_of wires.old) (length wires.old) (plain_default otherwise.now) ≤ 2 ^ 31 }
    ensures gates { OnOk result (gates.new ≡ (default_bits gates_so_far (sight_of clocked held.now) gates.old wires.old (plain_default otherwise.now)).0) }
    ensures wires { OnOk result (wires.new ≡ (default_bits gates_so_far (sight_of clocked held.now) gates.old wires.old (plain_default otherwise.now)).1) }
    ensures stand { OnOk result (WiresStand (next_node gates.new) wires.new) }
    ensures grows { OnOk result (next_node gates.old ≤ next_node gates.new) }
    ensures few { OnOk result (next_node gates.new ≤ next_node gates.old + default_weight (widths_of wires.old) (length wires.old) (plain_default otherwise.now)) }
{
    if deep == 0 {
        return Err(NoMemory);
    }
    let below = deep - 1;
    match otherwise {
        Some(stmt) => statement(below, alloc, gates, held, clocked, wires, stmt),
        None => Ok(()),
    }
}

// Whether an arm is tested, behind which so many arms stand.
fn is_tested(full: bool, left: usize, otherwise: &Option<Box<TypedStmt>>) -> bool
    ensures { result ≡ not (no_more full left (plain_default otherwise.now)) }
{
    match otherwise {
        Some(_) => true,
        None => !(full && left == 0),
    }
}

// The arms of a case in order, and the choices behind them. The last arm of a full case without a default isn't tested.
#[cycle(lowering)]
fn arms(
    deep: u32,
    alloc: Global,
    gates: &mut GateBuilder,
    held: &Wires,
    clocked: bool,
    wires: &mut Wires,
    selector: &[Edge],
    full: bool,
    arms: &[TypedArm],
    otherwise: &Option<Box<TypedStmt>>,
    chain: Chain,
) -> Result<Vec<Waiting>, NoMemory>
    requires fit { ArmsFit (widths_of wires.old) (blocking_of (sight_of clocked held.now)) (length selector.now) (plain_arms arms.now) }
    requires are { AreWires (next_node gates.old) clocked held.now wires.old }
    requires selector_stands { All (IsBelow (next_node gates.old)) selector.now }
    requires default_fit { DefaultFits (widths_of wires.old) (blocking_of (sight_of clocked held.now)) (plain_default otherwise.now) }
    requires chain { chain ≡ chain_marks (length wires.old) (plain_arms arms.now) (plain_default otherwise.now) }
    requires room { next_node gates.old + arms_weight (widths_of wires.old) (length wires.old) (length selector.now) (case_bits (length wires.old) (plain_arms arms.now) (plain_default otherwise.now)) (plain_arms arms.now) ≤ 2 ^ 31 }
    ensures { IfOk result (λ waiting. ArmsLeft clocked held.now selector.now full (plain_default otherwise.now) (case_bits (length wires.old) (plain_arms arms.now) (plain_default otherwise.now))
        gates.old wires.old (plain_arms arms.now) gates.new wires.new no_arm waiting.items) }
{
    if deep == 0 {
        return Err(NoMemory);
    }
    let below = deep - 1;
    let mut chain = chain;
    let mut waiting = Vec::new(alloc);
    let mut left = arms.len();
    for arm in arms {
        let marks = chain.pop(alloc);
        left -= 1;
        let asks = is_tested(full, left, otherwise);
        if asks {
            let labels = arm.labels.as_slice();
            let test = arm_test(alloc, gates, held, clocked, wires, selector, labels)?;
            let one = choice(alloc, wires, test, marks)?;
            statement(below, alloc, gates, held, clocked, wires, &arm.body)?;
            let other = turn_back(alloc, wires, one)?;
            waiting.push(other)?;
        } else {
            statement(below, alloc, gates, held, clocked, wires, &arm.body)?;
        }
    }
    Ok(waiting)
}

/// The gates of an assign or a link, with the wires changed in place.
pub fn assign(
    alloc: Global,
    gates: &mut GateBuilder,
    wires: &mut Wires,
    one: &TypedSet,
) -> Result<(), NoMemory>
    requires fit { StatementFits (widths_of wires.old) true (Set (plain_set one.now)) }
    requires stand { WiresStand (next_node gates.old) wires.old }
    requires at_most_64 { (i : ℕ) → widths_of wires.old i ≤ 64 }
    requires room { next_node gates.old + statement_weight (widths_of wires.old) (length wires.old) (Set (plain_set one.now)) ≤ 2 ^ 31 }
    ensures gates { OnOk result (gates.new ≡ (statement_bits gates_so_far Current gates.old wires.old (Set (plain_set one.now))).0) }
    ensures wires { OnOk result (wires.new ≡ (statement_bits gates_so_far Current gates.old wires.old (Set (plain_set one.now))).1) }
    ensures stand { OnOk result (WiresStand (next_node gates.new) wires.new) }
    ensures widths { OnOk result (widths_of wires.new ≡ widths_of wires.old) }
    ensures count { OnOk result (length wires.new ≡ length wires.old) }
    ensures grows { OnOk result (next_node gates.old ≤ next_node gates.new) }
    ensures few { OnOk result (next_node gates.new ≤ next_node gates.old + statement_weight (widths_of wires.old) (length wires.old) (Set (plain_set one.now))) }
{
    let none = Wires::new(alloc);
    set(alloc, gates, &none, false, wires, one)
}

/// The gates of a statement of a combinational block, whose reads see what was set last, with the wires changed in place.
pub fn combinational(
    alloc: Global,
    gates: &mut GateBuilder,
    wires: &mut Wires,
    stmt: &TypedStmt,
) -> Result<(), NoMemory>
    requires fit { StatementFits (widths_of wires.old) true (plain_stmt stmt.now) }
    requires stand { WiresStand (next_node gates.old) wires.old }
    requires at_most_64 { (i : ℕ) → widths_of wires.old i ≤ 64 }
    requires room { next_node gates.old + statement_weight (widths_of wires.old) (length wires.old) (plain_stmt stmt.now) ≤ 2 ^ 31 }
    ensures gates { OnOk result (gates.new ≡ (statement_bits gates_so_far Current gates.old wires.old (plain_stmt stmt.now)).0) }
    ensures wires { OnOk result (wires.new ≡ (statement_bits gates_so_far Current gates.old wires.old (plain_stmt stmt.now)).1) }
    ensures stand { OnOk result (WiresStand (next_node gates.new) wires.new) }
    ensures widths { OnOk result (widths_of wires.new ≡ widths_of wires.old) }
    ensures count { OnOk result (length wires.new ≡ length wires.old) }
    ensures grows { OnOk result (next_node gates.old ≤ next_node gates.new) }
    ensures few { OnOk result (next_node gates.new ≤ next_node gates.old + statement_weight (widths_of wires.old) (length wires.old) (plain_stmt stmt.now)) }
{
    let none = Wires::new(alloc);
    statement(u32::MAX, alloc, gates, &none, false, wires, stmt)
}

/// The gates of a statement of a clocked block, whose reads see the wires `held`, with the wires changed in place.
pub fn clocked(
    alloc: Global,
    gates: &mut GateBuilder,
    held: &Wires,
    wires: &mut Wires,
    stmt: &TypedStmt,
) -> Result<(), NoMemory>
    requires fit { StatementFits (widths_of wires.old) false (plain_stmt stmt.now) }
    requires stand { WiresStand (next_node gates.old) wires.old }
    requires held_stand { WiresStand (next_node gates.old) held.now }
    requires widths { widths_of held.now ≡ widths_of wires.old }
    requires at_most_64 { (i : ℕ) → widths_of wires.old i ≤ 64 }
    requires room { next_node gates.old + statement_weight (widths_of wires.old) (length wires.old) (plain_stmt stmt.now) ≤ 2 ^ 31 }
    ensures gates { OnOk result (gates.new ≡ (statement_bits gates_so_far (Held held.now) gates.old wires.old (plain_stmt stmt.now)).0) }
    ensures wires { OnOk result (wires.new ≡ (statement_bits gates_so_far (Held held.now) gates.old wires.old (plain_stmt stmt.now)).1) }
    ensures stand { OnOk result (WiresStand (next_node gates.new) wires.new) }
    ensures widths { OnOk result (widths_of wires.new ≡ widths_of wires.old) }
    ensures count { OnOk result (length wires.new ≡ length wires.old) }
    ensures grows { OnOk result (next_node gates.old ≤ next_node gates.new) }
    ensures few { OnOk result (next_node gates.new ≤ next_node gates.old + statement_weight (widths_of wires.old) (length wires.old) (plain_stmt stmt.now)) }
{
    statement(u32::MAX, alloc, gates, held, true, wires, stmt)
}
