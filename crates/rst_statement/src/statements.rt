// Reading statements, one function for each reader of the grammar's specification.

ghost use Rattle.std.specs.Prelude.{◌≡◌, ◌+◌, ◌≤◌, length, max, IfOk, Some};
ghost use Rattle.std.specs.Option.{option_map};
ghost use Rattle.rst_tree.specs.Trees.{plain};
ghost use Rattle.rst_tree.specs.Statements.{Statement, plain_stmt, height_of};
ghost use Rattle.rst_grammar.specs.Statements.{SpellsStmt};
ghost use Rattle.rst_grammar.specs.Reading.{readers};
ghost use Rattle.rst_grammar.specs.ReadStatement.{target_reader, assignment_at, set_in, else_in, if_in, behind_name, block_name, until_end, block_in, arms_in, some_arms, case_in, stmt_in, stmt_reader};
ghost use Rattle.rst_read.specs.Gives.{Gives};
ghost use Rattle.rst_statement.specs.Seen.{seen_stmt, seen_stmts, seen_arm, seen_arms};
ghost use Rattle.rst_statement.specs.Parts.{default_in, labelled_in, arm_in};

use crate::blocks::{
    and, and_arm, block, case_of, default_arm, default_colon, defaults_left, if_alone, if_else,
    labelled_arm, no_arms, no_stmts,
};
use crate::parsed::{ManyArms, ManyStmts, ParsedArm, ParsedStmt};
use crate::targets::read_target;
use rst_grammar::{Symbol, Terminal};
use rst_read::{MOST_HEIGHT, Parsed, Stop, after, behind, labels_in, read_expression};
use rst_tree::{SetStmt, Stmt};
use std::alloc::Global;

/// What reading a statement answers: the statement with its height, and the symbols behind it.
pub type StmtAnswer<'s, 'a> = Result<(ParsedStmt, &'s [Symbol<'a>]), Stop>;

/// The statement in front, of a height of at most `limit`.
#[cycle(statements)]
pub fn read_statement<'s, 'a>(
    alloc: Global,
    symbols: &'s [Symbol<'a>],
    limit: u8,
) -> StmtAnswer<'s, 'a>
    ensures reads { Gives seen_stmt result (stmt_reader limit symbols.now) }
    ensures within { IfOk result (λ x. x.0.depth ≤ limit) }
{
    if limit == 0 {
        return Err(Stop::NoTree);
    }
    stmt_in(alloc, symbols, limit - 1)
}

#[cycle(statements)]
#[tactic(auto, unfolding(rst_grammar::specs::ReadStatement::stmt_in, rst_grammar::specs::ReadStatement::word_in))]
fn stmt_in<'s, 'a>(alloc: Global, symbols: &'s [Symbol<'a>], below: u8) -> StmtAnswer<'s, 'a>
    ensures reads { Gives seen_stmt result (stmt_in (readers below) (target_reader below) (stmt_reader below) symbols.now) }
    ensures within { IfOk result (λ x. x.0.depth ≤ below + 1) }
{
    match symbols {
        [Symbol::Terminal(Terminal::Begin), rest @ ..] => block_in(alloc, rest, below),
        [Symbol::Terminal(Terminal::Semicolon), rest @ ..] => {
            let stmt = Stmt::Empty;
            Ok((ParsedStmt { stmt, depth: 1 }, rest))
        }
        [Symbol::Terminal(Terminal::If), rest @ ..] => if_in(alloc, rest, below),
        [Symbol::Terminal(Terminal::Case), rest @ ..] => case_in(alloc, false, rest, below),
        [Symbol::Terminal(Terminal::Casez), rest @ ..] => case_in(alloc, true, rest, below),
        _ => set_in(alloc, symbols, below),
    }
}

/// Whether `=` stands in front, or else `<=`.
fn assignment_at<'s, 'a>(symbols: &'s [Symbol<'a>]) -> Option<(bool, &'s [Symbol<'a>])>
    ensures { option_map (λ x. (x.0, x.1.now)) result ≡ assignment_at symbols.now }
{
    match symbols {
        [Symbol::Terminal(Terminal::Equal), rest @ ..] => Some((true, rest)),
        [Symbol::Terminal(Terminal::LessEqual), rest @ ..] => Some((false, rest)),
        _ => None,
    }
}

#[tactic(auto, unfolding(rst_grammar::specs::ReadStatement::set_in))]
fn set_in<'s, 'a>(alloc: Global, symbols: &'s [Symbol<'a>], below: u8) -> StmtAnswer<'s, 'a>
    ensures reads { Gives seen_stmt result (set_in (readers below) (target_reader below) symbols.now) }
    ensures within { IfOk result (λ x. x.0.depth ≤ below + 1) }
{
    let (target, rest) = read_target(alloc, symbols, below)?;
    let Some((blocking, rest)) = assignment_at(rest) else {
        drop(target);
        return Err(Stop::NoTree);
    };
    let (value, rest) = match read_expression(alloc, rest, below) {
        Ok(found) => found,
        Err(stop) => {
            drop(target);
            return Err(stop);
        }
    };
    let Some(rest) = behind(rest, Terminal::Semicolon) else {
        drop((target, value));
        return Err(Stop::NoTree);
    };
    let depth = target.depth.max(value.depth) + 1;
    let stmt = Stmt::Set(SetStmt {
        target: target.target,
        value: value.tree,
        blocking,
    });
    Ok((ParsedStmt { stmt, depth }, rest))
}

#[cycle(statements)]
#[tactic(auto, unfolding(rst_grammar::specs::ReadStatement::if_in))]
fn if_in<'s, 'a>(alloc: Global, rest: &'s [Symbol<'a>], below: u8) -> StmtAnswer<'s, 'a>
    ensures reads { Gives seen_stmt result (if_in (readers below) (stmt_reader below) rest.now) }
    ensures within { IfOk result (λ x. x.0.depth ≤ below + 1) }
{
    let rest = after(rest, Terminal::OpenParen)?;
    let (test, rest) = read_expression(alloc, rest, below)?;
    let Some(rest) = behind(rest, Terminal::CloseParen) else {
        drop(test);
        return Err(Stop::NoTree);
    };
    let (yes, rest) = match read_statement(alloc, rest, below) {
        Ok(found) => found,
        Err(stop) => {
            drop(test);
            return Err(stop);
        }
    };
    else_in(alloc, test, yes, rest, below)
}

#[cycle(statements)]
#[tactic(auto, unfolding(rst_grammar::specs::ReadStatement::else_in))]
fn else_in<'s, 'a>(
    alloc: Global,
    test: Parsed,
    yes: ParsedStmt,
    rest: &'s [Symbol<'a>],
    below: u8,
) -> StmtAnswer<'s, 'a>
    requires test_within { test.depth ≤ below }
    requires yes_within { yes.depth ≤ below }
    ensures reads { Gives seen_stmt result (else_in (stmt_reader below) (plain test.tree) (plain_stmt yes.stmt) rest.now) }
    ensures within { IfOk result (λ x. x.0.depth ≤ below + 1) }
{
    let [Symbol::Terminal(Terminal::Else), rest @ ..] = rest else {
        let depth = test.depth.max(yes.depth) + 1;
        let stmt = if_alone(alloc, test.tree, yes.stmt)?;
        return Ok((ParsedStmt { stmt, depth }, rest));
    };
    let (no, rest) = match read_statement(alloc, rest, below) {
        Ok(found) => found,
        Err(stop) => {
            drop((test, yes));
            return Err(stop);
        }
    };
    let depth = test.depth.max(yes.depth.max(no.depth)) + 1;
    let stmt = if_else(alloc, test.tree, yes.stmt, no.stmt)?;
    Ok((ParsedStmt { stmt, depth }, rest))
}

fn behind_name<'s, 'a>(symbols: &'s [Symbol<'a>]) -> Option<&'s [Symbol<'a>]>
    ensures { option_map (λ x. x.now) result ≡ behind_name symbols.now }
{
    match symbols {
        [Symbol::Name(_), rest @ ..] => Some(rest),
        _ => None,
    }
}

// The symbols behind the name that a block may have.
fn block_name<'s, 'a>(symbols: &'s [Symbol<'a>]) -> Option<&'s [Symbol<'a>]>
    ensures { option_map (λ x. x.now) result ≡ block_name symbols.now }
{
    match symbols {
        [Symbol::Terminal(Terminal::Colon), rest @ ..] => behind_name(rest),
        _ => Some(symbols),
    }
}

#[cycle(statements)]
#[tactic(auto, unfolding(rst_grammar::specs::ReadStatement::block_in))]
fn block_in<'s, 'a>(alloc: Global, rest: &'s [Symbol<'a>], below: u8) -> StmtAnswer<'s, 'a>
    ensures reads { Gives seen_stmt result (block_in (stmt_reader below) rest.now) }
    ensures within { IfOk result (λ x. x.0.depth ≤ below + 1) }
{
    let Some(inner) = block_name(rest) else {
        return Err(Stop::NoTree);
    };
    let (all, rest) = until_end(alloc, inner, below)?;
    let depth = all.depth + 1;
    let stmt = block(all.stmts);
    Ok((ParsedStmt { stmt, depth }, rest))
}

#[cycle(statements)]
fn until_end<'s, 'a>(
    alloc: Global,
    rest: &'s [Symbol<'a>],
    below: u8,
) -> Result<(ManyStmts, &'s [Symbol<'a>]), Stop>
    ensures reads { Gives seen_stmts result (until_end (stmt_reader below) (length rest.now) rest.now) }
    ensures within { IfOk result (λ x. x.0.depth ≤ below) }
{
    let turns = rest.len();
    let (mut all, mut rest) = no_stmts(alloc, rest);
    for _ in 0..turns {
        if let Some(after) = behind(rest, Terminal::End) {
            return Ok((all, after));
        }
        let (next, after) = read_statement(alloc, rest, below)?;
        all = and(all, next)?;
        rest = after;
    }
    Err(Stop::NoTree)
}

// Behind `case` or, where `wild` is set, `casez`.
#[cycle(statements)]
#[tactic(auto, using(rst_grammar::proofs::Tools::height_positive), unfolding(rst_grammar::specs::ReadStatement::case_in))]
fn case_in<'s, 'a>(
    alloc: Global,
    wild: bool,
    rest: &'s [Symbol<'a>],
    below: u8,
) -> StmtAnswer<'s, 'a>
    ensures reads { Gives seen_stmt result (case_in (readers below) (stmt_reader below) wild rest.now) }
    ensures within { IfOk result (λ x. x.0.depth ≤ below + 1) }
{
    let rest = after(rest, Terminal::OpenParen)?;
    let (selector, rest) = read_expression(alloc, rest, below)?;
    let Some(rest) = behind(rest, Terminal::CloseParen) else {
        drop(selector);
        return Err(Stop::NoTree);
    };
    let (all, rest) = match some_arms(alloc, wild, rest, below) {
        Ok(found) => found,
        Err(stop) => {
            drop(selector);
            return Err(stop);
        }
    };
    let depth = selector.depth.max(all.depth) + 1;
    let stmt = case_of(wild, selector.tree, all.arms);
    Ok((ParsedStmt { stmt, depth }, rest))
}

#[cycle(statements)]
#[tactic(auto, unfolding(rst_grammar::specs::ReadStatement::some_arms))]
fn some_arms<'s, 'a>(
    alloc: Global,
    wild: bool,
    rest: &'s [Symbol<'a>],
    below: u8,
) -> Result<(ManyArms, &'s [Symbol<'a>]), Stop>
    ensures reads { Gives seen_arms result (some_arms (readers below) (stmt_reader below) wild rest.now) }
    ensures within { IfOk result (λ x. x.0.depth ≤ max below 1) }
{
    match rest {
        [Symbol::Terminal(Terminal::Endcase), ..] => Err(Stop::NoTree),
        _ => arms_in(alloc, wild, rest, below),
    }
}

// The arms up to `endcase`, with at most one default. A literal with masked bits is a label of height 1 whatever `below` is.
#[cycle(statements)]
fn arms_in<'s, 'a>(
    alloc: Global,
    wild: bool,
    rest: &'s [Symbol<'a>],
    below: u8,
) -> Result<(ManyArms, &'s [Symbol<'a>]), Stop>
    ensures reads { Gives seen_arms result (arms_in (readers below) (stmt_reader below) wild (length rest.now) 1 rest.now) }
    ensures within { IfOk result (λ x. x.0.depth ≤ max below 1) }
{
    let turns = rest.len();
    let mut most_defaults = 1;
    let (mut all, mut rest) = no_arms(alloc, rest);
    for _ in 0..turns {
        if let Some(after) = behind(rest, Terminal::Endcase) {
            return Ok((all, after));
        }
        let (next, after) = arm_in(alloc, wild, most_defaults, rest, below)?;
        most_defaults = defaults_left(most_defaults, next.default_count);
        all = and_arm(all, next)?;
        rest = after;
    }
    Err(Stop::NoTree)
}

/// What reading an arm answers: the arm with its height, and the symbols behind it.
type ArmAnswer<'s, 'a> = Result<(ParsedArm, &'s [Symbol<'a>]), Stop>;

#[cycle(statements)]
#[tactic(auto, unfolding(crate::specs::Parts::arm_in))]
fn arm_in<'s, 'a>(
    alloc: Global,
    wild: bool,
    most_defaults: u8,
    symbols: &'s [Symbol<'a>],
    below: u8,
) -> ArmAnswer<'s, 'a>
    ensures reads { Gives seen_arm result (arm_in (readers below) (stmt_reader below) wild most_defaults symbols.now) }
    ensures within { IfOk result (λ x. x.0.depth ≤ max below 1) }
{
    let [Symbol::Terminal(Terminal::Default), rest @ ..] = symbols else {
        return labelled_in(alloc, wild, symbols, below);
    };
    if most_defaults == 0 {
        return Err(Stop::NoTree);
    }
    default_in(alloc, rest, below)
}

#[cycle(statements)]
#[tactic(auto, unfolding(crate::specs::Parts::labelled_in))]
fn labelled_in<'s, 'a>(
    alloc: Global,
    wild: bool,
    symbols: &'s [Symbol<'a>],
    below: u8,
) -> ArmAnswer<'s, 'a>
    ensures reads { Gives seen_arm result (labelled_in (readers below) (stmt_reader below) wild symbols.now) }
    ensures within { IfOk result (λ x. x.0.depth ≤ max below 1) }
{
    let (labels, rest) = labels_in(alloc, wild, symbols, below)?;
    let rest = after(rest, Terminal::Colon)?;
    let (body, rest) = read_statement(alloc, rest, below)?;
    Ok((labelled_arm(labels, body), rest))
}

#[cycle(statements)]
#[tactic(auto, unfolding(crate::specs::Parts::default_in))]
fn default_in<'s, 'a>(alloc: Global, rest: &'s [Symbol<'a>], below: u8) -> ArmAnswer<'s, 'a>
    ensures reads { Gives seen_arm result (default_in (stmt_reader below) rest.now) }
    ensures within { IfOk result (λ x. x.0.depth ≤ max below 1) }
{
    let rest = default_colon(rest);
    let (body, rest) = read_statement(alloc, rest, below)?;
    Ok((default_arm(body), rest))
}

/// The statement that the symbols spell, of a height of at most 200.
pub fn statement<'a>(alloc: Global, symbols: &[Symbol<'a>]) -> Result<Stmt, Stop>
    // What is read is spelled so.
    ensures found { IfOk result (λ s. SpellsStmt (plain_stmt s) symbols.now × (height_of (plain_stmt s) ≤ 200)) }
    // What is spelled so is read, unless memory runs out.
    ensures only { (s : Statement) → SpellsStmt s symbols.now → height_of s ≤ 200 → Gives plain_stmt result (Some s) }
{
    let (found, rest) = read_statement(alloc, symbols, MOST_HEIGHT)?;
    if !rest.is_empty() {
        drop(found);
        return Err(Stop::NoTree);
    }
    Ok(found.stmt)
}
