// Reading expressions, one function for each reader of the grammar's specification.

ghost use Rattle.std.specs.Prelude.{◌≡◌, ◌+◌, ◌≤◌, IfOk, Some};
ghost use Rattle.rst_tree.specs.Trees.{Tree, plain, height};
ghost use Rattle.rst_grammar.specs.Expressions.{Spells};
ghost use Rattle.rst_grammar.specs.Reading.{with_right, part_end, select_end, named_in, number_in, terminal_in, paren_in, signed_in, unsigned_in, list_from, repeat_in, join_in, braces_in, braces_end, unary_in, operand_in, binary_in, choice_in, choice_end, full_in, readers};
ghost use Rattle.rst_read.specs.Gives.{Gives, seen, seen_all, seen_boxed};

use crate::operators::{level, operator_at, unary_of};
use crate::parsed::{Boxed, MOST_HEIGHT, Many, Parsed};
use crate::stop::Stop;
use crate::terminals::{after, behind};
use crate::trees::{alone, and, binary_tree, joined, repeated};
use rst_grammar::{NameText, Symbol, Terminal};
use rst_lex::Literal;
use rst_outside::Name;
use rst_tree::Expr;
use rst_word::BinaryOp;
use std::alloc::Global;

/// What reading an expression answers: the tree with its height, and the symbols behind it.
pub type Answer<'s, 'a> = Result<(Parsed, &'s [Symbol<'a>]), Stop>;

/// The expression in front, of a height of at most `limit`.
#[cycle(read)]
pub fn read_expression<'s, 'a>(
    alloc: Global,
    symbols: &'s [Symbol<'a>],
    limit: u8,
) -> Answer<'s, 'a>
    ensures reads { Gives seen result ((readers limit).full symbols.now) }
    ensures within { IfOk result (λ x. x.0.depth ≤ limit) }
{
    if limit == 0 {
        return Err(Stop::NoTree);
    }
    full_in(alloc, symbols, limit - 1)
}

// The expression in front, in a box.
#[cycle(read)]
fn read_boxed<'s, 'a>(
    alloc: Global,
    symbols: &'s [Symbol<'a>],
    limit: u8,
) -> Result<(Boxed, &'s [Symbol<'a>]), Stop>
    ensures reads { Gives seen_boxed result ((readers limit).full symbols.now) }
    ensures within { IfOk result (λ x. x.0.depth ≤ limit) }
{
    let (found, rest) = read_expression(alloc, symbols, limit)?;
    let depth = found.depth;
    let tree = Box::new(alloc, found.tree)?;
    Ok((Boxed { tree, depth }, rest))
}

#[cycle(read)]
fn operand<'s, 'a>(alloc: Global, symbols: &'s [Symbol<'a>], limit: u8) -> Answer<'s, 'a>
    ensures reads { Gives seen result ((readers limit).operand symbols.now) }
    ensures within { IfOk result (λ x. x.0.depth ≤ limit) }
{
    if limit == 0 {
        return Err(Stop::NoTree);
    }
    operand_in(alloc, symbols, limit - 1)
}

#[cycle(read)]
#[tactic(auto, unfolding(rst_grammar::specs::Reading::operand_in))]
fn operand_in<'s, 'a>(alloc: Global, symbols: &'s [Symbol<'a>], below: u8) -> Answer<'s, 'a>
    ensures reads { Gives seen result (operand_in (readers below) symbols.now) }
    ensures within { IfOk result (λ x. x.0.depth ≤ below + 1) }
{
    let [first, rest @ ..] = symbols else {
        return Err(Stop::NoTree);
    };
    match first {
        Symbol::Number(number) => number_in(*number, rest),
        Symbol::Name(name) => named_in(alloc, name, rest, below),
        Symbol::Terminal(mark) => terminal_in(alloc, *mark, rest, below),
    }
}

#[tactic(auto, unfolding(rst_grammar::specs::Reading::number_in))]
fn number_in<'s, 'a>(number: Literal, rest: &'s [Symbol<'a>]) -> Answer<'s, 'a>
    ensures reads { Gives seen result (number_in number rest.now) }
    ensures within { IfOk result (λ x. x.0.depth ≤ 1) }
{
    if number.mask != 0 {
        return Err(Stop::NoTree);
    }
    let tree = Expr::Number(number);
    Ok((Parsed { tree, depth: 1 }, rest))
}

#[cycle(read)]
#[tactic(auto, unfolding(rst_grammar::specs::Reading::terminal_in))]
fn terminal_in<'s, 'a>(
    alloc: Global,
    first: Terminal,
    rest: &'s [Symbol<'a>],
    below: u8,
) -> Answer<'s, 'a>
    ensures reads { Gives seen result (terminal_in (readers below) first rest.now) }
    ensures within { IfOk result (λ x. x.0.depth ≤ below + 1) }
{
    match first {
        Terminal::OpenParen => paren_in(alloc, rest, below),
        Terminal::OpenBrace => braces_in(alloc, rest, below),
        Terminal::SystemSigned => signed_in(alloc, rest, below),
        Terminal::SystemUnsigned => unsigned_in(alloc, rest, below),
        _ => unary_in(alloc, first, rest, below),
    }
}

#[cycle(read)]
#[tactic(auto, unfolding(rst_grammar::specs::Reading::paren_in))]
fn paren_in<'s, 'a>(alloc: Global, rest: &'s [Symbol<'a>], below: u8) -> Answer<'s, 'a>
    ensures reads { Gives seen result (paren_in (readers below) rest.now) }
    ensures within { IfOk result (λ x. x.0.depth ≤ below + 1) }
{
    let (inner, rest) = read_boxed(alloc, rest, below)?;
    let rest = after(rest, Terminal::CloseParen)?;
    let depth = inner.depth + 1;
    let tree = Expr::Paren(inner.tree);
    Ok((Parsed { tree, depth }, rest))
}

#[cycle(read)]
#[tactic(auto, unfolding(rst_grammar::specs::Reading::signed_in))]
fn signed_in<'s, 'a>(alloc: Global, rest: &'s [Symbol<'a>], below: u8) -> Answer<'s, 'a>
    ensures reads { Gives seen result (signed_in (readers below) rest.now) }
    ensures within { IfOk result (λ x. x.0.depth ≤ below + 1) }
{
    let rest = after(rest, Terminal::OpenParen)?;
    let (inner, rest) = read_boxed(alloc, rest, below)?;
    let rest = after(rest, Terminal::CloseParen)?;
    let depth = inner.depth + 1;
    let tree = Expr::Signed(inner.tree);
    Ok((Parsed { tree, depth }, rest))
}

#[cycle(read)]
#[tactic(auto, unfolding(rst_grammar::specs::Reading::unsigned_in))]
fn unsigned_in<'s, 'a>(alloc: Global, rest: &'s [Symbol<'a>], below: u8) -> Answer<'s, 'a>
    ensures reads { Gives seen result (unsigned_in (readers below) rest.now) }
    ensures within { IfOk result (λ x. x.0.depth ≤ below + 1) }
{
    let rest = after(rest, Terminal::OpenParen)?;
    let (inner, rest) = read_boxed(alloc, rest, below)?;
    let rest = after(rest, Terminal::CloseParen)?;
    let depth = inner.depth + 1;
    let tree = Expr::Unsigned(inner.tree);
    Ok((Parsed { tree, depth }, rest))
}

#[cycle(read)]
#[tactic(auto, unfolding(rst_grammar::specs::Reading::unary_in))]
fn unary_in<'s, 'a>(
    alloc: Global,
    first: Terminal,
    rest: &'s [Symbol<'a>],
    below: u8,
) -> Answer<'s, 'a>
    ensures reads { Gives seen result (unary_in (readers below) first rest.now) }
    ensures within { IfOk result (λ x. x.0.depth ≤ below + 1) }
{
    let Some(op) = unary_of(first) else {
        return Err(Stop::NoTree);
    };
    let (inner, rest) = operand(alloc, rest, below)?;
    let depth = inner.depth + 1;
    let tree = Expr::Unary(op, Box::new(alloc, inner.tree)?);
    Ok((Parsed { tree, depth }, rest))
}

#[cycle(read)]
#[tactic(auto, unfolding(rst_grammar::specs::Reading::named_in))]
fn named_in<'s, 'a>(
    alloc: Global,
    name: &NameText<'a>,
    rest: &'s [Symbol<'a>],
    below: u8,
) -> Answer<'s, 'a>
    ensures reads { Gives seen result (named_in (readers below) name.now rest.now) }
    ensures within { IfOk result (λ x. x.0.depth ≤ below + 1) }
{
    let [Symbol::Terminal(Terminal::OpenBracket), rest @ ..] = rest else {
        let tree = Expr::Name(Name::new(alloc, name.as_slice())?);
        return Ok((Parsed { tree, depth: 1 }, rest));
    };
    let (index, rest) = read_expression(alloc, rest, below)?;
    select_end(alloc, name, index, rest, below)
}

#[cycle(read)]
#[tactic(auto, unfolding(rst_grammar::specs::Reading::select_end))]
fn select_end<'s, 'a>(
    alloc: Global,
    name: &NameText<'a>,
    index: Parsed,
    rest: &'s [Symbol<'a>],
    below: u8,
) -> Answer<'s, 'a>
    requires { index.depth ≤ below }
    ensures reads { Gives seen result (select_end (readers below) name.now (plain index.tree) rest.now) }
    ensures within { IfOk result (λ x. x.0.depth ≤ below + 1) }
{
    match rest {
        [Symbol::Terminal(Terminal::CloseBracket), rest @ ..] => {
            let depth = index.depth + 1;
            let index = Box::new(alloc, index.tree)?;
            let tree = Expr::Bit(Name::new(alloc, name.as_slice())?, index);
            Ok((Parsed { tree, depth }, rest))
        }
        [Symbol::Terminal(Terminal::Colon), rest @ ..] => part_end(alloc, name, index, rest, below),
        _ => {
            drop(index);
            Err(Stop::NoTree)
        }
    }
}

#[cycle(read)]
#[tactic(auto, unfolding(rst_grammar::specs::Reading::part_end))]
fn part_end<'s, 'a>(
    alloc: Global,
    name: &NameText<'a>,
    high: Parsed,
    rest: &'s [Symbol<'a>],
    below: u8,
) -> Answer<'s, 'a>
    requires { high.depth ≤ below }
    ensures reads { Gives seen result (part_end (readers below) name.now (plain high.tree) rest.now) }
    ensures within { IfOk result (λ x. x.0.depth ≤ below + 1) }
{
    let high_depth = high.depth;
    let high = Box::new(alloc, high.tree)?;
    let (low, rest) = read_boxed(alloc, rest, below)?;
    let rest = after(rest, Terminal::CloseBracket)?;
    let depth = high_depth.max(low.depth) + 1;
    let name = Name::new(alloc, name.as_slice())?;
    let tree = Expr::Part(name, high, low.tree);
    Ok((Parsed { tree, depth }, rest))
}

#[cycle(read)]
fn binary<'s, 'a>(alloc: Global, symbols: &'s [Symbol<'a>], limit: u8, least: u8) -> Answer<'s, 'a>
    ensures reads { Gives seen result ((readers limit).binary least symbols.now) }
    ensures within { IfOk result (λ x. x.0.depth ≤ limit) }
{
    if limit == 0 {
        return Err(Stop::NoTree);
    }
    binary_in(alloc, symbols, limit - 1, least)
}

#[cycle(read)]
#[tactic(auto, unfolding(rst_grammar::specs::Reading::binary_in))]
fn binary_in<'s, 'a>(
    alloc: Global,
    symbols: &'s [Symbol<'a>],
    below: u8,
    least: u8,
) -> Answer<'s, 'a>
    ensures reads { Gives seen result (binary_in (readers below) below least symbols.now) }
    ensures within { IfOk result (λ x. x.0.depth ≤ below + 1) }
{
    let (mut left, mut rest) = operand_in(alloc, symbols, below)?;
    for _ in 0..u32::from(below) + 1 {
        let Some((op, after)) = operator_at(rest, least) else {
            return Ok((left, rest));
        };
        let (next, after) = with_right(alloc, op, left, after, below)?;
        left = next;
        rest = after;
    }
    drop(left);
    Err(Stop::NoTree)
}

#[cycle(read)]
#[tactic(auto, unfolding(rst_grammar::specs::Reading::with_right))]
fn with_right<'s, 'a>(
    alloc: Global,
    op: BinaryOp,
    left: Parsed,
    rest: &'s [Symbol<'a>],
    below: u8,
) -> Answer<'s, 'a>
    ensures reads { Gives seen result (with_right (readers below) below op (plain left.tree) rest.now) }
    ensures within { IfOk result (λ x. x.0.depth ≤ below + 1) }
{
    if left.depth > u32::from(below) {
        drop(left);
        return Err(Stop::NoTree);
    }
    let (right, rest) = match binary(alloc, rest, below, level(op) + 1) {
        Ok(found) => found,
        Err(stop) => {
            drop(left);
            return Err(stop);
        }
    };
    let depth = left.depth.max(right.depth) + 1;
    let tree = binary_tree(alloc, op, left.tree, right.tree)?;
    Ok((Parsed { tree, depth }, rest))
}

#[cycle(read)]
#[tactic(auto, unfolding(rst_grammar::specs::Reading::full_in, rst_grammar::specs::Reading::choice_end))]
fn full_in<'s, 'a>(alloc: Global, symbols: &'s [Symbol<'a>], below: u8) -> Answer<'s, 'a>
    ensures reads { Gives seen result (full_in (readers below) below symbols.now) }
    ensures within { IfOk result (λ x. x.0.depth ≤ below + 1) }
{
    let (test, rest) = binary_in(alloc, symbols, below, 1)?;
    let [Symbol::Terminal(Terminal::Question), rest @ ..] = rest else {
        return Ok((test, rest));
    };
    if test.depth > u32::from(below) {
        drop(test);
        return Err(Stop::NoTree);
    }
    choice_in(alloc, test, rest, below)
}

#[cycle(read)]
#[tactic(auto, unfolding(rst_grammar::specs::Reading::choice_in))]
fn choice_in<'s, 'a>(
    alloc: Global,
    test: Parsed,
    rest: &'s [Symbol<'a>],
    below: u8,
) -> Answer<'s, 'a>
    requires { test.depth ≤ below }
    ensures reads { Gives seen result (choice_in (readers below) (plain test.tree) rest.now) }
    ensures within { IfOk result (λ x. x.0.depth ≤ below + 1) }
{
    let test_depth = test.depth;
    let test = Box::new(alloc, test.tree)?;
    let (yes, rest) = read_boxed(alloc, rest, below)?;
    let rest = after(rest, Terminal::Colon)?;
    let (no, rest) = read_boxed(alloc, rest, below)?;
    let depth = test_depth.max(yes.depth.max(no.depth)) + 1;
    let tree = Expr::Choose(test, yes.tree, no.tree);
    Ok((Parsed { tree, depth }, rest))
}

#[cycle(read)]
#[tactic(auto, unfolding(rst_grammar::specs::Reading::braces_in, rst_grammar::specs::Reading::braces_end))]
fn braces_in<'s, 'a>(alloc: Global, rest: &'s [Symbol<'a>], below: u8) -> Answer<'s, 'a>
    ensures reads { Gives seen result (braces_in (readers below) rest.now) }
    ensures within { IfOk result (λ x. x.0.depth ≤ below + 1) }
{
    let (first, rest) = read_expression(alloc, rest, below)?;
    match rest {
        [Symbol::Terminal(Terminal::OpenBrace), rest @ ..] => repeat_in(alloc, first, rest, below),
        _ => join_in(alloc, first, rest, below),
    }
}

#[cycle(read)]
#[tactic(auto, unfolding(rst_grammar::specs::Reading::join_in))]
fn join_in<'s, 'a>(
    alloc: Global,
    first: Parsed,
    rest: &'s [Symbol<'a>],
    below: u8,
) -> Answer<'s, 'a>
    requires { first.depth ≤ below }
    ensures reads { Gives seen result (join_in (readers below) (plain first.tree) rest.now) }
    ensures within { IfOk result (λ x. x.0.depth ≤ below + 1) }
{
    let (all, rest) = list_from(alloc, first, rest, below)?;
    let rest = after(rest, Terminal::CloseBrace)?;
    let depth = all.depth + 1;
    let tree = joined(all.trees);
    Ok((Parsed { tree, depth }, rest))
}

#[cycle(read)]
#[tactic(auto, unfolding(rst_grammar::specs::Reading::repeat_in))]
fn repeat_in<'s, 'a>(
    alloc: Global,
    count: Parsed,
    rest: &'s [Symbol<'a>],
    below: u8,
) -> Answer<'s, 'a>
    requires { count.depth ≤ below }
    ensures reads { Gives seen result (repeat_in (readers below) (plain count.tree) rest.now) }
    ensures within { IfOk result (λ x. x.0.depth ≤ below + 1) }
{
    let count_depth = count.depth;
    let count = Box::new(alloc, count.tree)?;
    let (first, rest) = read_expression(alloc, rest, below)?;
    let (all, rest) = list_from(alloc, first, rest, below)?;
    let rest = after(rest, Terminal::CloseBrace)?;
    let rest = after(rest, Terminal::CloseBrace)?;
    let depth = count_depth.max(all.depth) + 1;
    let tree = repeated(count, all.trees);
    Ok((Parsed { tree, depth }, rest))
}

#[cycle(read)]
fn list_from<'s, 'a>(
    alloc: Global,
    first: Parsed,
    rest: &'s [Symbol<'a>],
    below: u8,
) -> Result<(Many, &'s [Symbol<'a>]), Stop>
    requires { first.depth ≤ below }
    ensures reads { Gives seen_all result (list_from (readers below) (plain first.tree) rest.now) }
    ensures within { IfOk result (λ x. x.0.depth ≤ below) }
{
    let turns = rest.len();
    let (mut all, mut rest) = alone(alloc, first, rest)?;
    for _ in 0..turns {
        let Some(after) = behind(rest, Terminal::Comma) else {
            return Ok((all, rest));
        };
        let (next, after) = read_expression(alloc, after, below)?;
        all = and(all, next)?;
        rest = after;
    }
    Ok((all, rest))
}

/// The expression that the symbols spell, of a height of at most 200.
pub fn expression<'a>(alloc: Global, symbols: &[Symbol<'a>]) -> Result<Expr, Stop>
    // What is read is spelled so.
    ensures found { IfOk result (λ e. Spells (plain e) symbols.now × (height (plain e) ≤ 200)) }
    // What is spelled so is read, unless memory runs out.
    ensures only { (e : Tree) → Spells e symbols.now → height e ≤ 200 → Gives plain result (Some e) }
{
    let (found, rest) = read_expression(alloc, symbols, MOST_HEIGHT)?;
    if !rest.is_empty() {
        drop(found);
        return Err(Stop::NoTree);
    }
    Ok(found.tree)
}
