// Reading targets, one function for each reader of the grammar's specification.

ghost use Rattle.std.specs.Prelude.{◌≡◌, ◌+◌, ◌≤◌, max, IfOk};
ghost use Rattle.rst_tree.specs.Trees.{plain};
ghost use Rattle.rst_tree.specs.Targets.{plain_target, plain_targets, Join, end, more, appended};
ghost use Rattle.rst_grammar.specs.Reading.{readers};
ghost use Rattle.rst_grammar.specs.ReadStatement.{target_reader, target_in, target_named, target_select, target_part};
ghost use Rattle.rst_read.specs.Gives.{Gives};
ghost use Rattle.rst_statement.specs.Seen.{seen_target, seen_targets};
ghost use Rattle.rst_statement.specs.Parts.{targets_in, join_of};

use crate::parsed::{ManyTargets, ParsedTarget};
use rst_grammar::{NameText, Symbol, Terminal};
use rst_outside::Name;
use rst_read::{Parsed, Stop, after, behind, read_expression};
use rst_tree::Target;
use std::alloc::{AllocError, Global};

/// What reading a target answers: the target with its height, and the symbols behind it.
pub type TargetAnswer<'s, 'a> = Result<(ParsedTarget, &'s [Symbol<'a>]), Stop>;

/// The target in front, of a height of at most `limit`.
#[cycle(targets)]
pub fn read_target<'s, 'a>(
    alloc: Global,
    symbols: &'s [Symbol<'a>],
    limit: u8,
) -> TargetAnswer<'s, 'a>
    ensures reads { Gives seen_target result (target_reader limit symbols.now) }
    ensures within { IfOk result (λ x. x.0.depth ≤ limit) }
{
    if limit == 0 {
        return Err(Stop::NoTree);
    }
    target_in(alloc, symbols, limit - 1)
}

#[cycle(targets)]
#[tactic(auto, unfolding(rst_grammar::specs::ReadStatement::target_in))]
fn target_in<'s, 'a>(alloc: Global, symbols: &'s [Symbol<'a>], below: u8) -> TargetAnswer<'s, 'a>
    ensures reads { Gives seen_target result (target_in (readers below) (target_reader below) symbols.now) }
    ensures within { IfOk result (λ x. x.0.depth ≤ below + 1) }
{
    let [first, rest @ ..] = symbols else {
        return Err(Stop::NoTree);
    };
    match first {
        Symbol::Name(name) => target_named(alloc, name, rest, below),
        Symbol::Terminal(Terminal::OpenBrace) => join_of(alloc, rest, below),
        _ => Err(Stop::NoTree),
    }
}

#[tactic(auto, unfolding(rst_grammar::specs::ReadStatement::target_named))]
fn target_named<'s, 'a>(
    alloc: Global,
    name: &NameText<'a>,
    rest: &'s [Symbol<'a>],
    below: u8,
) -> TargetAnswer<'s, 'a>
    ensures reads { Gives seen_target result (target_named (readers below) name.now rest.now) }
    ensures within { IfOk result (λ x. x.0.depth ≤ below + 1) }
{
    let [Symbol::Terminal(Terminal::OpenBracket), rest @ ..] = rest else {
        let target = Target::Whole(Name::new(alloc, name.as_slice())?);
        return Ok((ParsedTarget { target, depth: 1 }, rest));
    };
    let (index, rest) = read_expression(alloc, rest, below)?;
    target_select(alloc, name, index, rest, below)
}

#[tactic(auto, unfolding(rst_grammar::specs::ReadStatement::target_select))]
fn target_select<'s, 'a>(
    alloc: Global,
    name: &NameText<'a>,
    index: Parsed,
    rest: &'s [Symbol<'a>],
    below: u8,
) -> TargetAnswer<'s, 'a>
    requires { index.depth ≤ below }
    ensures reads { Gives seen_target result (target_select (readers below) name.now (plain index.tree) rest.now) }
    ensures within { IfOk result (λ x. x.0.depth ≤ below + 1) }
{
    match rest {
        [Symbol::Terminal(Terminal::CloseBracket), rest @ ..] => {
            let depth = index.depth + 1;
            let name = match Name::new(alloc, name.as_slice()) {
                Ok(name) => name,
                Err(_) => {
                    drop(index);
                    return Err(Stop::NoMemory);
                }
            };
            let target = Target::Bit(name, index.tree);
            Ok((ParsedTarget { target, depth }, rest))
        }
        [Symbol::Terminal(Terminal::Colon), rest @ ..] => {
            target_part(alloc, name, index, rest, below)
        }
        _ => {
            drop(index);
            Err(Stop::NoTree)
        }
    }
}

#[tactic(auto, unfolding(rst_grammar::specs::ReadStatement::target_part))]
fn target_part<'s, 'a>(
    alloc: Global,
    name: &NameText<'a>,
    high: Parsed,
    rest: &'s [Symbol<'a>],
    below: u8,
) -> TargetAnswer<'s, 'a>
    requires { high.depth ≤ below }
    ensures reads { Gives seen_target result (target_part (readers below) name.now (plain high.tree) rest.now) }
    ensures within { IfOk result (λ x. x.0.depth ≤ below + 1) }
{
    let (low, rest) = match read_expression(alloc, rest, below) {
        Ok(found) => found,
        Err(stop) => {
            drop(high);
            return Err(stop);
        }
    };
    let Some(rest) = behind(rest, Terminal::CloseBracket) else {
        drop((high, low));
        return Err(Stop::NoTree);
    };
    let depth = high.depth.max(low.depth) + 1;
    let name = match Name::new(alloc, name.as_slice()) {
        Ok(name) => name,
        Err(_) => {
            drop((high, low));
            return Err(Stop::NoMemory);
        }
    };
    let target = Target::Part(name, high.tree, low.tree);
    Ok((ParsedTarget { target, depth }, rest))
}

// A join of these targets.
#[tactic(auto, using(rst_tree::proofs::Rows::target_rows))]
fn joined(targets: Vec<Target>) -> Target
    ensures { plain_target result ≡ Join (plain_targets targets.items) }
{
    Target::Join(targets)
}

#[cycle(targets)]
#[tactic(auto, unfolding(crate::specs::Parts::join_of))]
fn join_of<'s, 'a>(alloc: Global, rest: &'s [Symbol<'a>], below: u8) -> TargetAnswer<'s, 'a>
    ensures reads { Gives seen_target result (join_of (target_reader below) rest.now) }
    ensures within { IfOk result (λ x. x.0.depth ≤ below + 1) }
{
    let (all, rest) = targets_in(alloc, rest, below)?;
    let rest = after(rest, Terminal::CloseBrace)?;
    let depth = all.depth + 1;
    let target = joined(all.targets);
    Ok((ParsedTarget { target, depth }, rest))
}

#[cycle(targets)]
#[tactic(auto, unfolding(crate::specs::Parts::targets_in))]
fn targets_in<'s, 'a>(
    alloc: Global,
    symbols: &'s [Symbol<'a>],
    below: u8,
) -> Result<(ManyTargets, &'s [Symbol<'a>]), Stop>
    ensures reads { Gives seen_targets result (targets_in (target_reader below) symbols.now) }
    ensures within { IfOk result (λ x. x.0.depth ≤ below) }
{
    let (first, rest) = read_target(alloc, symbols, below)?;
    let turns = rest.len();
    let (mut all, mut rest) = alone(alloc, first, rest)?;
    for _ in 0..turns {
        let Some(after) = behind(rest, Terminal::Comma) else {
            return Ok((all, rest));
        };
        let (next, after) = read_target(alloc, after, below)?;
        all = and(all, next)?;
        rest = after;
    }
    Ok((all, rest))
}

// A list of one, and the symbols behind it.
fn alone<'s, 'a>(
    alloc: Global,
    first: ParsedTarget,
    rest: &'s [Symbol<'a>],
) -> Result<(ManyTargets, &'s [Symbol<'a>]), AllocError>
    ensures targets { IfOk result (λ x. plain_targets x.0.targets.items ≡ more (plain_target first.target) end) }
    ensures depth { IfOk result (λ x. x.0.depth ≡ first.depth) }
    ensures behind { IfOk result (λ x. x.1.now ≡ rest.now) }
{
    let mut targets = Vec::new(alloc);
    let depth = first.depth;
    targets.push(first.target)?;
    Ok((ManyTargets { targets, depth }, rest))
}

// A list with one more behind it.
#[tactic(auto, using(crate::proofs::Rows::target_pushes))]
fn and(all: ManyTargets, next: ParsedTarget) -> Result<ManyTargets, AllocError>
    ensures { IfOk result (λ m. (plain_targets m.targets.items ≡ appended (plain_targets all.targets.items) (plain_target next.target)) × (m.depth ≡ max all.depth next.depth)) }
{
    let mut targets = all.targets;
    let depth = all.depth.max(next.depth);
    targets.push(next.target)?;
    Ok(ManyTargets { targets, depth })
}
