// The parts of an item that are nodes of the tree, of a height of at most 200.

ghost use Rattle.std.specs.Prelude.{◌≡◌, Some, None, IfOk, IfErr};
ghost use Rattle.rst_tree.specs.Trees.{plain};
ghost use Rattle.rst_tree.specs.Targets.{plain_target};
ghost use Rattle.rst_tree.specs.Statements.{plain_stmt};
ghost use Rattle.rst_grammar.specs.declared.symbol.Terminal.TheVariants.{Equal};
ghost use Rattle.rst_grammar.specs.Reading.{after};
ghost use Rattle.rst_grammar.specs.ReadStatement.{target_reader, stmt_reader};
ghost use Rattle.rst_grammar.specs.ReadDeclarations.{expr_in};
ghost use Rattle.rst_grammar.specs.ReadParts.{name_in, flag, behind};
ghost use Rattle.rst_read.specs.Gives.{Gives};
ghost use Rattle.rst_read.specs.declared.stop.Stop.TheVariants.{NoTree};
ghost use Rattle.rst_parse.specs.Beside.{beside, itself};

use rst_grammar::{Symbol, Terminal};
use rst_outside::Name;
use rst_read::{MOST_HEIGHT, Stop, after, behind, read_expression};
use rst_statement::{read_statement, read_target};
use rst_tree::{Expr, Stmt, Target};
use std::alloc::Global;

pub(crate) fn expression<'s, 'a>(
    alloc: Global,
    symbols: &'s [Symbol<'a>],
) -> Result<(Expr, &'s [Symbol<'a>]), Stop>
    ensures { Gives (beside plain) result (expr_in 200 symbols.now) }
{
    let (found, rest) = read_expression(alloc, symbols, MOST_HEIGHT)?;
    Ok((found.tree, rest))
}

/// The value behind `=`.
#[tactic(auto, unfolding(rst_grammar::specs::ReadParts::behind))]
pub(crate) fn value<'s, 'a>(
    alloc: Global,
    symbols: &'s [Symbol<'a>],
) -> Result<(Expr, &'s [Symbol<'a>]), Stop>
    ensures { Gives (beside plain) result (behind Equal (expr_in 200) symbols.now) }
{
    let rest = after(symbols, Terminal::Equal)?;
    expression(alloc, rest)
}

/// A part that was read, and the symbols behind the terminal that has to follow it.
///
/// A call, so that the part is let go of in one place where the terminal doesn't follow.
pub(crate) fn closed<'s, 'a, T: Drop>(
    part: T,
    rest: &'s [Symbol<'a>],
    terminal: Terminal,
) -> Result<(T, &'s [Symbol<'a>]), Stop>
    ensures part { IfOk result (λ x. x.0 ≡ part) }
    ensures behind { IfOk result (λ x. after terminal rest.now ≡ Some x.1.now) }
    ensures another { IfErr result (λ e. (e ≡ NoTree) × (after terminal rest.now ≡ None)) }
{
    match behind(rest, terminal) {
        Some(rest) => Ok((part, rest)),
        None => Err(Stop::NoTree),
    }
}

pub(crate) fn target<'s, 'a>(
    alloc: Global,
    symbols: &'s [Symbol<'a>],
) -> Result<(Target, &'s [Symbol<'a>]), Stop>
    ensures { Gives (beside plain_target) result (target_reader 200 symbols.now) }
{
    let (found, rest) = read_target(alloc, symbols, MOST_HEIGHT)?;
    Ok((found.target, rest))
}

pub(crate) fn statement<'s, 'a>(
    alloc: Global,
    symbols: &'s [Symbol<'a>],
) -> Result<(Stmt, &'s [Symbol<'a>]), Stop>
    ensures { Gives (beside plain_stmt) result (stmt_reader 200 symbols.now) }
{
    let (found, rest) = read_statement(alloc, symbols, MOST_HEIGHT)?;
    Ok((found.stmt, rest))
}

#[tactic(auto, unfolding(rst_grammar::specs::ReadParts::name_in))]
pub(crate) fn name<'s, 'a>(
    alloc: Global,
    symbols: &'s [Symbol<'a>],
) -> Result<(Name, &'s [Symbol<'a>]), Stop>
    ensures { Gives itself result (name_in symbols.now) }
{
    let [first, rest @ ..] = symbols else {
        return Err(Stop::NoTree);
    };
    let Symbol::Name(name) = first else {
        return Err(Stop::NoTree);
    };
    Ok((Name::new(alloc, name.as_slice())?, rest))
}

// Whether this terminal stands in front, and the symbols behind it.
#[tactic(auto, unfolding(rst_grammar::specs::ReadParts::flag))]
pub(crate) fn flag<'s, 'a>(
    symbols: &'s [Symbol<'a>],
    terminal: Terminal,
) -> (bool, &'s [Symbol<'a>])
    ensures { flag terminal symbols.now ≡ Some (itself result) }
{
    match behind(symbols, terminal) {
        Some(rest) => (true, rest),
        None => (false, symbols),
    }
}
