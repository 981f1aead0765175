// Reading the labels of a case.

ghost use Rattle.std.specs.Prelude.{◌≡◌, ◌≤◌, max, IfOk};
ghost use Rattle.std.specs.Option.{option_map};
ghost use Rattle.rst_grammar.specs.Reading.{readers};
ghost use Rattle.rst_grammar.specs.ReadStatement.{masked_at, label_in, labels_in};
ghost use Rattle.rst_read.specs.Gives.{Gives, seen, seen_all};

use crate::expressions::{Answer, read_expression};
use crate::parsed::{Many, Parsed};
use crate::stop::Stop;
use crate::terminals::behind;
use crate::trees::{alone, and};
use rst_grammar::{Symbol, Terminal};
use rst_lex::Literal;
use rst_tree::Expr;
use std::alloc::Global;

/// The literal with masked bits in front, under `casez`.
fn masked_at<'s, 'a>(wild: bool, symbols: &'s [Symbol<'a>]) -> Option<(Literal, &'s [Symbol<'a>])>
    ensures { option_map (λ x. (x.0, x.1.now)) result ≡ masked_at wild symbols.now }
{
    let [first, rest @ ..] = symbols else {
        return None;
    };
    let Symbol::Number(number) = first else {
        return None;
    };
    if wild && number.mask != 0 {
        Some((*number, rest))
    } else {
        None
    }
}

#[tactic(auto, unfolding(rst_grammar::specs::ReadStatement::label_in))]
fn label_in<'s, 'a>(
    alloc: Global,
    wild: bool,
    symbols: &'s [Symbol<'a>],
    below: u8,
) -> Answer<'s, 'a>
    ensures reads { Gives seen result (label_in (readers below) wild symbols.now) }
    ensures within { IfOk result (λ x. x.0.depth ≤ max below 1) }
{
    let Some((number, rest)) = masked_at(wild, symbols) else {
        return read_expression(alloc, symbols, below);
    };
    let tree = Expr::Number(number);
    Ok((Parsed { tree, depth: 1 }, rest))
}

/// The labels in front, of which a literal with masked bits has height 1 whatever `below` is.
#[tactic(auto, unfolding(rst_grammar::specs::ReadStatement::labels_in))]
pub fn labels_in<'s, 'a>(
    alloc: Global,
    wild: bool,
    symbols: &'s [Symbol<'a>],
    below: u8,
) -> Result<(Many, &'s [Symbol<'a>]), Stop>
    ensures reads { Gives seen_all result (labels_in (readers below) wild symbols.now) }
    ensures within { IfOk result (λ x. x.0.depth ≤ max below 1) }
{
    let (first, rest) = label_in(alloc, wild, symbols, below)?;
    let turns = rest.len();
    let (mut all, mut rest) = alone(alloc, first, rest)?;
    for _ in 0..turns {
        let Some(after) = behind(rest, Terminal::Comma) else {
            return Ok((all, rest));
        };
        let (next, after) = label_in(alloc, wild, after, below)?;
        all = and(all, next)?;
        rest = after;
    }
    Ok((all, rest))
}
