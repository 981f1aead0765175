// Reading instances and their links, one function for each reader of the grammar's specification.

ghost use Rattle.std.specs.Prelude.{◌≡◌, List, Option, Some, map};
ghost use Rattle.std.specs.Option.{option_map};
ghost use Rattle.rst_tree.specs.Trees.{Tree, plain};
ghost use Rattle.rst_tree.specs.Modules.{PlainLink, PlainCopied, plain_link, plain_links, plain_copied, plain_instance};
ghost use Rattle.rst_grammar.specs.ReadParts.{mapped};
ghost use Rattle.rst_grammar.specs.ReadDeclarations.{expr_in};
ghost use Rattle.rst_grammar.specs.ReadItems.{link_value_in, link_in, links_in, parens_in, param_links_in, copied_in, copies_in, instance_in};
ghost use Rattle.rst_read.specs.Gives.{Gives};
ghost use Rattle.rst_parse.specs.Beside.{beside};

use crate::lists::{Reader, Separator, separated};
use crate::parts::{closed, expression, name};
use rst_grammar::{Symbol, Terminal};
use rst_read::{Stop, after, behind};
use rst_tree::{Copied, Expr, Instance, Link, Links};
use std::alloc::Global;

// Reads an expression, or nothing before a comma or a closing parenthesis.
#[derive(Drop)]
struct LinkValueReader;

impl Reader for LinkValueReader {
    type Part = Option<Expr>;

    ghost Plain = { Option Tree };

    ghost plain = { option_map plain };

    ghost reader = { λ _. link_value_in 200 };

    fn read<'s, 'a>(
        &self,
        alloc: Global,
        symbols: &'s [Symbol<'a>],
    ) -> Result<(Option<Expr>, &'s [Symbol<'a>]), Stop> {
        link_value(alloc, symbols)
    }
}

// What is linked, where it isn't left out.
#[tactic(auto, unfolding(rst_grammar::specs::ReadParts::mapped))]
fn linked<'s, 'a>(
    alloc: Global,
    symbols: &'s [Symbol<'a>],
) -> Result<(Option<Expr>, &'s [Symbol<'a>]), Stop>
    ensures { Gives (beside (option_map plain)) result (mapped (λ (e : Tree). Some e) (expr_in 200) symbols.now) }
{
    let (value, rest) = expression(alloc, symbols)?;
    Ok((Some(value), rest))
}

#[tactic(auto, unfolding(rst_grammar::specs::ReadItems::link_value_in, rst_grammar::specs::ReadParts::mapped))]
fn link_value<'s, 'a>(
    alloc: Global,
    symbols: &'s [Symbol<'a>],
) -> Result<(Option<Expr>, &'s [Symbol<'a>]), Stop>
    ensures { Gives (beside (option_map plain)) result (link_value_in 200 symbols.now) }
{
    match symbols {
        [Symbol::Terminal(Terminal::Comma | Terminal::CloseParen), ..] => Ok((None, symbols)),
        _ => linked(alloc, symbols),
    }
}

// Reads a link by name.
#[derive(Drop)]
struct LinkReader;

impl Reader for LinkReader {
    type Part = Link;

    ghost Plain = { PlainLink };

    ghost plain = { plain_link };

    ghost reader = { λ _. link_in 200 };

    #[tactic(auto, unfolding(rst_grammar::specs::ReadItems::link_in, rst_grammar::specs::ReadParts::mapped, rst_grammar::specs::ReadParts::both, rst_grammar::specs::ReadParts::behind, rst_grammar::specs::ReadParts::up_to))]
    fn read<'s, 'a>(
        &self,
        alloc: Global,
        symbols: &'s [Symbol<'a>],
    ) -> Result<(Link, &'s [Symbol<'a>]), Stop> {
        let rest = after(symbols, Terminal::Dot)?;
        let (name, rest) = name(alloc, rest)?;
        let rest = after(rest, Terminal::OpenParen)?;
        let (value, rest) = link_value(alloc, rest)?;
        let (value, rest) = closed(value, rest, Terminal::CloseParen)?;
        Ok((Link { name, value }, rest))
    }
}

// The links in front of a closing parenthesis: none, by name, or by place.
#[tactic(auto, unfolding(rst_grammar::specs::ReadItems::links_in, rst_grammar::specs::ReadParts::mapped))]
fn links<'s, 'a>(
    alloc: Global,
    symbols: &'s [Symbol<'a>],
) -> Result<(Links, &'s [Symbol<'a>]), Stop>
    ensures { Gives (beside plain_links) result (links_in 200 symbols.now) }
{
    match symbols {
        [Symbol::Terminal(Terminal::CloseParen), ..] => {
            Ok((Links::Ordered(Vec::new(alloc)), symbols))
        }
        [Symbol::Terminal(Terminal::Dot), ..] => {
            let (links, rest) = separated(&LinkReader, Separator::Comma, alloc, symbols)?;
            Ok((Links::Named(links), rest))
        }
        _ => {
            let (values, rest) = separated(&LinkValueReader, Separator::Comma, alloc, symbols)?;
            Ok((Links::Ordered(values), rest))
        }
    }
}

#[tactic(auto, unfolding(rst_grammar::specs::ReadItems::parens_in, rst_grammar::specs::ReadParts::behind, rst_grammar::specs::ReadParts::up_to))]
fn links_in_parentheses<'s, 'a>(
    alloc: Global,
    symbols: &'s [Symbol<'a>],
) -> Result<(Links, &'s [Symbol<'a>]), Stop>
    ensures { Gives (beside plain_links) result (parens_in 200 symbols.now) }
{
    let rest = after(symbols, Terminal::OpenParen)?;
    let (links, rest) = links(alloc, rest)?;
    let rest = after(rest, Terminal::CloseParen)?;
    Ok((links, rest))
}

// The links behind `#`; without it they are an empty ordered list.
#[tactic(auto, unfolding(rst_grammar::specs::ReadItems::param_links_in))]
fn param_links<'s, 'a>(
    alloc: Global,
    symbols: &'s [Symbol<'a>],
) -> Result<(Links, &'s [Symbol<'a>]), Stop>
    ensures { Gives (beside plain_links) result (param_links_in 200 symbols.now) }
{
    match behind(symbols, Terminal::Hash) {
        None => Ok((Links::Ordered(Vec::new(alloc)), symbols)),
        Some(rest) => links_in_parentheses(alloc, rest),
    }
}

// Reads an instance's name and links.
#[derive(Drop)]
struct CopiedReader;

impl Reader for CopiedReader {
    type Part = Copied;

    ghost Plain = { PlainCopied };

    ghost plain = { plain_copied };

    ghost reader = { λ _. copied_in 200 };

    #[tactic(auto, unfolding(rst_grammar::specs::ReadItems::copied_in, rst_grammar::specs::ReadParts::mapped, rst_grammar::specs::ReadParts::both))]
    fn read<'s, 'a>(
        &self,
        alloc: Global,
        symbols: &'s [Symbol<'a>],
    ) -> Result<(Copied, &'s [Symbol<'a>]), Stop> {
        let (name, rest) = name(alloc, symbols)?;
        let (ports, rest) = links_in_parentheses(alloc, rest)?;
        Ok((Copied { name, ports }, rest))
    }
}

#[tactic(auto, unfolding(rst_grammar::specs::ReadItems::copies_in))]
fn copies<'s, 'a>(
    alloc: Global,
    symbols: &'s [Symbol<'a>],
) -> Result<(Vec<Copied>, &'s [Symbol<'a>]), Stop>
    ensures { Gives (beside (λ copies. map plain_copied copies.items)) result (copies_in 200 symbols.now) }
{
    separated(&CopiedReader, Separator::Comma, alloc, symbols)
}

/// Instances of one module, up to the semicolon.
#[tactic(auto, unfolding(rst_grammar::specs::ReadItems::instance_in, rst_grammar::specs::ReadParts::mapped, rst_grammar::specs::ReadParts::both, rst_grammar::specs::ReadParts::up_to))]
pub(crate) fn instance<'s, 'a>(
    alloc: Global,
    symbols: &'s [Symbol<'a>],
) -> Result<(Instance, &'s [Symbol<'a>]), Stop>
    ensures { Gives (beside plain_instance) result (instance_in 200 symbols.now) }
{
    let (module, rest) = name(alloc, symbols)?;
    let (params, rest) = param_links(alloc, rest)?;
    let (copies, rest) = copies(alloc, rest)?;
    let rest = after(rest, Terminal::Semicolon)?;
    let instance = Instance {
        module,
        params,
        copies,
    };
    Ok((instance, rest))
}
