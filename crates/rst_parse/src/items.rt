// Reading the items of a module, one function for each reader of the grammar's specification.

ghost use Rattle.std.specs.Prelude.{◌≡◌, List, map, Some};
ghost use Rattle.rst_tree.specs.declared.module.Event.{Event};
ghost use Rattle.rst_tree.specs.Modules.{PlainAssign, OneOf, Port, Net, Params, plain_assign, plain_events, plain_always, plain_item};
ghost use Rattle.rst_grammar.specs.declared.symbol.Terminal.TheVariants.{Semicolon, CloseParen};
ghost use Rattle.rst_grammar.specs.ReadParts.{mapped, up_to, separated};
ghost use Rattle.rst_grammar.specs.ReadDeclarations.{port_decl_in, param_decl_in, net_decl_in};
ghost use Rattle.rst_grammar.specs.ReadItems.{assign_in, assigns_in, edge_in, event_in, or_comma, event_list_in, events_in, always_in, word_item, item_in};
ghost use Rattle.rst_read.specs.Gives.{Gives};
ghost use Rattle.rst_parse.specs.Beside.{beside, itself};

use crate::declarations::{net_decl, param_decl, port_decl};
use crate::links::instance;
use crate::lists::{Reader, Separator, separated};
use crate::parts::{closed, name, statement, target, value};
use rst_grammar::{Symbol, Terminal};
use rst_read::{Stop, after};
use rst_tree::{Always, Assign, EdgeKind, Event, Events, Item};
use std::alloc::Global;

// Reads a target and its value.
#[derive(Drop)]
struct AssignReader;

impl Reader for AssignReader {
    type Part = Assign;

    ghost Plain = { PlainAssign };

    ghost plain = { plain_assign };

    ghost reader = { λ _. assign_in 200 };

    #[tactic(auto, unfolding(rst_grammar::specs::ReadItems::assign_in, rst_grammar::specs::ReadParts::mapped, rst_grammar::specs::ReadParts::both))]
    fn read<'s, 'a>(
        &self,
        alloc: Global,
        symbols: &'s [Symbol<'a>],
    ) -> Result<(Assign, &'s [Symbol<'a>]), Stop> {
        let (target, rest) = target(alloc, symbols)?;
        let (value, rest) = match value(alloc, rest) {
            Ok(found) => found,
            Err(stop) => {
                drop(target);
                return Err(stop);
            }
        };
        Ok((Assign { target, value }, rest))
    }
}

#[tactic(auto, unfolding(rst_grammar::specs::ReadItems::assigns_in, rst_grammar::specs::ReadParts::behind, rst_grammar::specs::ReadParts::up_to))]
fn assigns<'s, 'a>(
    alloc: Global,
    symbols: &'s [Symbol<'a>],
) -> Result<(Vec<Assign>, &'s [Symbol<'a>]), Stop>
    ensures { Gives (beside (λ assigns. map plain_assign assigns.items)) result (assigns_in 200 symbols.now) }
{
    let rest = after(symbols, Terminal::Assign)?;
    let (assigns, rest) = separated(&AssignReader, Separator::Comma, alloc, rest)?;
    let rest = after(rest, Terminal::Semicolon)?;
    Ok((assigns, rest))
}

// `posedge`, `negedge`, or neither.
#[tactic(auto, unfolding(rst_grammar::specs::ReadItems::edge_in))]
fn edge<'s, 'a>(symbols: &'s [Symbol<'a>]) -> (EdgeKind, &'s [Symbol<'a>])
    ensures { edge_in symbols.now ≡ Some (itself result) }
{
    match symbols {
        [Symbol::Terminal(Terminal::Posedge), rest @ ..] => (EdgeKind::Rising, rest),
        [Symbol::Terminal(Terminal::Negedge), rest @ ..] => (EdgeKind::Falling, rest),
        _ => (EdgeKind::Level, symbols),
    }
}

// Reads an event.
#[derive(Drop)]
struct EventReader;

impl Reader for EventReader {
    type Part = Event;

    ghost Plain = { Event };

    ghost plain = { λ e. e };

    ghost reader = { λ _. event_in };

    #[tactic(auto, unfolding(rst_grammar::specs::ReadItems::event_in, rst_grammar::specs::ReadParts::mapped, rst_grammar::specs::ReadParts::both))]
    fn read<'s, 'a>(
        &self,
        alloc: Global,
        symbols: &'s [Symbol<'a>],
    ) -> Result<(Event, &'s [Symbol<'a>]), Stop> {
        let (edge, rest) = edge(symbols);
        let (name, rest) = name(alloc, rest)?;
        Ok((Event { edge, name }, rest))
    }
}

// Events up to the closing parenthesis.
#[tactic(auto, unfolding(rst_grammar::specs::ReadParts::mapped, rst_grammar::specs::ReadParts::up_to))]
fn listed_events<'s, 'a>(
    alloc: Global,
    symbols: &'s [Symbol<'a>],
) -> Result<(Events, &'s [Symbol<'a>]), Stop>
    ensures { Gives (beside plain_events) result (mapped OneOf (up_to CloseParen (separated or_comma event_in)) symbols.now) }
{
    let (events, rest) = separated(&EventReader, Separator::OrComma, alloc, symbols)?;
    let rest = after(rest, Terminal::CloseParen)?;
    Ok((Events::List(events), rest))
}

// What stands in the parentheses behind `@`, and the closing one.
#[tactic(auto, unfolding(rst_grammar::specs::ReadItems::event_list_in))]
fn event_list<'s, 'a>(
    alloc: Global,
    symbols: &'s [Symbol<'a>],
) -> Result<(Events, &'s [Symbol<'a>]), Stop>
    ensures { Gives (beside plain_events) result (event_list_in symbols.now) }
{
    match symbols {
        [Symbol::Terminal(Terminal::Star), rest @ ..] => {
            let rest = after(rest, Terminal::CloseParen)?;
            Ok((Events::Any, rest))
        }
        _ => listed_events(alloc, symbols),
    }
}

// What stands behind `@`.
#[tactic(auto, unfolding(rst_grammar::specs::ReadItems::events_in))]
fn events<'s, 'a>(
    alloc: Global,
    symbols: &'s [Symbol<'a>],
) -> Result<(Events, &'s [Symbol<'a>]), Stop>
    ensures { Gives (beside plain_events) result (events_in symbols.now) }
{
    match symbols {
        [Symbol::Terminal(Terminal::Star), rest @ ..] => Ok((Events::Any, rest)),
        [Symbol::Terminal(Terminal::OpenParen), rest @ ..] => event_list(alloc, rest),
        _ => Err(Stop::NoTree),
    }
}

#[tactic(auto, unfolding(rst_grammar::specs::ReadItems::always_in, rst_grammar::specs::ReadParts::mapped, rst_grammar::specs::ReadParts::both, rst_grammar::specs::ReadParts::behind))]
fn always<'s, 'a>(
    alloc: Global,
    symbols: &'s [Symbol<'a>],
) -> Result<(Always, &'s [Symbol<'a>]), Stop>
    ensures { Gives (beside plain_always) result (always_in 200 symbols.now) }
{
    let rest = after(symbols, Terminal::Always)?;
    let rest = after(rest, Terminal::At)?;
    let (events, rest) = events(alloc, rest)?;
    let (body, rest) = statement(alloc, rest)?;
    Ok((Always { events, body }, rest))
}

#[tactic(auto, unfolding(rst_grammar::specs::ReadParts::mapped, rst_grammar::specs::ReadParts::up_to))]
fn port_item<'s, 'a>(
    alloc: Global,
    symbols: &'s [Symbol<'a>],
) -> Result<(Item, &'s [Symbol<'a>]), Stop>
    ensures { Gives (beside plain_item) result (mapped Port (up_to Semicolon (port_decl_in 200)) symbols.now) }
{
    let (decl, rest) = port_decl(alloc, symbols)?;
    let (decl, rest) = closed(decl, rest, Terminal::Semicolon)?;
    Ok((Item::Port(decl), rest))
}

#[tactic(auto, unfolding(rst_grammar::specs::ReadParts::mapped, rst_grammar::specs::ReadParts::up_to))]
fn params_item<'s, 'a>(
    alloc: Global,
    local: bool,
    symbols: &'s [Symbol<'a>],
) -> Result<(Item, &'s [Symbol<'a>]), Stop>
    ensures { Gives (beside plain_item) result (mapped Params (up_to Semicolon (param_decl_in local 200)) symbols.now) }
{
    let (decl, rest) = param_decl(alloc, local, symbols)?;
    let (decl, rest) = closed(decl, rest, Terminal::Semicolon)?;
    Ok((Item::Params(decl), rest))
}

#[tactic(auto, unfolding(rst_grammar::specs::ReadParts::mapped))]
fn net_item<'s, 'a>(
    alloc: Global,
    reg: bool,
    symbols: &'s [Symbol<'a>],
) -> Result<(Item, &'s [Symbol<'a>]), Stop>
    ensures { Gives (beside plain_item) result (mapped Net (net_decl_in reg 200) symbols.now) }
{
    let (decl, rest) = net_decl(alloc, reg, symbols)?;
    Ok((Item::Net(decl), rest))
}

// The item that begins with this terminal, which stands in front of the symbols.
#[tactic(auto, unfolding(rst_grammar::specs::ReadItems::word_item, rst_grammar::specs::ReadParts::mapped))]
fn word_item<'s, 'a>(
    alloc: Global,
    word: Terminal,
    symbols: &'s [Symbol<'a>],
) -> Result<(Item, &'s [Symbol<'a>]), Stop>
    ensures { Gives (beside plain_item) result (word_item word 200 symbols.now) }
{
    match word {
        Terminal::Input | Terminal::Output => port_item(alloc, symbols),
        Terminal::Wire => net_item(alloc, false, symbols),
        Terminal::Reg => net_item(alloc, true, symbols),
        Terminal::Parameter => params_item(alloc, false, symbols),
        Terminal::Localparam => params_item(alloc, true, symbols),
        Terminal::Assign => {
            let (assigns, rest) = assigns(alloc, symbols)?;
            Ok((Item::Assign(assigns), rest))
        }
        Terminal::Always => {
            let (always, rest) = always(alloc, symbols)?;
            Ok((Item::Always(always), rest))
        }
        _ => Err(Stop::NoTree),
    }
}

/// The item in front.
#[tactic(auto, unfolding(rst_grammar::specs::ReadItems::item_in, rst_grammar::specs::ReadParts::mapped))]
pub(crate) fn item<'s, 'a>(
    alloc: Global,
    symbols: &'s [Symbol<'a>],
) -> Result<(Item, &'s [Symbol<'a>]), Stop>
    ensures { Gives (beside plain_item) result (item_in 200 symbols.now) }
{
    let [first, ..] = symbols else {
        return Err(Stop::NoTree);
    };
    match first {
        Symbol::Terminal(word) => word_item(alloc, *word, symbols),
        Symbol::Name(_) => {
            let (instance, rest) = instance(alloc, symbols)?;
            Ok((Item::Instance(instance), rest))
        }
        Symbol::Number(_) => Err(Stop::NoTree),
    }
}
