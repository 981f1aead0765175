// Reading modules, one function for each reader of the grammar's specification.

ghost use Rattle.std.specs.Prelude.{◌≡◌, ◌≤◌, [], map, false, Some, IfOk};
ghost use Rattle.rst_tree.specs.Modules.{PlainParamDecl, PlainPortDecl, PlainModule, height_of_module, plain_param_decl, plain_port_decl, plain_header, plain_item, plain_module};
ghost use Rattle.rst_tree.specs.Modules.{Plain as NamesAlone, Full};
ghost use Rattle.rst_grammar.specs.declared.symbol.Terminal.TheVariants.{CloseParen};
ghost use Rattle.rst_grammar.specs.Modules.{SpellsModule};
ghost use Rattle.rst_grammar.specs.ReadParts.{mapped, up_to, separated, comma};
ghost use Rattle.rst_grammar.specs.ReadDeclarations.{names_in, port_decl_in, param_decl_in};
ghost use Rattle.rst_grammar.specs.ReadModule.{groups_in, header_params_in, ports_in, header_in, items_in, module_reader};
ghost use Rattle.rst_read.specs.Gives.{Gives};
ghost use Rattle.rst_parse.specs.Beside.{beside};

use crate::declarations::{names, param_decl, port_decl};
use crate::items::item;
use crate::lists::{Reader, Separator, separated};
use crate::parts::name;
use rst_grammar::{Symbol, Terminal};
use rst_read::{Stop, after, behind};
use rst_tree::{Header, Item, Module, ParamDecl, PortDecl};
use std::alloc::Global;

// Reads a declaration of parameters that aren't local.
#[derive(Drop)]
struct GroupReader;

impl Reader for GroupReader {
    type Part = ParamDecl;

    ghost Plain = { PlainParamDecl };

    ghost plain = { plain_param_decl };

    ghost reader = { λ _. param_decl_in false 200 };

    fn read<'s, 'a>(
        &self,
        alloc: Global,
        symbols: &'s [Symbol<'a>],
    ) -> Result<(ParamDecl, &'s [Symbol<'a>]), Stop> {
        param_decl(alloc, false, symbols)
    }
}

// Declarations of parameters with commas between them.
#[tactic(auto, unfolding(rst_grammar::specs::ReadModule::groups_in))]
fn groups<'s, 'a>(
    alloc: Global,
    symbols: &'s [Symbol<'a>],
) -> Result<(Vec<ParamDecl>, &'s [Symbol<'a>]), Stop>
    ensures { Gives (beside (λ groups. map plain_param_decl groups.items)) result (groups_in 200 symbols.now) }
{
    separated(&GroupReader, Separator::Comma, alloc, symbols)
}

// The parameters of the header, of which there may be none.
#[tactic(auto, unfolding(rst_grammar::specs::ReadModule::header_params_in, rst_grammar::specs::ReadParts::behind, rst_grammar::specs::ReadParts::up_to))]
fn header_params<'s, 'a>(
    alloc: Global,
    symbols: &'s [Symbol<'a>],
) -> Result<(Vec<ParamDecl>, &'s [Symbol<'a>]), Stop>
    ensures { Gives (beside (λ groups. map plain_param_decl groups.items)) result (header_params_in 200 symbols.now) }
{
    let Some(rest) = behind(symbols, Terminal::Hash) else {
        return Ok((Vec::new(alloc), symbols));
    };
    let rest = after(rest, Terminal::OpenParen)?;
    let (groups, rest) = groups(alloc, rest)?;
    let rest = after(rest, Terminal::CloseParen)?;
    Ok((groups, rest))
}

// Reads a declaration of ports.
#[derive(Drop)]
struct PortDeclReader;

impl Reader for PortDeclReader {
    type Part = PortDecl;

    ghost Plain = { PlainPortDecl };

    ghost plain = { plain_port_decl };

    ghost reader = { λ _. port_decl_in 200 };

    fn read<'s, 'a>(
        &self,
        alloc: Global,
        symbols: &'s [Symbol<'a>],
    ) -> Result<(PortDecl, &'s [Symbol<'a>]), Stop> {
        port_decl(alloc, symbols)
    }
}

// The names of ports up to the closing parenthesis.
#[tactic(auto, unfolding(rst_grammar::specs::ReadParts::mapped, rst_grammar::specs::ReadParts::up_to))]
fn port_names<'s, 'a>(
    alloc: Global,
    symbols: &'s [Symbol<'a>],
) -> Result<(Header, &'s [Symbol<'a>]), Stop>
    ensures { Gives (beside plain_header) result (mapped NamesAlone (up_to CloseParen names_in) symbols.now) }
{
    let (names, rest) = names(alloc, symbols)?;
    let rest = after(rest, Terminal::CloseParen)?;
    Ok((Header::Plain(names), rest))
}

// The declarations of ports up to the closing parenthesis.
#[tactic(auto, unfolding(rst_grammar::specs::ReadParts::mapped, rst_grammar::specs::ReadParts::up_to))]
fn port_decls<'s, 'a>(
    alloc: Global,
    symbols: &'s [Symbol<'a>],
) -> Result<(Header, &'s [Symbol<'a>]), Stop>
    ensures { Gives (beside plain_header) result (mapped Full (up_to CloseParen (separated comma (port_decl_in 200))) symbols.now) }
{
    let (ports, rest) = separated(&PortDeclReader, Separator::Comma, alloc, symbols)?;
    let rest = after(rest, Terminal::CloseParen)?;
    Ok((Header::Full(ports), rest))
}

// What stands in the parentheses of a header, and the closing one.
#[tactic(auto, unfolding(rst_grammar::specs::ReadModule::ports_in))]
fn ports<'s, 'a>(
    alloc: Global,
    symbols: &'s [Symbol<'a>],
) -> Result<(Header, &'s [Symbol<'a>]), Stop>
    ensures { Gives (beside plain_header) result (ports_in 200 symbols.now) }
{
    match symbols {
        [Symbol::Terminal(Terminal::CloseParen), rest @ ..] => {
            Ok((Header::Plain(Vec::new(alloc)), rest))
        }
        [Symbol::Name(_), ..] => port_names(alloc, symbols),
        _ => port_decls(alloc, symbols),
    }
}

#[tactic(auto, unfolding(rst_grammar::specs::ReadModule::header_in))]
fn header<'s, 'a>(
    alloc: Global,
    symbols: &'s [Symbol<'a>],
) -> Result<(Header, &'s [Symbol<'a>]), Stop>
    ensures { Gives (beside plain_header) result (header_in 200 symbols.now) }
{
    match behind(symbols, Terminal::OpenParen) {
        None => Ok((Header::Plain(Vec::new(alloc)), symbols)),
        Some(rest) => ports(alloc, rest),
    }
}

// The items up to `endmodule`, and that word.
fn items<'s, 'a>(
    alloc: Global,
    symbols: &'s [Symbol<'a>],
) -> Result<(Vec<Item>, &'s [Symbol<'a>]), Stop>
    ensures { Gives (beside (λ items. map plain_item items.items)) result (items_in 200 symbols.now) }
{
    let turns = symbols.len();
    let (mut items, mut rest) = none(alloc, symbols);
    for _ in 0..turns {
        if let Some(after) = behind(rest, Terminal::Endmodule) {
            return Ok((items, after));
        }
        let (next, after) = item(alloc, rest)?;
        items.push(next)?;
        rest = after;
    }
    Err(Stop::NoTree)
}

// No items, and the symbols.
fn none<'s, 'a>(alloc: Global, symbols: &'s [Symbol<'a>]) -> (Vec<Item>, &'s [Symbol<'a>])
    ensures items { result.0.items ≡ [] }
    ensures behind { result.1.now ≡ symbols.now }
{
    (Vec::new(alloc), symbols)
}

// The module in front, of a height of at most 200.
#[tactic(auto, unfolding(rst_grammar::specs::ReadModule::module_reader, rst_grammar::specs::ReadParts::mapped, rst_grammar::specs::ReadParts::both, rst_grammar::specs::ReadParts::behind))]
fn read_module<'s, 'a>(
    alloc: Global,
    symbols: &'s [Symbol<'a>],
) -> Result<(Module, &'s [Symbol<'a>]), Stop>
    ensures { Gives (beside plain_module) result (module_reader 200 symbols.now) }
{
    let rest = after(symbols, Terminal::Module)?;
    let (name, rest) = name(alloc, rest)?;
    let (params, rest) = header_params(alloc, rest)?;
    let (header, rest) = header(alloc, rest)?;
    let rest = after(rest, Terminal::Semicolon)?;
    let (items, rest) = items(alloc, rest)?;
    let module = Module {
        name,
        params,
        header,
        items,
    };
    Ok((module, rest))
}

/// The module that the symbols spell, of a height of at most 200 (IEEE 1364-2001, annex A.1.3, narrowed).
///
/// NoTree comes exactly where they spell none.
pub(crate) fn module<'a>(alloc: Global, symbols: &[Symbol<'a>]) -> Result<Module, Stop>
    // What is read is spelled so.
    ensures found { IfOk result (λ m. SpellsModule (plain_module m) symbols.now × (height_of_module (plain_module m) ≤ 200)) }
    // What is spelled so is read, unless memory runs out.
    ensures only { (m : PlainModule) → SpellsModule m symbols.now → height_of_module m ≤ 200 → Gives plain_module result (Some m) }
{
    let (found, rest) = read_module(alloc, symbols)?;
    if !rest.is_empty() {
        drop(found);
        return Err(Stop::NoTree);
    }
    Ok(found)
}
