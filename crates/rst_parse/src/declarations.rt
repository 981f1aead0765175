// Reading declarations, one function for each reader of the grammar's specification.

ghost use Rattle.std.specs.Prelude.{◌≡◌, map, Some};
ghost use Rattle.std.specs.Option.{option_map};
ghost use Rattle.rst_tree.specs.Trees.{Text, plain};
ghost use Rattle.rst_tree.specs.Modules.{PlainParamName, PlainNetName, plain_range, plain_port_decl, plain_param_name, plain_param_decl, plain_net_name, plain_net_decl};
ghost use Rattle.rst_grammar.specs.declared.symbol.Terminal.TheVariants.{OpenBracket, CloseBracket, Colon, Semicolon};
ghost use Rattle.rst_grammar.specs.ReadParts.{name_in, optional, behind, up_to};
ghost use Rattle.rst_grammar.specs.ReadDeclarations.{expr_in, range_in, direction_in, kind_in, names_in, port_decl_in, param_name_in, param_names_in, param_decl_in, net_value_in, net_name_in, net_names_in, net_decl_in};
ghost use Rattle.rst_read.specs.Gives.{Gives};
ghost use Rattle.rst_parse.specs.Beside.{beside, itself};

use crate::lists::{Reader, Separator, separated};
use crate::parts::{closed, expression, flag, name, value};
use rst_grammar::{Symbol, Terminal};
use rst_outside::Name;
use rst_read::{Stop, after, behind};
use rst_tree::{Expr, NetDecl, NetName, ParamDecl, ParamName, PortDecl, Range};
use std::alloc::Global;

// The lower end of a range, between `:` and `]`.
#[tactic(auto, unfolding(rst_grammar::specs::ReadParts::behind, rst_grammar::specs::ReadParts::up_to))]
fn low_end<'s, 'a>(
    alloc: Global,
    symbols: &'s [Symbol<'a>],
) -> Result<(Expr, &'s [Symbol<'a>]), Stop>
    ensures { Gives (beside plain) result (behind Colon (up_to CloseBracket (expr_in 200)) symbols.now) }
{
    let rest = after(symbols, Terminal::Colon)?;
    let (low, rest) = expression(alloc, rest)?;
    let (low, rest) = closed(low, rest, Terminal::CloseBracket)?;
    Ok((low, rest))
}

// What stands behind `[`.
#[tactic(auto, unfolding(rst_grammar::specs::ReadDeclarations::range_in, rst_grammar::specs::ReadParts::mapped, rst_grammar::specs::ReadParts::both))]
fn range<'s, 'a>(
    alloc: Global,
    symbols: &'s [Symbol<'a>],
) -> Result<(Range, &'s [Symbol<'a>]), Stop>
    ensures { Gives (beside plain_range) result (range_in 200 symbols.now) }
{
    let (high, rest) = expression(alloc, symbols)?;
    let (low, rest) = match low_end(alloc, rest) {
        Ok(found) => found,
        Err(stop) => {
            drop(high);
            return Err(stop);
        }
    };
    Ok((Range { high, low }, rest))
}

#[tactic(auto, unfolding(rst_grammar::specs::ReadParts::optional))]
fn optional_range<'s, 'a>(
    alloc: Global,
    symbols: &'s [Symbol<'a>],
) -> Result<(Option<Range>, &'s [Symbol<'a>]), Stop>
    ensures { Gives (beside (option_map plain_range)) result (optional OpenBracket (range_in 200) symbols.now) }
{
    let Some(rest) = behind(symbols, Terminal::OpenBracket) else {
        return Ok((None, symbols));
    };
    let (range, rest) = range(alloc, rest)?;
    Ok((Some(range), rest))
}

// Whether `input` stands in front, or else `output`.
#[tactic(auto, unfolding(rst_grammar::specs::ReadDeclarations::direction_in))]
fn direction<'s, 'a>(symbols: &'s [Symbol<'a>]) -> Result<(bool, &'s [Symbol<'a>]), Stop>
    ensures { Gives itself result (direction_in symbols.now) }
{
    match symbols {
        [Symbol::Terminal(Terminal::Input), rest @ ..] => Ok((true, rest)),
        [Symbol::Terminal(Terminal::Output), rest @ ..] => Ok((false, rest)),
        _ => Err(Stop::NoTree),
    }
}

// Whether `reg` stands in front, or else `wire` or nothing.
#[tactic(auto, unfolding(rst_grammar::specs::ReadDeclarations::kind_in))]
fn kind<'s, 'a>(symbols: &'s [Symbol<'a>]) -> (bool, &'s [Symbol<'a>])
    ensures { kind_in symbols.now ≡ Some (itself result) }
{
    match symbols {
        [Symbol::Terminal(Terminal::Reg), rest @ ..] => (true, rest),
        [Symbol::Terminal(Terminal::Wire), rest @ ..] => (false, rest),
        _ => (false, symbols),
    }
}

#[derive(Drop)]
struct NameReader;

impl Reader for NameReader {
    type Part = Name;

    ghost Plain = { Text };

    ghost plain = { λ n. n };

    ghost reader = { λ _. name_in };

    fn read<'s, 'a>(
        &self,
        alloc: Global,
        symbols: &'s [Symbol<'a>],
    ) -> Result<(Name, &'s [Symbol<'a>]), Stop> {
        name(alloc, symbols)
    }
}

/// Names up to the first comma without one behind it.
#[tactic(auto, unfolding(rst_grammar::specs::ReadDeclarations::names_in))]
pub(crate) fn names<'s, 'a>(
    alloc: Global,
    symbols: &'s [Symbol<'a>],
) -> Result<(Vec<Name>, &'s [Symbol<'a>]), Stop>
    ensures { Gives (beside (λ names. names.items)) result (names_in symbols.now) }
{
    separated(&NameReader, Separator::CommaBeforeName, alloc, symbols)
}

/// A declaration of ports.
#[tactic(auto, unfolding(rst_grammar::specs::ReadDeclarations::port_decl_in, rst_grammar::specs::ReadParts::mapped, rst_grammar::specs::ReadParts::both))]
pub(crate) fn port_decl<'s, 'a>(
    alloc: Global,
    symbols: &'s [Symbol<'a>],
) -> Result<(PortDecl, &'s [Symbol<'a>]), Stop>
    ensures { Gives (beside plain_port_decl) result (port_decl_in 200 symbols.now) }
{
    let (input, rest) = direction(symbols)?;
    let (reg, rest) = kind(rest);
    let (signed, rest) = flag(rest, Terminal::Signed);
    let (range, rest) = optional_range(alloc, rest)?;
    let (names, rest) = match names(alloc, rest) {
        Ok(found) => found,
        Err(stop) => {
            drop(range);
            return Err(stop);
        }
    };
    let decl = PortDecl {
        input,
        reg,
        signed,
        range,
        names,
    };
    Ok((decl, rest))
}

// Reads a parameter's name and value.
#[derive(Drop)]
struct ParamNameReader;

impl Reader for ParamNameReader {
    type Part = ParamName;

    ghost Plain = { PlainParamName };

    ghost plain = { plain_param_name };

    ghost reader = { λ _. param_name_in 200 };

    #[tactic(auto, unfolding(rst_grammar::specs::ReadDeclarations::param_name_in, rst_grammar::specs::ReadParts::mapped, rst_grammar::specs::ReadParts::both))]
    fn read<'s, 'a>(
        &self,
        alloc: Global,
        symbols: &'s [Symbol<'a>],
    ) -> Result<(ParamName, &'s [Symbol<'a>]), Stop> {
        let (name, rest) = name(alloc, symbols)?;
        let (value, rest) = value(alloc, rest)?;
        Ok((ParamName { name, value }, rest))
    }
}

#[tactic(auto, unfolding(rst_grammar::specs::ReadDeclarations::param_names_in))]
fn param_names<'s, 'a>(
    alloc: Global,
    symbols: &'s [Symbol<'a>],
) -> Result<(Vec<ParamName>, &'s [Symbol<'a>]), Stop>
    ensures { Gives (beside (λ names. map plain_param_name names.items)) result (param_names_in 200 symbols.now) }
{
    separated(&ParamNameReader, Separator::CommaBeforeName, alloc, symbols)
}

/// The word `parameter` or, of local ones, `localparam`, and the parameters behind it.
#[tactic(auto, unfolding(rst_grammar::specs::ReadDeclarations::param_decl_in, rst_grammar::specs::ReadParts::mapped, rst_grammar::specs::ReadParts::both, rst_grammar::specs::ReadParts::behind))]
pub(crate) fn param_decl<'s, 'a>(
    alloc: Global,
    local: bool,
    symbols: &'s [Symbol<'a>],
) -> Result<(ParamDecl, &'s [Symbol<'a>]), Stop>
    ensures { Gives (beside plain_param_decl) result (param_decl_in local 200 symbols.now) }
{
    let word = if local {
        Terminal::Localparam
    } else {
        Terminal::Parameter
    };
    let rest = after(symbols, word)?;
    let (signed, rest) = flag(rest, Terminal::Signed);
    let (range, rest) = optional_range(alloc, rest)?;
    let (names, rest) = match param_names(alloc, rest) {
        Ok(found) => found,
        Err(stop) => {
            drop(range);
            return Err(stop);
        }
    };
    let decl = ParamDecl {
        local,
        signed,
        range,
        names,
    };
    Ok((decl, rest))
}

// What a wire is assigned where it is declared; a reg has no such value.
#[tactic(auto, unfolding(rst_grammar::specs::ReadDeclarations::net_value_in, rst_grammar::specs::ReadParts::optional))]
fn net_value<'s, 'a>(
    alloc: Global,
    reg: bool,
    symbols: &'s [Symbol<'a>],
) -> Result<(Option<Expr>, &'s [Symbol<'a>]), Stop>
    ensures { Gives (beside (option_map plain)) result (net_value_in reg 200 symbols.now) }
{
    if reg {
        return Ok((None, symbols));
    }
    let Some(rest) = behind(symbols, Terminal::Equal) else {
        return Ok((None, symbols));
    };
    let (value, rest) = expression(alloc, rest)?;
    Ok((Some(value), rest))
}

// Reads the name of a reg or of a wire.
#[derive(Drop)]
struct NetNameReader {
    reg: bool,
}

impl Reader for NetNameReader {
    type Part = NetName;

    ghost Plain = { PlainNetName };

    ghost plain = { plain_net_name };

    ghost reader = { λ r. net_name_in r.reg 200 };

    #[tactic(auto, unfolding(rst_grammar::specs::ReadDeclarations::net_name_in, rst_grammar::specs::ReadParts::mapped, rst_grammar::specs::ReadParts::both))]
    fn read<'s, 'a>(
        &self,
        alloc: Global,
        symbols: &'s [Symbol<'a>],
    ) -> Result<(NetName, &'s [Symbol<'a>]), Stop> {
        let (name, rest) = name(alloc, symbols)?;
        let (value, rest) = net_value(alloc, self.reg, rest)?;
        Ok((NetName { name, value }, rest))
    }
}

// The names of a declaration of wires or regs, up to the semicolon.
#[tactic(auto, unfolding(rst_grammar::specs::ReadDeclarations::net_names_in, rst_grammar::specs::ReadParts::up_to))]
fn net_names<'s, 'a>(
    alloc: Global,
    reg: bool,
    symbols: &'s [Symbol<'a>],
) -> Result<(Vec<NetName>, &'s [Symbol<'a>]), Stop>
    ensures { Gives (beside (λ names. map plain_net_name names.items)) result (up_to Semicolon (net_names_in reg 200) symbols.now) }
{
    let (names, rest) = separated(&NetNameReader { reg }, Separator::Comma, alloc, symbols)?;
    let rest = after(rest, Terminal::Semicolon)?;
    Ok((names, rest))
}

/// A declaration of wires or, where `reg` is set, of regs.
#[tactic(auto, unfolding(rst_grammar::specs::ReadDeclarations::net_decl_in, rst_grammar::specs::ReadParts::mapped, rst_grammar::specs::ReadParts::both, rst_grammar::specs::ReadParts::behind))]
pub(crate) fn net_decl<'s, 'a>(
    alloc: Global,
    reg: bool,
    symbols: &'s [Symbol<'a>],
) -> Result<(NetDecl, &'s [Symbol<'a>]), Stop>
    ensures { Gives (beside plain_net_decl) result (net_decl_in reg 200 symbols.now) }
{
    let word = if reg { Terminal::Reg } else { Terminal::Wire };
    let rest = after(symbols, word)?;
    let (signed, rest) = flag(rest, Terminal::Signed);
    let (range, rest) = optional_range(alloc, rest)?;
    let (names, rest) = match net_names(alloc, reg, rest) {
        Ok(found) => found,
        Err(stop) => {
            drop(range);
            return Err(stop);
        }
    };
    let decl = NetDecl {
        reg,
        signed,
        range,
        names,
    };
    Ok((decl, rest))
}
