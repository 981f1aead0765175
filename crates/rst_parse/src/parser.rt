//! The modules of a whole text.

ghost use Rattle.std.specs.Prelude.{◌≡◌, ◌≢◌, ◌≤◌, length, List, map, IfOk, IfErr, Ok, Err};
ghost use Rattle.std.specs.List.{All};
ghost use Rattle.rst_lex.specs.Lexing.{Reads};
ghost use Rattle.rst_tree.specs.Modules.{plain_module, plain_source};
ghost use Rattle.rst_tree.specs.WellFormed.{WellFormed};
ghost use Rattle.rst_parse.specs.declared.parser.ParseFault.TheVariants.{NoTree, NoMemory};
ghost use Rattle.rst_parse.specs.Pieces.{pieces};
ghost use Rattle.rst_parse.specs.Parsing.{IsModuleOf, IsNoModule, Answer, ReadsPieces, Parses, NamesToken, plain_answer};

use crate::module::module;
use crate::pieces::first_piece;
use crate::symbols::symbols;
use rst_grammar::Symbol;
use rst_lex::Token;
use rst_read::Stop;
use rst_tree::{Module, Source};
use std::alloc::{AllocFailed, Global};
use thiserror::Error;

/// Why a text has no modules: the first token that is refused, the first piece of the text that is no module, or
/// that memory ran out. Tokens are counted from 0.
#[derive(Clone, Copy, PartialEq, Eq, Debug, Error)]
pub enum ParseFault {
    /// This token is of the language, and not of the profile.
    #[error("token {0}: not supported")]
    Unsupported(u32),
    /// No module of the grammar, of a height of at most 200, begins with this token and ends where the next
    /// `endmodule`, or else the text, ends.
    #[error("token {0}: no module")]
    NoTree(u32),
    /// Memory ran out.
    #[error("out of memory")]
    NoMemory,
}

impl<T: Drop> From<AllocFailed<T>> for ParseFault {
    ghost from_gives = { λ _ e. e ≡ NoMemory };

    fn from(_: AllocFailed<T>) -> ParseFault {
        ParseFault::NoMemory
    }
}

// The module that a piece spells, whose first token has the number `at`.
fn module_at<'a>(alloc: Global, piece: &[Symbol<'a>], at: u32) -> Result<Module, ParseFault>
    ensures found { IfOk result (λ m. IsModuleOf (plain_module m) piece.now) }
    ensures none { IfErr result (λ fault. fault ≢ NoMemory → IsNoModule piece.now × (fault ≡ NoTree at)) }
{
    match module(alloc, piece) {
        Ok(module) => Ok(module),
        Err(Stop::NoTree) => Err(ParseFault::NoTree(at)),
        Err(Stop::NoMemory) => Err(ParseFault::NoMemory),
    }
}

fn modules<'a>(alloc: Global, symbols: &[Symbol<'a>]) -> Result<Vec<Module>, ParseFault>
    requires { length symbols.now ≤ 1048576 }
    ensures modules { IfOk result (λ v. ReadsPieces 0 (pieces symbols.now) (Ok (map plain_module v.items))) }
    ensures fault { IfErr result (λ fault. fault ≢ NoMemory → ReadsPieces 0 (pieces symbols.now) (Err fault)) }
{
    let mut modules = Vec::new(alloc);
    let mut at = 0;
    while at < symbols.len() {
        let (_, rest) = symbols.split_at(at);
        let piece = first_piece(rest);
        modules.push(module_at(alloc, piece, at as u32)?)?;
        at += piece.len();
    }
    Ok(modules)
}

/// The modules of a text, from the tokens that `lex` gives of it.
///
/// The tokens are cut behind each `endmodule`, and each piece has to be a module of the grammar (IEEE 1364-2001,
/// annex A, narrowed to the profile) with a tree of a height of at most 200. Tokens behind the last `endmodule` are
/// a piece of their own, and an empty text has no modules. Each module that is answered is well formed: what stands in
/// `specs/WellFormed.antt` of `rst_tree`, the condition of calls that take modules.
///
/// `Unsupported` comes exactly where a token is refused: a keyword of `REFUSED_KEYWORDS`, one of the marks `===`,
/// `!==` and `**`, or a system token other than `$signed` and `$unsigned`. It carries the number of the first such
/// token, and is tested first. `NoTree` comes exactly where a piece is no such module, and carries the number of the
/// first token of the first such piece. `NoMemory` comes only where memory runs out.
pub fn parse(alloc: Global, text: &[u8], tokens: &[Token]) -> Result<Source, ParseFault>
    requires short { length text.now ≤ 1048576 }
    requires read { Reads text.now (Ok tokens.now) }
    ensures source { IfOk result (λ source. Parses text.now tokens.now (Ok (plain_source source))) }
    ensures fault { IfErr result (λ fault. fault ≢ NoMemory → Parses text.now tokens.now (Err fault)) }
    // The place of a fault lies among the tokens.
    ensures place { IfErr result (NamesToken (length tokens.now)) }
    // The grammar gives well formed modules alone.
    ensures formed { IfOk result (λ source. All WellFormed (plain_source source)) }
    // What the tokens are parsed as is answered, unless memory runs out.
    ensures only { (answer : Answer) → Parses text.now tokens.now answer → result ≢ Err NoMemory → plain_answer result ≡ answer }
{
    let symbols = symbols(alloc, text, tokens)?;
    let modules = modules(alloc, &symbols)?;
    Ok(Source { modules })
}
