//! The tokens of a whole text.
ghost use Rattle.std.specs.Prelude.{◌≡◌, ◌≢◌, ◌≤◌, ◌<◌, length, IfOk, IfErr, IfSome, Some, Ok, Err, All};
ghost use Rattle.rst_lex.specs.declared.lexer.LexFault.TheVariants.{NoMemory};
ghost use Rattle.rst_lex.specs.Tokens.{token_text, InOrder};
ghost use Rattle.rst_lex.specs.Lexing.{Reads, fault_at, place_of, IsTokenOf};

use crate::front::Cause;
use crate::piece::{Piece, text_piece};
use crate::token::Token;
use std::alloc::{AllocFailed, Global};
use thiserror::Error;

/// Why a text has no tokens: the first fault in it, with the byte where the faulty thing begins, or that
/// memory ran out.
#[derive(Clone, Copy, PartialEq, Eq, Debug, Error)]
pub enum LexFault {
    /// No token begins with this byte.
    #[error("byte {0}: no token begins here")]
    BadByte(u32),
    /// A comment or an attribute has no end.
    #[error("byte {0}: a comment without an end")]
    OpenComment(u32),
    /// A based literal has no base letter, no digits, the size 0 or a digit `x`.
    #[error("byte {0}: no number")]
    BadNumber(u32),
    /// A literal has more than 64 bits.
    #[error("byte {0}: a number of more than 64 bits")]
    NumberTooWide(u32),
    /// A directive that the profile doesn't read.
    #[error("byte {0}: an unknown directive")]
    Directive(u32),
    /// Memory ran out.
    #[error("out of memory")]
    NoMemory,
}

impl<T: Drop> From<AllocFailed<T>> for LexFault {
    ghost from_gives = { λ _ e. e ≡ NoMemory };

    fn from(_: AllocFailed<T>) -> LexFault {
        LexFault::NoMemory
    }
}

fn fault_at(cause: Cause, at: u32) -> LexFault
    ensures value { result ≡ fault_at cause at }
    ensures place { place_of result ≡ Some at }
{
    match cause {
        Cause::BadByte => LexFault::BadByte(at),
        Cause::OpenComment => LexFault::OpenComment(at),
        Cause::BadNumber => LexFault::BadNumber(at),
        Cause::NumberTooWide => LexFault::NumberTooWide(at),
        Cause::Directive => LexFault::Directive(at),
    }
}

/// The tokens of the text, each the longest that fits (IEEE 1364-2001, section 2, narrowed to the profile), or
/// the first fault in the text.
///
/// White space, comments, attributes and the directives `timescale` and `default_nettype` stand between
/// tokens. A fault carries the byte of the text where the faulty thing begins. `NoMemory` comes only where memory runs out.
pub fn lex(alloc: Global, text: &[u8]) -> Result<Vec<Token>, LexFault>
    requires { length text.now ≤ 1048576 }
    ensures tokens { IfOk result (λ v. Reads text.now (Ok v.items)) }
    ensures fault { IfErr result (λ fault. fault ≢ NoMemory → Reads text.now (Err fault)) }
    ensures place { IfErr result (λ fault. IfSome (place_of fault) (λ at. at < length text.now)) }
    ensures order { IfOk result (λ v. InOrder 0 (length text.now) v.items) }
    ensures kinds { IfOk result (λ v. All (λ token. IsTokenOf token.kind (token_text text.now token)) v.items) }
{
    let mut tokens = Vec::new(alloc);
    let mut at = 0;
    while at < text.len() {
        match text_piece(&text[at..]) {
            Piece::Gap(len) => at += len,
            Piece::Token(kind, len) => {
                let start = at as u32;
                at += len;
                tokens.push(Token {
                    kind,
                    start,
                    end: at as u32,
                })?;
            }
            Piece::Fault(cause) => return Err(fault_at(cause, at as u32)),
        }
    }
    Ok(tokens)
}
