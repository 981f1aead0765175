// What stands at the front of a text, with what numbers are worth.
ghost use Rattle.std.specs.Prelude.{◌≡◌, ◌≤◌, ◌<◌, ◌^◌, ◌+◌, length, take, drop, if◌then◌else◌};
ghost use Rattle.rst_lex.specs.Words.{is_keyword};
ghost use Rattle.rst_lex.specs.Literals.{IsPlain};
ghost use Rattle.rst_lex.specs.Pieces.{IsPiece, IsBasedPiece};

use crate::front::{Cause, Front, Tail, text_front};
use crate::literal::{based, plain};
use crate::token::{Literal, TokenKind};
use crate::words::is_keyword;

#[derive(Clone, Copy)]
pub(crate) enum Piece {
    Gap(usize),
    Token(TokenKind, usize),
    Fault(Cause),
}

fn word_kind(text: &[u8], len: usize) -> TokenKind
    requires { len ≤ length text.now }
    ensures { result ≡ (if is_keyword (take len text.now) then TokenKind.Keyword else TokenKind.Name) }
{
    if is_keyword(&text[..len]) {
        TokenKind::Keyword
    } else {
        TokenKind::Name
    }
}

fn plain_front(text: &[u8], len: usize) -> Literal
    requires { len ≤ length text.now }
    ensures { IsPlain result (take len text.now) }
{
    plain(&text[..len])
}

fn based_front(text: &[u8], size: usize, gap: usize, tail: Tail) -> Piece
    requires parts { size + gap + 1 + tail.sign + 1 + tail.space + tail.digits ≤ length text.now }
    requires short { length text.now < 2 ^ 32 }
    ensures { IsBasedPiece result (take size text.now) tail (take tail.digits (drop (size + gap + tail.sign + tail.space + 2) text.now)) (size + gap + tail.sign + tail.space + tail.digits + 2) }
{
    let start = size + gap + tail.sign + tail.space + 2;
    let end = start + tail.digits;
    match based(&text[..size], tail.sign > 0, tail.letter, &text[start..end]) {
        Ok(literal) => Piece::Token(TokenKind::Number(literal), end),
        Err(cause) => Piece::Fault(cause),
    }
}

pub(crate) fn text_piece(text: &[u8]) -> Piece
    requires some { 0 < length text.now }
    requires short { length text.now < 2 ^ 32 }
    ensures { IsPiece result text.now }
{
    match text_front(text) {
        Front::Gap(len) => Piece::Gap(len),
        Front::Word(len) => Piece::Token(word_kind(text, len), len),
        Front::System(len) => Piece::Token(TokenKind::System, len),
        Front::Decimal(len) => Piece::Token(TokenKind::Number(plain_front(text, len)), len),
        Front::Based(size, gap, tail) => based_front(text, size, gap, tail),
        Front::Mark(len) => Piece::Token(TokenKind::Mark, len),
        Front::Fault(cause) => Piece::Fault(cause),
    }
}
