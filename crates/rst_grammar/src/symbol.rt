//! What a token is to the grammar.

ghost use Rattle.std.specs.Prelude.{◌≡◌};

use rst_lex::Literal;
use std::marker::Model;

/// The bytes of a name in the source, which contracts see as their list.
#[derive(Drop)]
pub struct NameText<'a> {
    bytes: &'a [u8],
}

impl<'a> Model for NameText<'a> {
    ghost use Rattle.std.specs.Prelude.{List, ℕ};

    ghost Value = { List ℕ };

    ghost view = { λ n. n.bytes.now };
}

impl<'a> NameText<'a> {
    pub fn new(bytes: &'a [u8]) -> NameText<'a>
        ensures { result ≡ bytes.now }
    {
        NameText { bytes }
    }

    pub fn as_slice(&self) -> &'a [u8]
        ensures { result.now ≡ self.now }
    {
        self.bytes
    }
}

/// A token that is always spelled the same: a keyword, a mark, or one of the two system functions.
#[derive(Clone, Copy, Debug, PartialEq, Eq)]
pub enum Terminal {
    OpenParen,
    CloseParen,
    OpenBracket,
    CloseBracket,
    OpenBrace,
    CloseBrace,
    Comma,
    Semicolon,
    Colon,
    Dot,
    Hash,
    At,
    Equal,
    Question,
    Plus,
    Minus,
    Bang,
    Tilde,
    Amp,
    Bar,
    Caret,
    Star,
    Slash,
    Percent,
    Less,
    Greater,
    ShiftLeft,
    ShiftRight,
    ArithShiftLeft,
    ArithShiftRight,
    LessEqual,
    GreaterEqual,
    EqualEqual,
    BangEqual,
    AmpAmp,
    BarBar,
    TildeAmp,
    TildeBar,
    TildeCaret,
    Module,
    Endmodule,
    Input,
    Output,
    Wire,
    Reg,
    Signed,
    Parameter,
    Localparam,
    Assign,
    Always,
    Posedge,
    Negedge,
    Or,
    Begin,
    End,
    If,
    Else,
    Case,
    Casez,
    Default,
    Endcase,
    SystemSigned,
    SystemUnsigned,
}

/// A token without its place.
#[derive(Drop)]
pub enum Symbol<'a> {
    Name(NameText<'a>),
    Number(Literal),
    Terminal(Terminal),
}
