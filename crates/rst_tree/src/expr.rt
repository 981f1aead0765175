// Expressions and targets.

use rst_lex::Literal;
use rst_outside::Name;
use rst_word::{BinaryOp, UnaryOp};

/// An expression (IEEE 1364-2001, annex A.8).
#[derive(Drop)]
pub enum Expr {
    Number(Literal),
    Name(Name),
    /// One bit of a vector: `a[i]`.
    Bit(Name, Box<Expr>),
    /// Bits from a high to a low one: `a[h:l]`.
    Part(Name, Box<Expr>, Box<Expr>),
    /// `(e)`, kept since it can stand where a bare expression may not.
    Paren(Box<Expr>),
    Unary(UnaryOp, Box<Expr>),
    Binary(BinaryOp, Box<Expr>, Box<Expr>),
    /// `c ? a : b`
    Choose(Box<Expr>, Box<Expr>, Box<Expr>),
    /// `{a, b}`, the most significant part first.
    Join(Vec<Expr>),
    /// `{n{a, b}}`
    Repeat(Box<Expr>, Vec<Expr>),
    /// `$signed(e)`
    Signed(Box<Expr>),
    /// `$unsigned(e)`
    Unsigned(Box<Expr>),
}

/// What an assignment sets (IEEE 1364-2001, annex A.8.5).
#[derive(Drop)]
pub enum Target {
    Whole(Name),
    Bit(Name, Expr),
    Part(Name, Expr, Expr),
    Join(Vec<Target>),
}
