// Typed expressions.

ghost use Rattle.std.specs.Prelude.{◌≡◌};
ghost use Rattle.rst_width.specs.declared.typed_expr.WidthFault.TheVariants.{NoMemory};

use rst_outside::{Name, NoMemory};
use rst_word::{BinaryOp, UnaryOp, Word};
use std::alloc::{AllocError, AllocFailed};

/// A width in bits and a sign.
#[derive(Clone, Copy, Debug, PartialEq, Eq)]
pub struct Shape {
    pub width: u8,
    pub signed: bool,
}

/// An expression with its final width, 1 to 64 bits, and its final sign.
#[derive(Drop)]
#[cycle(typed)]
pub struct TypedExpr {
    pub width: u8,
    pub signed: bool,
    pub node: TypedNode,
}

/// What stands at a place of a typed expression.
///
/// The operands of an operator have the width that it works at: those of `+ - * / % & | ^ ~^`, of unary `+ - ~` and the branches
/// of a choice have its own width and sign, and so has the left operand of a shift. Both operands of a comparison have one width
/// and one sign. The operands of `! && ||` and of the reductions, conditions, indices, amounts and the parts of a join have the
/// width and sign that they have by themselves.
#[derive(Drop)]
#[cycle(typed)]
pub enum TypedNode {
    /// A literal or a parameter. The sign of the place counts, not that of the word.
    Word(Word),
    /// The whole signal of this number.
    Signal(u32),
    /// Bits of a signal: its number, the place of the lowest bit, counted from the signal's own lowest bit, and how many.
    Slice(u32, u8, u8),
    /// One bit of a signal, the place of which is the value of the index.
    Pick(u32, Box<TypedExpr>),
    Unary(UnaryOp, Box<TypedExpr>),
    Binary(BinaryOp, Box<TypedExpr>, Box<TypedExpr>),
    /// `c ? a : b`
    Choose(Box<TypedExpr>, Box<TypedExpr>, Box<TypedExpr>),
    /// The parts of a join, the most significant first.
    Join(Vec<TypedExpr>),
    /// The parts of a repetition, and how often they stand there.
    Repeat(u8, Vec<TypedExpr>),
    /// A narrower expression, the top bit of which is copied to the new bits where the place is signed; else they are 0.
    Extend(Box<TypedExpr>),
    /// The same bits, read by another sign: `$signed(e)` and `$unsigned(e)`.
    Sign(Box<TypedExpr>),
}

/// Why an expression has no typed form.
#[derive(Drop)]
pub enum WidthFault {
    /// A name that is not declared.
    NoName(Name),
    /// A final width above 64 bits.
    TooWide,
    /// A repetition with a count below 1.
    ZeroWidth,
    /// A select of a scalar or of a parameter, or one that leaves the range or runs against it.
    BadSelect,
    /// A variable index that can leave the range.
    MayLeaveRange,
    /// A signal where a constant has to stand.
    NotConstant,
    /// A division by 0.
    ZeroDivisor,
    /// Memory ran out.
    NoMemory,
}

impl From<AllocError> for WidthFault {
    ghost from_gives = { λ _ e. e ≡ NoMemory };

    fn from(_: AllocError) -> WidthFault {
        WidthFault::NoMemory
    }
}

impl<T: Drop> From<AllocFailed<T>> for WidthFault {
    ghost from_gives = { λ _ e. e ≡ NoMemory };

    fn from(_: AllocFailed<T>) -> WidthFault {
        WidthFault::NoMemory
    }
}

impl From<NoMemory> for WidthFault {
    ghost from_gives = { λ _ e. e ≡ NoMemory };

    fn from(_: NoMemory) -> WidthFault {
        WidthFault::NoMemory
    }
}
