// Sized expressions.

use crate::typed_expr::{Shape, TypedExpr, TypedNode, WidthFault};
use rst_word::{BinaryOp, UnaryOp};

// A typed expression, or the first fault of it.
pub type Answer = Result<TypedExpr, WidthFault>;

// What a look at a place and its parts gave, for a place that doesn't work in its context.
#[derive(Drop)]
pub enum Found {
    // The first fault of its parts, or a name that isn't declared.
    Earlier(WidthFault),
    // A fault of the place itself, which comes behind the place's own TooWide.
    Own(WidthFault),
    Good(TypedNode),
}

// An expression whose names are looked up, and whose parts that stand by themselves are typed.
#[derive(Drop)]
pub enum SizedExpr {
    // What doesn't work in its context, with its own width, 65 standing for all above 64, and sign.
    Leaf(Shape, Found),
    Unary(UnaryOp, Box<SizedExpr>),
    Binary(BinaryOp, Box<SizedExpr>, Box<SizedExpr>),
    // A shift, with its amount.
    Shift(BinaryOp, Box<SizedExpr>, Answer),
    // A choice, with its condition.
    Choose(Answer, Box<SizedExpr>, Box<SizedExpr>),
}
