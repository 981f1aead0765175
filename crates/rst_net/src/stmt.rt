// Typed statements.

use crate::signal::Slice;
use rst_width::TypedExpr;

/// A statement with typed expressions (IEEE 1364-2001, clause 9).
#[cycle(stmt)]
#[derive(Drop)]
pub enum TypedStmt {
    Block(Vec<TypedStmt>),
    /// The condition, the first branch, and the other one, which is `Empty` where the text has none.
    If(Box<TypedExpr>, Box<TypedStmt>, Box<TypedStmt>),
    Case(TypedCase),
    Set(Box<TypedSet>),
    Empty,
}

/// A case (IEEE 1364-2001, clause 9.5). The selector and all labels have one width and one sign.
#[cycle(stmt)]
#[derive(Drop)]
pub struct TypedCase {
    pub selector: Box<TypedExpr>,
    pub arms: Vec<TypedArm>,
    /// The statement of `default`, wherever it is written.
    pub otherwise: Option<Box<TypedStmt>>,
    /// Whether a label matches whatever value the selector has.
    pub full: bool,
}

/// The arm of a case.
#[cycle(stmt)]
#[derive(Drop)]
pub struct TypedArm {
    pub labels: Vec<TypedLabel>,
    pub body: TypedStmt,
}

/// The label of an arm. The bits of `mask` are not compared.
#[derive(Drop)]
pub struct TypedLabel {
    pub value: Box<TypedExpr>,
    pub mask: u64,
}

/// A set of a block, an assign or a link.
#[derive(Drop)]
pub struct TypedSet {
    /// The parts of the target, the most significant first.
    pub target: Vec<Slice>,
    /// The value, at the larger of its own width and the target's.
    pub value: Box<TypedExpr>,
    /// Whether it is written with `=`, as every assign is.
    pub blocking: bool,
}
