// Statements.

use crate::expr::{Expr, Target};

/// A statement of an `always` block (IEEE 1364-2001, annex A.6).
#[cycle(stmt)]
#[derive(Drop)]
pub enum Stmt {
    /// `begin .. end`
    Block(Vec<Stmt>),
    /// The condition, the first branch, and the branch behind `else`.
    If(Expr, Box<Stmt>, Option<Box<Stmt>>),
    Case(CaseStmt),
    Set(SetStmt),
    /// A lone `;`.
    Empty,
}

/// `case` or `casez` (IEEE 1364-2001, clause 9.5).
#[cycle(stmt)]
#[derive(Drop)]
pub struct CaseStmt {
    /// Whether it is a `casez`.
    pub wild: bool,
    pub selector: Expr,
    pub arms: Vec<Arm>,
}

/// One arm of a case.
#[cycle(stmt)]
#[derive(Drop)]
pub enum Arm {
    Labels(Vec<Expr>, Stmt),
    /// `default`
    Otherwise(Stmt),
}

/// An assignment inside a block (IEEE 1364-2001, clause 9.2).
#[derive(Drop)]
pub struct SetStmt {
    pub target: Target,
    pub value: Expr,
    /// Whether it is written with `=`, else with `<=`.
    pub blocking: bool,
}
