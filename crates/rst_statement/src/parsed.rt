// What was read, with its height.

ghost use Rattle.std.specs.Prelude.{◌≡◌};
ghost use Rattle.rst_tree.specs.Targets.{plain_target, plain_targets, height_of_target, greatest_target};
ghost use Rattle.rst_tree.specs.Statements.{plain_stmt, plain_stmts, plain_arm, plain_arms, no_arm, height_of, greatest_of, greatest_of_arms};
ghost use Rattle.rst_tree.specs.WellFormed.{defaults};

use rst_tree::{Arm, Stmt, Target};

/// A target with its height.
#[derive(Drop)]
pub struct ParsedTarget {
    pub target: Target,
    pub depth: u32,
    pub ghost exact: { depth ≡ height_of_target (plain_target target) },
}

/// Targets with their greatest height.
#[derive(Drop)]
pub struct ManyTargets {
    pub targets: Vec<Target>,
    pub depth: u32,
    pub ghost exact: { depth ≡ greatest_target (plain_targets targets.items) },
}

/// A statement with its height.
#[derive(Drop)]
pub struct ParsedStmt {
    pub stmt: Stmt,
    pub depth: u32,
    pub ghost exact: { depth ≡ height_of (plain_stmt stmt) },
}

/// Statements with their greatest height.
#[derive(Drop)]
pub struct ManyStmts {
    pub stmts: Vec<Stmt>,
    pub depth: u32,
    pub ghost exact: { depth ≡ greatest_of (plain_stmts stmts.items) },
}

/// An arm of a case with the greatest height in it. It counts as one default or as none.
#[derive(Drop)]
pub struct ParsedArm {
    pub arm: Arm,
    pub depth: u32,
    pub default_count: u8,
    pub ghost exact: { depth ≡ greatest_of_arms (plain_arm arm no_arm) },
    pub ghost counted: { default_count ≡ defaults (plain_arm arm no_arm) },
}

/// Arms with the greatest height in them.
#[derive(Drop)]
pub struct ManyArms {
    pub arms: Vec<Arm>,
    pub depth: u32,
    pub ghost exact: { depth ≡ greatest_of_arms (plain_arms arms.items) },
}
