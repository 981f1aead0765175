// The height of a tree.

ghost use Rattle.std.specs.Prelude.{◌≡◌, ◌+◌, ◌-◌, ◌^◌, min, max};
ghost use Rattle.rst_tree.specs.Trees.{plain, plain_all, height, greatest};
ghost use Rattle.rst_tree.specs.Targets.{plain_target, plain_targets, height_of_target, greatest_target};
ghost use Rattle.rst_tree.specs.Statements.{plain_stmt, plain_stmts, plain_arms, height_of, greatest_of, greatest_of_arms, plain_arm, no_arm};

use crate::expr::{Expr, Target};
use crate::stmt::{Arm, Stmt};

// The height of a node over parts of this greatest height.
fn above(parts: u32) -> u32
    ensures { result ≡ min (parts + 1) (2 ^ 32 - 1) }
{
    parts.saturating_add(1)
}

/// The height of an expression, counted in nodes: 1 where it has no parts, else one more than the greatest height of
/// its parts. It is 2^32 - 1 where the height is greater. It takes as many calls inside one another as the tree is high.
#[cycle(heights)]
#[tactic(auto, using(crate::proofs::Rows::rows))]
pub fn height(expr: &Expr) -> u32
    ensures { result ≡ min (height (plain expr.now)) (2 ^ 32 - 1) }
{
    match expr {
        Expr::Number(_) | Expr::Name(_) => 1,
        Expr::Bit(_, index) => above(height(index)),
        Expr::Part(_, high, low) => above(height(high).max(height(low))),
        Expr::Paren(inner) | Expr::Unary(_, inner) | Expr::Signed(inner) | Expr::Unsigned(inner) =>
            { above(height(inner)) }
        Expr::Binary(_, left, right) => above(height(left).max(height(right))),
        Expr::Choose(test, yes, no) => above(height(test).max(height(yes).max(height(no)))),
        Expr::Join(parts) => above(greatest(parts)),
        Expr::Repeat(count, parts) => above(height(count).max(greatest(parts))),
    }
}

// The greatest height of some expressions, 0 where there is none.
#[cycle(heights)]
fn greatest(exprs: &[Expr]) -> u32
    ensures { result ≡ min (greatest (plain_all exprs.now)) (2 ^ 32 - 1) }
{
    let mut tallest = 0;
    for expr in exprs {
        tallest = height(expr).max(tallest);
    }
    tallest
}

// The height of a target.
#[cycle(target_heights)]
#[tactic(auto, using(crate::proofs::Rows::target_rows))]
fn height_of_target(target: &Target) -> u32
    ensures { result ≡ min (height_of_target (plain_target target.now)) (2 ^ 32 - 1) }
{
    match target {
        Target::Whole(_) => 1,
        Target::Bit(_, index) => above(height(index)),
        Target::Part(_, high, low) => above(height(high).max(height(low))),
        Target::Join(parts) => above(greatest_target(parts)),
    }
}

// The greatest height of some targets, 0 where there is none.
#[cycle(target_heights)]
fn greatest_target(targets: &[Target]) -> u32
    ensures { result ≡ min (greatest_target (plain_targets targets.now)) (2 ^ 32 - 1) }
{
    let mut tallest = 0;
    for target in targets {
        tallest = height_of_target(target).max(tallest);
    }
    tallest
}

/// The height of a statement, counted in nodes, which are its statements, expressions and targets: 1 where it has no
/// parts, else one more than the greatest height of its parts. It is 2^32 - 1 where the height is greater. It takes as
/// many calls inside one another as the tree is high.
#[cycle(statement_heights)]
#[tactic(auto, using(crate::proofs::Rows::statement_rows))]
pub fn height_of(stmt: &Stmt) -> u32
    ensures { result ≡ min (height_of (plain_stmt stmt.now)) (2 ^ 32 - 1) }
{
    match stmt {
        Stmt::Block(stmts) => above(greatest_of(stmts)),
        Stmt::If(test, yes, None) => above(height(test).max(height_of(yes))),
        Stmt::If(test, yes, Some(no)) => {
            above(height(test).max(height_of(yes).max(height_of(no))))
        }
        Stmt::Case(case) => above(height(&case.selector).max(greatest_of_arms(&case.arms))),
        Stmt::Set(set) => above(height_of_target(&set.target).max(height(&set.value))),
        Stmt::Empty => 1,
    }
}

// The greatest height of some statements, 0 where there is none.
#[cycle(statement_heights)]
fn greatest_of(stmts: &[Stmt]) -> u32
    ensures { result ≡ min (greatest_of (plain_stmts stmts.now)) (2 ^ 32 - 1) }
{
    let mut tallest = 0;
    for stmt in stmts {
        tallest = height_of(stmt).max(tallest);
    }
    tallest
}

// The greatest height in an arm.
#[cycle(statement_heights)]
fn height_of_arm(arm: &Arm) -> u32
    ensures { result ≡ min (greatest_of_arms (plain_arm arm.now no_arm)) (2 ^ 32 - 1) }
{
    match arm {
        Arm::Labels(labels, body) => greatest(labels).max(height_of(body)),
        Arm::Otherwise(body) => height_of(body),
    }
}

// The greatest height in some arms, 0 where there is none.
#[cycle(statement_heights)]
fn greatest_of_arms(arms: &[Arm]) -> u32
    ensures { result ≡ min (greatest_of_arms (plain_arms arms.now)) (2 ^ 32 - 1) }
{
    let mut tallest = 0;
    for arm in arms {
        tallest = height_of_arm(arm).max(tallest);
    }
    tallest
}
