// Statements and arms from their parts, and lists of them.

ghost use Rattle.std.specs.Prelude.{◌≡◌, ◌-◌, max, IfOk};
ghost use Rattle.rst_grammar.specs.ReadStatement.{default_colon};
ghost use Rattle.rst_tree.specs.Trees.{plain, plain_all};
ghost use Rattle.rst_tree.specs.Statements.{Block, If, IfElse, Case, end, no_arm, labels as labelled, otherwise, plain_stmt, plain_stmts, plain_arm, plain_arms, appended, appended_arms};

use crate::parsed::{ManyArms, ManyStmts, ParsedArm, ParsedStmt};
use rst_grammar::{Symbol, Terminal};
use rst_read::{Many, both_boxed};
use rst_tree::{Arm, CaseStmt, Expr, Stmt};
use std::alloc::{AllocError, Global};

// A block of these statements.
#[tactic(auto, using(rst_tree::proofs::Rows::statement_rows))]
pub fn block(stmts: Vec<Stmt>) -> Stmt
    ensures { plain_stmt result ≡ Block (plain_stmts stmts.items) }
{
    Stmt::Block(stmts)
}

// A condition without an `else`.
pub fn if_alone(alloc: Global, test: Expr, yes: Stmt) -> Result<Stmt, AllocError>
    ensures { IfOk result (λ s. plain_stmt s ≡ If (plain test) (plain_stmt yes)) }
{
    Ok(Stmt::If(test, Box::new(alloc, yes)?, None))
}

// A condition with an `else`.
pub fn if_else(alloc: Global, test: Expr, yes: Stmt, no: Stmt) -> Result<Stmt, AllocError>
    ensures { IfOk result (λ s. plain_stmt s ≡ IfElse (plain test) (plain_stmt yes) (plain_stmt no)) }
{
    let (yes, no) = both_boxed(alloc, yes, no)?;
    Ok(Stmt::If(test, yes, Some(no)))
}

// A case over these arms.
pub fn case_of(wild: bool, selector: Expr, arms: Vec<Arm>) -> Stmt
    ensures { plain_stmt result ≡ Case wild (plain selector) (plain_arms arms.items) }
{
    Stmt::Case(CaseStmt {
        wild,
        selector,
        arms,
    })
}

// No statement, and the symbols behind it.
pub fn no_stmts<'s, 'a>(alloc: Global, rest: &'s [Symbol<'a>]) -> (ManyStmts, &'s [Symbol<'a>])
    ensures stmts { plain_stmts result.0.stmts.items ≡ end }
    ensures depth { result.0.depth ≡ 0 }
    ensures behind { result.1.now ≡ rest.now }
{
    let stmts = Vec::new(alloc);
    (ManyStmts { stmts, depth: 0 }, rest)
}

// A list with one more behind it.
#[tactic(auto, using(crate::proofs::Rows::statement_pushes))]
pub fn and(all: ManyStmts, next: ParsedStmt) -> Result<ManyStmts, AllocError>
    ensures { IfOk result (λ m. (plain_stmts m.stmts.items ≡ appended (plain_stmts all.stmts.items) (plain_stmt next.stmt)) × (m.depth ≡ max all.depth next.depth)) }
{
    let mut stmts = all.stmts;
    let depth = all.depth.max(next.depth);
    stmts.push(next.stmt)?;
    Ok(ManyStmts { stmts, depth })
}

// An arm with labels.
pub fn labelled_arm(labels: Many, body: ParsedStmt) -> ParsedArm
    ensures arm { plain_arm result.arm no_arm ≡ labelled (plain_all labels.trees.items) (plain_stmt body.stmt) no_arm }
    ensures depth { result.depth ≡ max labels.depth body.depth }
{
    let depth = labels.depth.max(body.depth);
    let arm = Arm::Labels(labels.trees, body.stmt);
    ParsedArm {
        arm,
        depth,
        default_count: 0,
    }
}

// The default.
pub fn default_arm(body: ParsedStmt) -> ParsedArm
    ensures arm { plain_arm result.arm no_arm ≡ otherwise (plain_stmt body.stmt) no_arm }
    ensures depth { result.depth ≡ body.depth }
{
    let depth = body.depth;
    let arm = Arm::Otherwise(body.stmt);
    ParsedArm {
        arm,
        depth,
        default_count: 1,
    }
}

// How many defaults may come behind so many more.
pub fn defaults_left(most: u8, more: u8) -> u8
    ensures { result ≡ most - more }
{
    most.saturating_sub(more)
}

// No arm, and the symbols behind it.
pub fn no_arms<'s, 'a>(alloc: Global, rest: &'s [Symbol<'a>]) -> (ManyArms, &'s [Symbol<'a>])
    ensures arms { plain_arms result.0.arms.items ≡ no_arm }
    ensures depth { result.0.depth ≡ 0 }
    ensures behind { result.1.now ≡ rest.now }
{
    let arms = Vec::new(alloc);
    (ManyArms { arms, depth: 0 }, rest)
}

// Arms with one more behind them.
#[tactic(auto, using(crate::proofs::Rows::arm_pushes))]
pub fn and_arm(all: ManyArms, next: ParsedArm) -> Result<ManyArms, AllocError>
    ensures { IfOk result (λ m. (plain_arms m.arms.items ≡ appended_arms (plain_arms all.arms.items) (plain_arm next.arm no_arm)) × (m.depth ≡ max all.depth next.depth)) }
{
    let mut arms = all.arms;
    let depth = all.depth.max(next.depth);
    arms.push(next.arm)?;
    Ok(ManyArms { arms, depth })
}

// The symbols behind the colon that may follow `default`.
pub fn default_colon<'s, 'a>(symbols: &'s [Symbol<'a>]) -> &'s [Symbol<'a>]
    ensures { result.now ≡ default_colon symbols.now }
{
    match symbols {
        [Symbol::Terminal(Terminal::Colon), rest @ ..] => rest,
        _ => symbols,
    }
}
