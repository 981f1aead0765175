// Expressions from their parts, and lists of them.

ghost use Rattle.std.specs.Prelude.{◌≡◌, max, IfOk};
ghost use Rattle.rst_tree.specs.Trees.{plain, plain_all, more, end, appended, Binary, Join, Repeat};

use crate::parsed::{Many, Parsed};
use rst_grammar::Symbol;
use rst_tree::Expr;
use rst_word::BinaryOp;
use std::alloc::{AllocError, Global};

/// Two values, each in a box.
pub fn both_boxed<A: Drop, B: Drop>(
    alloc: Global,
    a: A,
    b: B,
) -> Result<(Box<A>, Box<B>), AllocError>
    ensures { IfOk result (λ x. (x.0.value ≡ a) × (x.1.value ≡ b)) }
{
    let a = Box::new(alloc, a)?;
    Ok((a, Box::new(alloc, b)?))
}

// A binary operator over its operands.
pub fn binary_tree(alloc: Global, op: BinaryOp, left: Expr, right: Expr) -> Result<Expr, AllocError>
    ensures { IfOk result (λ e. plain e ≡ Binary op (plain left) (plain right)) }
{
    let (left, right) = both_boxed(alloc, left, right)?;
    Ok(Expr::Binary(op, left, right))
}

// A join of these parts.
#[tactic(auto, using(rst_tree::proofs::Rows::rows))]
pub fn joined(parts: Vec<Expr>) -> Expr
    ensures { plain result ≡ Join (plain_all parts.items) }
{
    Expr::Join(parts)
}

// These parts, this many times.
pub fn repeated(count: Box<Expr>, parts: Vec<Expr>) -> Expr
    ensures { plain result ≡ Repeat (plain count.value) (plain_all parts.items) }
{
    Expr::Repeat(count, parts)
}

// A list of one, and the symbols behind it.
pub fn alone<'s, 'a>(
    alloc: Global,
    first: Parsed,
    rest: &'s [Symbol<'a>],
) -> Result<(Many, &'s [Symbol<'a>]), AllocError>
    ensures trees { IfOk result (λ x. plain_all x.0.trees.items ≡ more (plain first.tree) end) }
    ensures depth { IfOk result (λ x. x.0.depth ≡ first.depth) }
    ensures behind { IfOk result (λ x. x.1.now ≡ rest.now) }
{
    let mut trees = Vec::new(alloc);
    let depth = first.depth;
    trees.push(first.tree)?;
    Ok((Many { trees, depth }, rest))
}

// A list with one more behind it.
#[tactic(auto, using(crate::proofs::Rows::pushes))]
pub fn and(all: Many, next: Parsed) -> Result<Many, AllocError>
    ensures { IfOk result (λ m. (plain_all m.trees.items ≡ appended (plain_all all.trees.items) (plain next.tree)) × (m.depth ≡ max all.depth next.depth)) }
{
    let mut trees = all.trees;
    let depth = all.depth.max(next.depth);
    trees.push(next.tree)?;
    Ok(Many { trees, depth })
}
