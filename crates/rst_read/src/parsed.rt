// What was read, with its height.

ghost use Rattle.std.specs.Prelude.{◌≡◌};
ghost use Rattle.rst_tree.specs.Trees.{plain, plain_all, height, greatest};

use rst_tree::Expr;

/// The greatest height of an expression, a target or a statement, counted in nodes.
pub const MOST_HEIGHT: u8 = 200;

/// An expression with its height.
#[derive(Drop)]
pub struct Parsed {
    pub tree: Expr,
    pub depth: u32,
    pub ghost exact: { depth ≡ height (plain tree) },
}

/// An expression in a box with its height.
#[derive(Drop)]
pub struct Boxed {
    pub tree: Box<Expr>,
    pub depth: u32,
    pub ghost exact: { depth ≡ height (plain tree.value) },
}

/// Expressions with their greatest height.
#[derive(Drop)]
pub struct Many {
    pub trees: Vec<Expr>,
    pub depth: u32,
    pub ghost exact: { depth ≡ greatest (plain_all trees.items) },
}
