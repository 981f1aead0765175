// Whether two trees are the same.

ghost use Rattle.std.specs.Prelude.{◌≡◌, ◌↔◌, IsTrue};
ghost use Rattle.std.specs.Option.{option_map};
ghost use Rattle.rst_tree.specs.Trees.{plain, plain_all};
ghost use Rattle.rst_tree.specs.Modules.{plain_range};

use crate::expr::Expr;
use crate::module::Range;
use rst_lex::Literal;
use rst_outside::Name;

fn same_name(a: &Name, b: &Name) -> bool
    ensures { IsTrue result ↔ (a.now ≡ b.now) }
{
    a.as_slice() == b.as_slice()
}

fn same_number(a: &Literal, b: &Literal) -> bool
    ensures { IsTrue result ↔ (a.now ≡ b.now) }
{
    a == b
}

/// Whether two expressions are the same tree: parentheses count, and literals of one width, sign and value are the same
/// however they are spelled. It takes as many calls inside one another as the lower tree is high.
#[cycle(same)]
#[tactic(auto, using(crate::proofs::Rows::rows))]
pub fn same_expr(a: &Expr, b: &Expr) -> bool
    ensures { IsTrue result ↔ (plain a.now ≡ plain b.now) }
{
    match (a, b) {
        (Expr::Number(a), Expr::Number(b)) => same_number(a, b),
        (Expr::Name(a), Expr::Name(b)) => same_name(a, b),
        (Expr::Bit(a, i), Expr::Bit(b, j)) => same_name(a, b) && same_expr(i, j),
        (Expr::Part(a, h, i), Expr::Part(b, k, j)) => {
            same_name(a, b) && same_expr(h, k) && same_expr(i, j)
        }
        (Expr::Paren(a), Expr::Paren(b)) => same_expr(a, b),
        (Expr::Unary(o, a), Expr::Unary(p, b)) => o == p && same_expr(a, b),
        (Expr::Binary(o, a, c), Expr::Binary(p, b, d)) => {
            o == p && same_expr(a, b) && same_expr(c, d)
        }
        (Expr::Choose(s, a, c), Expr::Choose(t, b, d)) => {
            same_expr(s, t) && same_expr(a, b) && same_expr(c, d)
        }
        (Expr::Join(a), Expr::Join(b)) => all_same(a, b),
        (Expr::Repeat(m, a), Expr::Repeat(n, b)) => same_expr(m, n) && all_same(a, b),
        (Expr::Signed(a), Expr::Signed(b)) => same_expr(a, b),
        (Expr::Unsigned(a), Expr::Unsigned(b)) => same_expr(a, b),
        _ => false,
    }
}

// Whether two lists have the same trees.
#[cycle(same)]
fn all_same(a: &[Expr], b: &[Expr]) -> bool
    ensures { IsTrue result ↔ (plain_all a.now ≡ plain_all b.now) }
{
    if a.len() != b.len() {
        return false;
    }
    for i in 0..a.len() {
        if !same_expr(&a[i], &b[i]) {
            return false;
        }
    }
    true
}

/// Whether two declarations have the same range, or both have none (IEEE 1364-2001, clause 12.3.3, where the range of a
/// port and that of its net have to agree).
pub fn same_range(a: &Option<Range>, b: &Option<Range>) -> bool
    ensures { IsTrue result ↔ (option_map plain_range a.now ≡ option_map plain_range b.now) }
{
    match (a, b) {
        (Some(a), Some(b)) => same_expr(&a.high, &b.high) && same_expr(&a.low, &b.low),
        (None, None) => true,
        _ => false,
    }
}
