// The heights of trees.
use crate::texts::{expr_of, stmt_of, with_expr, with_stmt};
use rst_table::{Unlike, agree};
use rst_tree::{height, height_of};
use std::alloc::Global;

fn height_of_expr(alloc: Global, text: &str) -> Option<u32> {
    let source = with_expr(alloc, text)?;
    Some(height(expr_of(&source)?))
}

const EXPRESSIONS: &str = "
    a           => 1
    a[i]        => 2
    a[(h):l]    => 3
    c ? a : (b) => 3
    // A list adds no level of its own.
    {a, (a)}    => 3
    {2{a, (a)}} => 3
    {a, (a)} + a => 4
    -$signed(a) => 3
    $unsigned(a) * (a) => 3
";

#[test]
fn of_expressions(rt: HostRuntime) -> Result<(), Unlike> {
    agree(rt.alloc(), EXPRESSIONS, height_of_expr)
}

fn height_of_stmt(alloc: Global, text: &str) -> Option<u32> {
    let source = with_stmt(alloc, text)?;
    Some(height_of(stmt_of(&source)?))
}

const STATEMENTS: &str = "
    ; => 1
    begin end => 1
    begin ; q = {a, (a)} + a; end => 6
    {q, r[(a)]} <= a; => 5
    if (a) ; => 2
    if (a) ; else if ((a)) ; => 4
    case (a) b, (c): ; default ; endcase => 3
    case (a) b: begin ; end default begin begin end end endcase => 3
";

#[test]
fn of_statements(rt: HostRuntime) -> Result<(), Unlike> {
    agree(rt.alloc(), STATEMENTS, height_of_stmt)
}
