// Which ranges are the same.
use crate::texts::{only_module, with_items};
use rst_table::{Unlike, agree};
use rst_tree::{Item, NetDecl, Source, same_expr, same_range};
use std::alloc::Global;

// The declaration of wires that is the item of this number.
fn wires(source: &Source, at: usize) -> Option<&NetDecl> {
    match only_module(source)?.items.get(at)? {
        Item::Net(decl) => Some(decl),
        _ => None,
    }
}

// Whether the ranges of the first two declarations are the same.
fn have_same(alloc: Global, items: &str) -> Option<bool> {
    let source = with_items(alloc, items)?;
    let first = wires(&source, 0)?;
    let second = wires(&source, 1)?;
    Some(same_range(&first.range, &second.range))
}

const DECLARATIONS: &str = "
    wire [3:0] v; wire [3:0] w;   => true
    wire v; wire w;               => true
    wire v; wire [0:0] w;         => false
    wire [3:0] v; wire [3:1] w;   => false
    wire [3:0] v; wire [4:0] w;   => false
    wire [3:0] v; wire [(3):0] w; => false
    // One literal in two spellings, and two of one value.
    wire [8'hf:0] v; wire [8'b0000_1111:0] w; => true
    wire [4'd3:0] v; wire [3:0] w;            => false
    wire [{2{a, b[1]}}:-c[2:1]] v; wire [{2{a,b[1]}}:-c[2:1]] w; => true
    wire [{a, b}:0] v; wire [{a, b, b}:0] w;             => false
    wire [{2{a, b}}:0] v; wire [{2{a, c}}:0] w;          => false
    wire [a ? b : c:0] v; wire [a ? b : a:0] w;          => false
    wire [$signed(a):0] v; wire [$unsigned(a):0] w;      => false
    wire [a + b:0] v; wire [a - b:0] w;                  => false
";

#[test]
fn of_two_declarations(rt: HostRuntime) -> Result<(), Unlike> {
    agree(rt.alloc(), DECLARATIONS, have_same)
}

// Whether the ends of the first declaration's range are the same.
fn have_same_ends(alloc: Global, items: &str) -> Option<bool> {
    let source = with_items(alloc, items)?;
    let range = wires(&source, 0)?.range.as_ref()?;
    Some(same_expr(&range.high, &range.low))
}

const ENDS: &str = "
    wire [a * 2:a * 2] v; => true
    wire [a * 2:2 * a] v; => false
    wire v;               => none
";

#[test]
fn of_two_ends(rt: HostRuntime) -> Result<(), Unlike> {
    agree(rt.alloc(), ENDS, have_same_ends)
}
