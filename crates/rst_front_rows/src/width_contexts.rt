// Widths where an expression has a fault, stands in a wide context, or names what has no width yet, and those of targets.

use crate::texts::{expr_of, only_module, with_expr, with_items};
use crate::widths::{Fault, kind_of, parts, scope};
use indexmap::IndexMap;
use rst_outside::{Name, NoMemory};
use rst_table::{Unlike, agree};
use rst_tree::{Assign, Item, Source, Target};
use rst_width::{
    Shape, TypedExpr, TypedNode, Unshaped, UnshapedNames, constant, constant_among, own_shape,
    typed, typed_in, typed_target,
};
use std::alloc::Global;

// The width and sign of an expression, whatever faults it has.
fn shape_of(alloc: Global, text: &str) -> Option<Shape> {
    let source = with_expr(alloc, text)?;
    let scope = scope(alloc).ok()?;
    own_shape(alloc, expr_of(&source)?, &scope).ok()
}

const SHAPES: &str = "
    a / 4'd0      => Shape { width: 4, signed: false }
    {a[9], 4'd0}  => Shape { width: 5, signed: false }
    $signed(a[9]) => Shape { width: 1, signed: true }
    // What a fault leaves open changes nothing around it.
    x         => Shape { width: 0, signed: true }
    a[0:3]    => Shape { width: 0, signed: true }
    x + 8'sd1 => Shape { width: 8, signed: true }
    {x, a}    => Shape { width: 4, signed: false }
    // 65 stands for all widths above 64.
    {70{c}}   => Shape { width: 65, signed: false }
    x[100:0]  => Shape { width: 65, signed: false }
";

#[test]
fn shapes_of_faulty_expressions(rt: HostRuntime) -> Result<(), Unlike> {
    agree(rt.alloc(), SHAPES, shape_of)
}

// The larger of two widths, signed where both are.
fn larger(a: Shape, b: Shape) -> Shape {
    Shape {
        width: a.width.max(b.width),
        signed: a.signed && b.signed,
    }
}

// The fault of an expression in a context.
fn fault_in(alloc: Global, text: &str, context: Shape) -> Option<Fault> {
    let source = with_expr(alloc, text)?;
    let scope = scope(alloc).ok()?;
    match typed_in(alloc, expr_of(&source)?, &scope, context) {
        Ok(typed) => {
            drop(typed);
            Some(Fault::None)
        }
        Err(fault) => Some(kind_of(fault)),
    }
}

// The width and sign that all of these expressions have together.
fn common_shape(alloc: Global, exprs: &str) -> Option<Shape> {
    let mut context = Shape {
        width: 0,
        signed: true,
    };
    for text in exprs.split("; ") {
        context = larger(context, shape_of(alloc, text)?);
    }
    Some(context)
}

// The first fault of a selector and labels that are sized together.
fn case_fault(alloc: Global, exprs: &str) -> Option<Fault> {
    let context = common_shape(alloc, exprs)?;
    for text in exprs.split("; ") {
        match fault_in(alloc, text, context)? {
            Fault::None => {}
            fault => return Some(fault),
        }
    }
    Some(Fault::None)
}

const CASES: &str = "
    // A wide label makes the selector too wide, which comes before the fault of its own place, ..
    a[9]; {70{c}}; 1'd0      => TooWide
    // .. but behind a fault in a part of it.
    {a[9], c}; {70{c}}; 1'd0 => BadSelect
    // The faulty label is 5 bits wide, so the divisor is 16.
    4'd7 / (4'd15 + 4'd1); 2'd1; {a[9], 4'd0} => BadSelect
    4'd7 / (4'd15 + 4'd1); 2'd1; 4'd0         => ZeroDivisor
    a; 2'd1; b               => None
";

#[test]
fn selectors_and_labels_are_sized_together(rt: HostRuntime) -> Result<(), Unlike> {
    agree(rt.alloc(), CASES, case_fault)
}

// The fault of an expression in a context of 200 bits.
fn wide_fault(alloc: Global, text: &str) -> Option<Fault> {
    let source = with_expr(alloc, text)?;
    let scope = scope(alloc).ok()?;
    match typed(alloc, expr_of(&source)?, &scope, 200) {
        Ok(typed) => {
            drop(typed);
            Some(Fault::None)
        }
        Err(fault) => Some(kind_of(fault)),
    }
}

// The fault of an expression that has to be constant in a context of 65 bits.
fn wide_constant_fault(alloc: Global, text: &str) -> Option<Fault> {
    let source = with_expr(alloc, text)?;
    let scope = scope(alloc).ok()?;
    match constant(alloc, expr_of(&source)?, &scope, 65) {
        Ok(_) => Some(Fault::None),
        Err(fault) => Some(kind_of(fault)),
    }
}

const WIDE: &str = "
    4'd1      => TooWide
    x         => NoName
    a         => TooWide
    {a, 1'd1} => TooWide
";

const WIDE_CONSTANTS: &str = "
    4'd1      => TooWide
    x         => NoName
    a         => TooWide
    {a, 1'd1} => NotConstant
";

#[test]
fn contexts_above_64_bits(rt: HostRuntime) -> Result<(), Unlike> {
    agree(rt.alloc(), WIDE, wide_fault)?;
    agree(rt.alloc(), WIDE_CONSTANTS, wide_constant_fault)
}

fn with(
    alloc: Global,
    names: UnshapedNames,
    text: &[u8],
    ranged: bool,
) -> Result<UnshapedNames, NoMemory> {
    let mut entries = names.entries;
    let name = Name::new(alloc, text)?;
    entries.insert(name, Unshaped { ranged })?;
    Ok(UnshapedNames { entries })
}

// The vector `v`, the scalar `s` and the later parameter `Q` have no width yet; nor has a `P`, which the scope has too.
fn unshaped(alloc: Global) -> Result<UnshapedNames, NoMemory> {
    let names = UnshapedNames {
        entries: IndexMap::new(alloc),
    };
    let names = with(alloc, names, b"v", true)?;
    let names = with(alloc, names, b"s", false)?;
    let names = with(alloc, names, b"Q", false)?;
    with(alloc, names, b"P", true)
}

// The word of a constant expression among names without a width, or its fault.
fn among(alloc: Global, text: &str) -> Option<Result<(u8, bool, u64), Fault>> {
    let source = with_expr(alloc, text)?;
    let scope = scope(alloc).ok()?;
    let names = unshaped(alloc).ok()?;
    match constant_among(alloc, expr_of(&source)?, &scope, &names, 0) {
        Ok(word) => Some(Ok(parts(word))),
        Err(fault) => Some(Err(kind_of(fault))),
    }
}

const UNSHAPED: &str = "
    v => Err(NotConstant)
    s => Err(NotConstant)
    Q => Err(NotConstant)
    v[70000] => Err(NotConstant)
    s[0]     => Err(BadSelect)
    Q[0]     => Err(BadSelect)
    v[3:0]   => Err(NotConstant)
    v[0:3]   => Err(BadSelect)
    s[3:0]   => Err(BadSelect)
    // More than 64 bits, whatever the range will be.
    v[100:0] => Err(TooWide)
    s[100:0] => Err(TooWide)
    // Faults of an index or an end come first.
    s[x]     => Err(NoName)
    s[v:0]   => Err(NotConstant)
    // `v` is open, so the sum has 4 bits and the divisor is 0; a bit of `v` makes it 5.
    (4'd7 / (4'd15 + 4'd1)) + {v, 4'd0}    => Err(ZeroDivisor)
    (4'd7 / (4'd15 + 4'd1)) + {v[0], 4'd0} => Err(NotConstant)
    {v{1'd1}} => Err(NotConstant)
    // The scope's own names stay what they are.
    a    => Err(NotConstant)
    P[0] => Err(BadSelect)
    x    => Err(NoName)
    P    => Ok((8, true, 255))
";

#[test]
fn names_without_a_width(rt: HostRuntime) -> Result<(), Unlike> {
    agree(rt.alloc(), UNSHAPED, among)
}

fn target_of(assigns: &[Assign]) -> Option<&Target> {
    let assign = assigns.first()?;
    Some(&assign.target)
}

// The target that the first item of the only module sets.
fn first_target(source: &Source) -> Option<&Target> {
    match only_module(source)?.items.first()? {
        Item::Assign(assigns) => target_of(assigns),
        _ => None,
    }
}

// What stands at the root of a typed target.
#[derive(Clone, Copy, Debug)]
enum Root {
    Parameter,
    Signal,
    Slice,
    VariableBit,
    JoinOfThree,
    Another,
}

fn root_of(typed: &TypedExpr) -> Root {
    match &typed.node {
        TypedNode::Word(_) => Root::Parameter,
        TypedNode::Signal(_) => Root::Signal,
        TypedNode::Slice(_, _, _) => Root::Slice,
        TypedNode::Pick(_, _) => Root::VariableBit,
        TypedNode::Join(parts) if parts.len() == 3 => Root::JoinOfThree,
        _ => Root::Another,
    }
}

// The root and the width of a typed target, or its fault.
fn target(alloc: Global, items: &str) -> Option<Result<(Root, u8), Fault>> {
    let source = with_items(alloc, items)?;
    let scope = scope(alloc).ok()?;
    match typed_target(alloc, first_target(&source)?, &scope) {
        Ok(typed) => {
            let found = (root_of(&typed), typed.width);
            drop(typed);
            Some(Ok(found))
        }
        Err(fault) => Some(Err(kind_of(fault))),
    }
}

const TARGETS: &str = "
    assign a = 1;      => Ok((Signal, 4))
    assign a[3] = 1;   => Ok((Slice, 1))
    assign b[9:4] = 1; => Ok((Slice, 6))
    assign a[i] = 1;   => Ok((VariableBit, 1))
    assign P = 1;      => Ok((Parameter, 8))
    assign {a, {c, i}, b[2]} = 1; => Ok((JoinOfThree, 8))
    assign a[4] = 1;   => Err(BadSelect)
    assign {a, x} = 1; => Err(NoName)
    assign b[i] = 1;   => Err(MayLeaveRange)
    assign {b, b, b, b, b, b, b, b, c} = 1; => Err(TooWide)
";

#[test]
fn targets(rt: HostRuntime) -> Result<(), Unlike> {
    agree(rt.alloc(), TARGETS, target)
}
