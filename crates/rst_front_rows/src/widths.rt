// Widths, signs and values of expressions, worked out from the standard by hand.

ghost use Rattle.std.specs.Prelude.{◌<◌, ◌≤◌, IfSome};

use crate::texts::{expr_of, with_expr};
use indexmap::IndexMap;
use rst_outside::{Name, NoMemory};
use rst_table::{Unlike, agree};
use rst_width::{
    Entry, Scope, Shape, SignalShape, TypedExpr, TypedNode, WidthFault, constant, constant_word,
    names_signal, size_and_sign, typed, typed_in,
};
use rst_word::Word;
use std::alloc::Global;

fn with(alloc: Global, scope: Scope, text: &[u8], entry: Entry) -> Result<Scope, NoMemory> {
    let mut entries = scope.entries;
    let name = Name::new(alloc, text)?;
    entries.insert(name, entry)?;
    Ok(Scope { entries })
}

// A vector that is declared with this width from this bit on.
fn vector(width: u8, low: u32, signed: bool) -> SignalShape
    requires some_bits { 0 < width }
    requires at_most_64 { width ≤ 64 }
    requires low { low ≤ 9 }
{
    SignalShape {
        width,
        low,
        signed,
        ranged: true,
    }
}

// `reg [3:0] a` is signal 0, `reg signed [9:2] b` signal 1, `reg [1:0] i` signal 2 and `reg c` signal 3; the parameter `P` is -1.
pub(crate) fn scope(alloc: Global) -> Result<Scope, NoMemory> {
    let scalar = SignalShape {
        width: 1,
        low: 0,
        signed: false,
        ranged: false,
    };
    let scope = Scope {
        entries: IndexMap::new(alloc),
    };
    let scope = with(alloc, scope, b"a", Entry::Signal(0, vector(4, 0, false)))?;
    let scope = with(alloc, scope, b"b", Entry::Signal(1, vector(8, 2, true)))?;
    let scope = with(alloc, scope, b"i", Entry::Signal(2, vector(2, 0, false)))?;
    let scope = with(alloc, scope, b"c", Entry::Signal(3, scalar))?;
    with(alloc, scope, b"P", Entry::Param(Word::new(8, true, 255)))
}

// Width, sign and value of a word.
pub(crate) fn parts(word: Word) -> (u8, bool, u64) {
    (word.width, word.signed, word.value)
}

// A number of at most 64.
fn at_most_64(digits: &str) -> Option<u8>
    ensures { IfSome result (λ width. width ≤ 64) }
{
    let width = digits.parse::<u8>().ok()?;
    Some(width.min(64))
}

// A text, and the width of its context where one stands behind it.
fn in_context(row: &str) -> Option<(&str, u8)>
    ensures { IfSome result (λ found. found.1 ≤ 64) }
{
    match row.split_once(" in ") {
        Some((text, width)) => Some((text, at_most_64(width)?)),
        None => Some((row, 0)),
    }
}

// The word of a constant expression, if it has one.
fn word_of(alloc: Global, row: &str) -> Option<(u8, bool, u64)> {
    let (text, context) = in_context(row)?;
    let source = with_expr(alloc, text)?;
    let scope = scope(alloc).ok()?;
    let word = constant(alloc, expr_of(&source)?, &scope, context).ok()?;
    Some(parts(word))
}

const CONSTANTS: &str = "
    // A sum works at the width of its context.
    4'd15 + 4'd15               => (4, false, 14)
    4'd15 + 4'd15 in 5          => (5, false, 30)
    // A comparison keeps the carry.
    4'd15 + 4'd1 == 5'd16       => (1, false, 1)
    4'd15 + 4'd1 == 4'd0        => (1, false, 1)
    -7 / 2                      => (32, true, 4294967293)
    -7 % 2                      => (32, true, 4294967295)
    // One unsigned operand makes both unsigned: 4,294,967,289 / 2.
    -7 / 32'd2                  => (32, false, 2147483644)
    // Shifts fill by the sign of their context.
    8'sh80 >>> 1                => (8, true, 192)
    8'h80 >>> 1                 => (8, false, 64)
    (8'sh80 >>> 1) + 8'd0       => (8, false, 64)
    // At 8 bits 4'b1000 is extended first: 1111_1000, then 1111_1100.
    $signed(4'b1000) >>> 1 in 8 => (8, true, 252)
    // -8 + 1 = -7 at 8 bits; with an unsigned 1 the operand is 8.
    4'sd8 + 8'sd1               => (8, true, 249)
    4'sd8 + 8'd1                => (8, false, 9)
    // -8 < 0, but 8 is not below an unsigned 0.
    4'sd8 < 8'sd0               => (1, false, 1)
    4'sd8 < 8'd0                => (1, false, 0)
    $unsigned(4'sd8) < 8'sd0    => (1, false, 0)
    // `P` is -1: 255 at 8 bits, and beside an unsigned branch of 9.
    1 ? P : 4'sd1               => (8, true, 255)
    1 ? P : 9'd1                => (9, false, 255)
    {4'sd10, 4'd5}              => (8, false, 165)
    {3{2'd2}}                   => (6, false, 42)
    &4'd15 in 8                 => (8, false, 1)
    ~4'd0 in 8                  => (8, false, 255)
";

#[test]
fn words_of_constants(rt: HostRuntime) -> Result<(), Unlike> {
    agree(rt.alloc(), CONSTANTS, word_of)
}

/// A fault by its kind alone.
#[derive(Clone, Copy, Debug)]
pub(crate) enum Fault {
    None,
    NoName,
    TooWide,
    ZeroWidth,
    BadSelect,
    MayLeaveRange,
    NotConstant,
    ZeroDivisor,
    NoMemory,
}

pub(crate) fn kind_of(fault: WidthFault) -> Fault {
    match fault {
        WidthFault::NoName(_) => Fault::NoName,
        WidthFault::TooWide => Fault::TooWide,
        WidthFault::ZeroWidth => Fault::ZeroWidth,
        WidthFault::BadSelect => Fault::BadSelect,
        WidthFault::MayLeaveRange => Fault::MayLeaveRange,
        WidthFault::NotConstant => Fault::NotConstant,
        WidthFault::ZeroDivisor => Fault::ZeroDivisor,
        WidthFault::NoMemory => Fault::NoMemory,
    }
}

// The typed form of an expression by itself.
fn typed_alone(alloc: Global, text: &str) -> Option<Result<Box<TypedExpr>, WidthFault>> {
    let source = with_expr(alloc, text)?;
    let scope = scope(alloc).ok()?;
    match typed(alloc, expr_of(&source)?, &scope, 0) {
        Ok(typed) => Some(Ok(Box::new(alloc, typed).ok()?)),
        Err(fault) => Some(Err(fault)),
    }
}

// The fault of an expression by itself.
fn fault_of(alloc: Global, text: &str) -> Option<Fault> {
    match typed_alone(alloc, text)? {
        Ok(_) => Some(Fault::None),
        Err(fault) => Some(kind_of(fault)),
    }
}

const FAULTS: &str = "
    7 / (1 - 1) => ZeroDivisor
    // The comparison is brought to 70 bits.
    (a < 4'd3) + {70{c}} => TooWide
    a[4]   => BadSelect
    c[0]   => BadSelect
    P[1:0] => BadSelect
    a[0:1] => BadSelect
    b[i]   => MayLeaveRange
    x[i]   => NoName
    a      => None
";

#[test]
fn faults(rt: HostRuntime) -> Result<(), Unlike> {
    agree(rt.alloc(), FAULTS, fault_of)
}

// The fault of an expression that has to be constant.
fn constant_fault_of(alloc: Global, text: &str) -> Option<Fault> {
    let source = with_expr(alloc, text)?;
    let scope = scope(alloc).ok()?;
    match constant(alloc, expr_of(&source)?, &scope, 0) {
        Ok(_) => Some(Fault::None),
        Err(fault) => Some(kind_of(fault)),
    }
}

const FAULTS_OF_CONSTANTS: &str = "
    7 / (1 - 1) => ZeroDivisor
    {0{1'd1}}   => ZeroWidth
    a => NotConstant
    P => None
";

#[test]
fn faults_of_constants(rt: HostRuntime) -> Result<(), Unlike> {
    agree(rt.alloc(), FAULTS_OF_CONSTANTS, constant_fault_of)
}

// The width of an expression, and whether it is signed.
fn shape_of(alloc: Global, text: &str) -> Option<(u8, bool)> {
    let source = with_expr(alloc, text)?;
    let scope = scope(alloc).ok()?;
    let shape = size_and_sign(alloc, expr_of(&source)?, &scope).ok()?;
    Some((shape.width, shape.signed))
}

const SHAPES: &str = "
    // A divisor of zero has a width.
    7 / (1 - 1) => (32, true)
    a + b  => (8, false)
    b[5:3] => (3, false)
";

#[test]
fn widths_and_signs(rt: HostRuntime) -> Result<(), Unlike> {
    agree(rt.alloc(), SHAPES, shape_of)
}

// What stands at the root of a typed form.
#[derive(Clone, Copy, Debug)]
enum Root {
    SignalOne,
    SliceOfSignalOne,
    PickOfSignalZero,
    Extension,
    Another,
}

fn root_of(typed: &TypedExpr) -> Root {
    match typed.node {
        TypedNode::Signal(1) => Root::SignalOne,
        TypedNode::Slice(1, 1, 3) => Root::SliceOfSignalOne,
        TypedNode::Pick(0, _) => Root::PickOfSignalZero,
        TypedNode::Extend(_) => Root::Extension,
        _ => Root::Another,
    }
}

// The width, the sign and the root of a typed form.
fn summary(typed: &TypedExpr) -> (u8, bool, Root) {
    (typed.width, typed.signed, root_of(typed))
}

// What a select is typed as, and whether that names a signal.
fn select(alloc: Global, text: &str) -> Option<((u8, bool, Root), bool)> {
    let typed = typed_alone(alloc, text)?.ok()?;
    Some((summary(&typed), names_signal(&typed)))
}

const SELECTS: &str = "
    // Of `reg signed [9:2] b`, b[5:3] is 3 unsigned bits from place 1 on.
    b[5:3] => ((3, false, SliceOfSignalOne), true)
    a[i]   => ((1, false, PickOfSignalZero), true)
";

#[test]
fn selects(rt: HostRuntime) -> Result<(), Unlike> {
    agree(rt.alloc(), SELECTS, select)
}

// The typed form of `b` in an unsigned context of so many bits.
fn in_unsigned(alloc: Global, digits: &str) -> Option<(u8, bool, Root)> {
    let width = at_most_64(digits)?;
    let source = with_expr(alloc, "b")?;
    let scope = scope(alloc).ok()?;
    let context = Shape {
        width,
        signed: false,
    };
    let typed = typed_in(alloc, expr_of(&source)?, &scope, context).ok()?;
    let found = summary(&typed);
    drop(typed);
    Some(found)
}

const CONTEXTS: &str = "
    12 => (12, false, Extension)
    0  => (8, false, SignalOne)
";

#[test]
fn contexts_from_outside(rt: HostRuntime) -> Result<(), Unlike> {
    agree(rt.alloc(), CONTEXTS, in_unsigned)
}

// The word of a constant expression's typed form.
fn typed_word(alloc: Global, row: &str) -> Option<(u8, bool, u64)> {
    let (text, context) = in_context(row)?;
    let source = with_expr(alloc, text)?;
    let scope = scope(alloc).ok()?;
    let typed = typed(alloc, expr_of(&source)?, &scope, context).ok()?;
    let word = constant_word(&typed);
    drop(typed);
    Some(parts(word))
}

#[test]
fn the_word_of_a_typed_expression(rt: HostRuntime) -> Result<(), Unlike> {
    agree(rt.alloc(), "P in 9 => (9, true, 511)", typed_word)
}
