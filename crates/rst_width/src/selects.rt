// Bit selects and part-selects.

ghost use Rattle.std.specs.Prelude.{◌≡◌, ◌+◌, ◌≤◌, ◌<◌, ◌^◌, IfOk, IfSome, IsTrue, pos, neg_ℤ, ◌≤ℤ◌, ◌<ℤ◌, ◌-ℤ◌, unsigned_abs, min, suc, Ok, cond};
ghost use Rattle.rst_width.specs.declared.typed_expr.WidthFault.TheVariants.{NotConstant, BadSelect};
ghost use Rattle.rst_width.specs.Typed.{plain_typed, plain_node, names_signal};
ghost use Rattle.rst_width.specs.Plain.{plain_answer, plain_found, plain_meaning};
ghost use Rattle.rst_width.specs.Scopes.{extent_of};
ghost use Rattle.rst_width.specs.Selects.{signal_at, in_range, place_in, stays_inside, bit_of, bit_found, number_of_part, part_shape, part_of, part_found, leaves_range, ascends, later_part};
ghost use Rattle.rst_width.specs.Cut.{cut_shape};
ghost use Rattle.rst_width.specs.Fit.{IsFit};

use crate::names::{Meaning, Unshaped};
use crate::scope::SignalShape;
use crate::sized::{Answer, Found};
use crate::typed_expr::{Shape, TypedExpr, TypedNode, WidthFault};
use crate::values::{constant_word, names_signal};
use rst_outside::{Name, NoMemory};
use std::alloc::{AllocError, Global};

// A signal where everything has to be constant is NotConstant.
pub fn signal_at(constant: bool, node: TypedNode) -> Found
    ensures { plain_found result ≡ signal_at constant (plain_node node) }
{
    if constant {
        drop(node);
        Found::Own(WidthFault::NotConstant)
    } else {
        Found::Good(node)
    }
}

// Whether a bit of this number is one of the vector's.
fn in_range(shape: SignalShape, place: i128) -> bool
    ensures { result ≡ in_range (extent_of shape) place }
{
    let low = i128::from(shape.low);
    low <= place && place <= low + i128::from(shape.width) - 1
}

// How far a bit of the vector is above the lowest one.
fn place_in(shape: SignalShape, place: i128) -> u8
    requires { IsTrue (in_range (extent_of shape) place) }
    ensures exact { result ≡ place_in (extent_of shape) place }
    ensures inside { result < shape.width }
{
    (place - i128::from(shape.low)) as u8
}

// Whether no value of a variable index leaves the vector.
fn stays_inside(shape: SignalShape, index: Shape) -> bool
    requires { index.width ≤ 64 }
    ensures { result ≡ stays_inside (extent_of shape) index }
{
    !index.signed && shape.low == 0 && 1u128 << index.width <= u128::from(shape.width)
}

// A bit of this signal.
fn bit_of(
    alloc: Global,
    constant: bool,
    signal: u32,
    shape: SignalShape,
    index: TypedExpr,
) -> Result<Found, AllocError>
    requires { IsFit (plain_typed index) }
    ensures { IfOk result (λ found. plain_found found ≡ bit_of constant signal (extent_of shape) (plain_typed index)) }
{
    if !shape.ranged {
        drop(index);
        return Ok(Found::Own(WidthFault::BadSelect));
    }
    if names_signal(&index) {
        return variable_bit(alloc, constant, signal, shape, index);
    }
    let place = constant_word(&index).number();
    drop(index);
    if !in_range(shape, place) {
        return Ok(Found::Own(WidthFault::BadSelect));
    }
    let node = TypedNode::Slice(signal, place_in(shape, place), 1);
    Ok(signal_at(constant, node))
}

// A bit of this vector, with a variable index.
fn variable_bit(
    alloc: Global,
    constant: bool,
    signal: u32,
    shape: SignalShape,
    index: TypedExpr,
) -> Result<Found, AllocError>
    requires fit { IsFit (plain_typed index) }
    requires vector { IsTrue shape.ranged }
    requires variable { IsTrue (names_signal (plain_typed index)) }
    ensures { IfOk result (λ found. plain_found found ≡ bit_of constant signal (extent_of shape) (plain_typed index)) }
{
    let index_shape = Shape {
        width: index.width,
        signed: index.signed,
    };
    if !stays_inside(shape, index_shape) {
        drop(index);
        return Ok(Found::Own(WidthFault::MayLeaveRange));
    }
    let node = TypedNode::Pick(signal, Box::new(alloc, index)?);
    Ok(signal_at(constant, node))
}

// What is wrong with a bit of a name that has no width and sign yet.
fn later_bit(declared: Unshaped) -> WidthFault
    ensures { result ≡ cond declared.ranged NotConstant BadSelect }
{
    if declared.ranged {
        WidthFault::NotConstant
    } else {
        WidthFault::BadSelect
    }
}

// What stands at a bit select, whose index comes first.
pub fn bit_found(
    alloc: Global,
    constant: bool,
    name: &Name,
    meaning: Option<Meaning>,
    index: Answer,
) -> Result<Found, NoMemory>
    requires { IfOk index (λ e. IsFit (plain_typed e)) }
    ensures { IfOk result (λ found. plain_found found ≡ bit_found constant name.now (plain_meaning meaning) (plain_answer index)) }
{
    let index = match index {
        Err(fault) => return Ok(Found::Earlier(fault)),
        Ok(index) => index,
    };
    match meaning {
        None => {
            drop(index);
            Ok(Found::Earlier(WidthFault::NoName(Name::new(alloc, name.as_slice())?)))
        }
        Some(Meaning::Param(_)) => {
            drop(index);
            Ok(Found::Own(WidthFault::BadSelect))
        }
        Some(Meaning::Signal(signal, shape)) => {
            Ok(bit_of(alloc, constant, signal, shape, index)?)
        }
        Some(Meaning::Later(declared)) => {
            drop(index);
            Ok(Found::Own(later_bit(declared)))
        }
    }
}

// The number of an expression that names no signal.
fn number_of(expr: &TypedExpr) -> Option<i128>
    requires { IsFit (plain_typed expr.now) }
    ensures exact { result ≡ number_of_part (Ok (plain_typed expr.now)) }
    ensures low { IfSome result (λ number. neg_ℤ (pos (2 ^ 63)) ≤ℤ number) }
    ensures high { IfSome result (λ number. number <ℤ pos (2 ^ 64)) }
{
    if names_signal(expr) {
        None
    } else {
        Some(constant_word(expr).number())
    }
}

// The number of a part that has to be constant, where it has one.
pub fn number_of_part(part: &Answer) -> Option<i128>
    requires { IfOk part.now (λ e. IsFit (plain_typed e)) }
    ensures exact { result ≡ number_of_part (plain_answer part.now) }
    ensures low { IfSome result (λ number. neg_ℤ (pos (2 ^ 63)) ≤ℤ number) }
    ensures high { IfSome result (λ number. number <ℤ pos (2 ^ 64)) }
{
    match part {
        Ok(part) => number_of(part),
        Err(_) => None,
    }
}

// How many bits there are from a low to a high one, 65 standing for all above 64.
fn bits_between(high: i128, low: i128) -> u8
    requires order { low ≤ℤ high }
    requires from_high { high <ℤ pos (2 ^ 64) }
    requires from_low { neg_ℤ (pos (2 ^ 63)) ≤ℤ low }
    ensures { result ≡ min (suc (unsigned_abs (high -ℤ low))) 65 }
{
    ((high - low).unsigned_abs() + 1).min(65) as u8
}

// The width and sign of a part-select.
pub fn part_shape(high: Option<i128>, low: Option<i128>) -> Shape
    requires from_high { IfSome high (λ number. number <ℤ pos (2 ^ 64)) }
    requires from_low { IfSome low (λ number. neg_ℤ (pos (2 ^ 63)) ≤ℤ number) }
    ensures { result ≡ cut_shape (part_shape high low) }
{
    match (high, low) {
        (Some(high), Some(low)) if low <= high => Shape {
            width: bits_between(high, low),
            signed: false,
        },
        _ => Shape {
            width: 0,
            signed: true,
        },
    }
}

// Whether an end has a number that is no bit of the vector.
fn leaves_range(shape: SignalShape, end: Option<i128>) -> bool
    ensures { result ≡ leaves_range (extent_of shape) end }
{
    match end {
        Some(place) => !in_range(shape, place),
        None => false,
    }
}

// Bits of this signal.
fn part_of(
    constant: bool,
    signal: u32,
    shape: SignalShape,
    high: Option<i128>,
    low: Option<i128>,
) -> Found
    ensures { plain_found result ≡ part_of constant signal (extent_of shape) high low }
{
    if !shape.ranged || leaves_range(shape, high) || leaves_range(shape, low) {
        return Found::Own(WidthFault::BadSelect);
    }
    let (Some(high), Some(low)) = (high, low) else {
        return Found::Own(WidthFault::NotConstant);
    };
    if high < low {
        return Found::Own(WidthFault::BadSelect);
    }
    let from = place_in(shape, low);
    let width = place_in(shape, high) - from + 1;
    signal_at(constant, TypedNode::Slice(signal, from, width))
}

// Whether the ends have numbers, and the first one is lower.
fn ascends(high: Option<i128>, low: Option<i128>) -> bool
    ensures { result ≡ ascends high low }
{
    match (high, low) {
        (Some(high), Some(low)) => high < low,
        _ => false,
    }
}

// What is wrong with a part of a name that has no width and sign yet.
fn later_part(declared: Unshaped, high: Option<i128>, low: Option<i128>) -> WidthFault
    ensures { result ≡ later_part declared.ranged high low }
{
    if !declared.ranged || ascends(high, low) {
        WidthFault::BadSelect
    } else {
        WidthFault::NotConstant
    }
}

// What stands at a part-select, whose ends come first.
pub fn part_found(
    alloc: Global,
    constant: bool,
    name: &Name,
    meaning: Option<Meaning>,
    high: Answer,
    low: Answer,
) -> Result<Found, NoMemory>
    requires high_fits { IfOk high (λ e. IsFit (plain_typed e)) }
    requires low_fits { IfOk low (λ e. IsFit (plain_typed e)) }
    ensures { IfOk result (λ found. plain_found found ≡ part_found constant name.now (plain_meaning meaning) (plain_answer high) (plain_answer low)) }
{
    let high = match high {
        Err(fault) => {
            drop(low);
            return Ok(Found::Earlier(fault));
        }
        Ok(high) => high,
    };
    let low = match low {
        Err(fault) => {
            drop(high);
            return Ok(Found::Earlier(fault));
        }
        Ok(low) => low,
    };
    let ends = (number_of(&high), number_of(&low));
    drop((high, low));
    match meaning {
        None => Ok(Found::Earlier(WidthFault::NoName(Name::new(alloc, name.as_slice())?))),
        Some(Meaning::Param(_)) => Ok(Found::Own(WidthFault::BadSelect)),
        Some(Meaning::Signal(signal, shape)) => {
            Ok(part_of(constant, signal, shape, ends.0, ends.1))
        }
        Some(Meaning::Later(declared)) => { Ok(Found::Own(later_part(declared, ends.0, ends.1))) }
    }
}
