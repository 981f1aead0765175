// The parts of joins and repetitions.

ghost use Rattle.std.specs.Prelude.{◌≡◌, ◌≤◌, ◌^◌, IfOk, IfSome, neg_ℤ, pos, ◌<ℤ◌, ◌≤ℤ◌, ◌<◌, Ok};
ghost use Rattle.rst_width.specs.Typed.{plain_typed, plain_node, plain_all, Join, Repeat};
ghost use Rattle.rst_width.specs.Plain.{plain_answer, plain_found, plain_sized, plain_list, plain_parts};
ghost use Rattle.rst_width.specs.Sizing.{times, join_found, join_sized, repeat_shape, repeat_found, repeat_sized};
ghost use Rattle.rst_width.specs.Cut.{cut, cut_shape, with_last, with_next, HasWidth, IsFitSized};
ghost use Rattle.rst_width.specs.Fit.{IsFit};

use crate::selects::number_of_part;
use crate::sized::{Answer, Found, SizedExpr};
use crate::typed_expr::{Shape, TypedExpr, TypedNode, WidthFault};
use crate::typing::{by_itself, own};
use std::alloc::{AllocError, Global};

// Parts that stand by themselves: the sum of their widths, 65 standing for all above 64, and the parts or their first fault.
#[derive(Drop)]
pub struct Parts {
    pub width: u8,
    pub list: Result<Vec<TypedExpr>, WidthFault>,
}

// Parts with one more behind them.
pub fn with_next(alloc: Global, parts: Parts, next: SizedExpr) -> Result<Parts, AllocError>
    requires { IsFitSized (plain_sized next) }
    ensures { IfOk result (λ p. plain_parts p ≡ with_next (plain_parts parts) (plain_sized next)) }
{
    let width = (u16::from(parts.width) + u16::from(own(&next).width)).min(65) as u8;
    let list = match parts.list {
        Ok(list) => with_last(list, by_itself(alloc, next)?)?,
        Err(fault) => {
            drop(next);
            Err(fault)
        }
    };
    Ok(Parts { width, list })
}

// Some typed parts with one more behind them, if that has no fault.
#[tactic(auto, using(crate::proofs::PartLists::part_lists))]
fn with_last(
    list: Vec<TypedExpr>,
    last: Answer,
) -> Result<Result<Vec<TypedExpr>, WidthFault>, AllocError>
    ensures { IfOk result (λ all. plain_list all ≡ with_last (plain_all list.items) (plain_answer last)) }
{
    let mut list = list;
    match last {
        Ok(last) => {
            list.push(last)?;
            Ok(Ok(list))
        }
        Err(fault) => Ok(Err(fault)),
    }
}

// A join of typed parts.
#[tactic(auto, using(crate::proofs::Rows::rows))]
fn joined(parts: Vec<TypedExpr>) -> TypedNode
    ensures { plain_node result ≡ Join (plain_all parts.items) }
{
    TypedNode::Join(parts)
}

// Typed parts, this many times.
#[tactic(auto, using(crate::proofs::Rows::rows))]
fn repeated(count: u8, parts: Vec<TypedExpr>) -> TypedNode
    ensures { plain_node result ≡ Repeat count (plain_all parts.items) }
{
    TypedNode::Repeat(count, parts)
}

// What stands at a join of typed parts.
#[tactic(auto, using(crate::proofs::PartLists::part_lists))]
fn join_found(parts: Vec<TypedExpr>) -> Found
    ensures { plain_found result ≡ join_found (Ok (plain_all parts.items)) }
{
    if parts.is_empty() {
        Found::Own(WidthFault::ZeroWidth)
    } else {
        Found::Good(joined(parts))
    }
}

// A join of these parts.
pub fn join_sized(parts: Parts) -> SizedExpr
    ensures { plain_sized result ≡ join_sized (plain_parts parts) }
{
    let shape = Shape {
        width: parts.width,
        signed: false,
    };
    match parts.list {
        Err(fault) => SizedExpr::Leaf(shape, Found::Earlier(fault)),
        Ok(list) => SizedExpr::Leaf(shape, join_found(list)),
    }
}

// The width and sign of a repetition of parts of this width.
fn repeat_shape(number: Option<i128>, width: u8) -> Shape
    requires { IfSome number (λ count. count <ℤ pos (2 ^ 64)) }
    ensures { result ≡ cut_shape (repeat_shape number width) }
{
    match number {
        Some(count) if count >= 1 => Shape {
            width: (count.unsigned_abs() * u128::from(width)).min(65) as u8,
            signed: false,
        },
        _ => Shape {
            width: 0,
            signed: true,
        },
    }
}

// What stands at a repetition of typed parts of this width.
#[tactic(auto, using(crate::proofs::PartLists::part_lists))]
fn repeat_found(number: Option<i128>, width: u8, parts: Vec<TypedExpr>) -> Found
    requires below { IfSome number (λ count. count <ℤ pos (2 ^ 64)) }
    requires has_width { HasWidth width (plain_all parts.items) }
    ensures { plain_found result ≡ repeat_found number width (plain_all parts.items) }
{
    let Some(count) = number else {
        return Found::Own(WidthFault::NotConstant);
    };
    if parts.is_empty() || count < 1 {
        return Found::Own(WidthFault::ZeroWidth);
    }
    times(count.unsigned_abs(), width, parts)
}

// Some typed parts of this width together, this many times.
fn times(count: u128, width: u8, parts: Vec<TypedExpr>) -> Found
    requires below { count < 2 ^ 64 }
    requires some { 0 < width }
    ensures { plain_found result ≡ times count width (plain_all parts.items) }
{
    if count * u128::from(width) > 64 {
        return Found::Own(WidthFault::TooWide);
    }
    Found::Good(repeated(count as u8, parts))
}

// A repetition, whose count comes first.
pub fn repeat_sized(count: Answer, parts: Parts) -> SizedExpr
    requires count { IfOk count (λ e. IsFit (plain_typed e)) }
    requires has_width { IfOk (plain_parts parts).list (HasWidth parts.width) }
    ensures { plain_sized result ≡ cut (repeat_sized (plain_answer count) (plain_parts parts)) }
{
    let number = number_of_part(&count);
    let shape = repeat_shape(number, parts.width);
    let found = match (count, parts.list) {
        (Err(fault), list) => {
            drop(list);
            Found::Earlier(fault)
        }
        (Ok(count), Err(fault)) => {
            drop(count);
            Found::Earlier(fault)
        }
        (Ok(count), Ok(list)) => {
            drop(count);
            repeat_found(number, parts.width, list)
        }
    };
    SizedExpr::Leaf(shape, found)
}
