// The calls.

ghost use Rattle.std.specs.Prelude.{◌≡◌, ℕ, false, IfOk};
ghost use Rattle.rst_word.specs.Plain.{plain_word};
ghost use Rattle.rst_tree.specs.Trees.{plain};
ghost use Rattle.rst_tree.specs.Targets.{plain_target};
ghost use Rattle.rst_width.specs.Typed.{plain_typed, shape_of};
ghost use Rattle.rst_width.specs.Plain.{plain_sized};
ghost use Rattle.rst_width.specs.Cut.{cut, cut_shape, IsFitSized};
ghost use Rattle.rst_width.specs.Sizing.{sized};
ghost use Rattle.rst_width.specs.Fit.{IsFit, IsShape};
ghost use Rattle.rst_width.specs.Reads.{HaveWidths, ReadsInside};
ghost use Rattle.rst_width.specs.Scopes.{names_of, names_with};
ghost use Rattle.rst_width.specs.Targets.{target_expr, IsPlace};
ghost use Rattle.rst_width.specs.Answers.{Gives, HasValue, same_shape, own_shape, widened_shape, placed_shape, shape_answer, typed_answer, placed_answer, constant_answer};

use crate::names::UnshapedNames;
use crate::scope::Scope;
use crate::sized::SizedExpr;
use crate::sizing::sized;
use crate::targets::sized_target;
use crate::typed_expr::{Shape, TypedExpr, WidthFault};
use crate::typing::{by_itself, in_context, own, walk};
use crate::values::constant_word;
use rst_outside::NoMemory;
use rst_tree::{Expr, Target};
use rst_word::Word;
use std::alloc::Global;

// The larger of the own width and another one, with the own sign.
fn widened(own: Shape, width: u8) -> Shape
    ensures { result ≡ widened_shape own width }
{
    Shape {
        width: own.width.max(width),
        signed: own.signed,
    }
}

// The larger of the own width and that of a context, with the sign of the context.
fn placed(own: Shape, context: Shape) -> Shape
    ensures { result ≡ placed_shape own context }
{
    Shape {
        width: own.width.max(context.width),
        signed: context.signed,
    }
}

// An expression, sized among names that all have a width and sign.
fn sized_in(alloc: Global, expr: &Expr, scope: &Scope) -> Result<SizedExpr, NoMemory>
    ensures exact { IfOk result (λ s. plain_sized s ≡ cut (sized false (names_of scope.now) (plain expr.now))) }
    ensures fit { IfOk result (λ s. IsFitSized (plain_sized s)) }
{
    let unshaped = UnshapedNames::new(alloc);
    let sized = sized(alloc, false, expr, scope, &unshaped)?;
    Ok(sized)
}

/// The width and sign that an expression has by itself, whatever faults it has (IEEE 1364-2001, clauses 4.4.1 and 4.5.1). A width
/// of 65 stands for every one above 64.
///
/// What a fault leaves open counts as 0 bits and signed, so that it changes nothing around it.
pub fn own_shape(alloc: Global, expr: &Expr, scope: &Scope) -> Result<Shape, NoMemory>
    ensures { IfOk result (λ shape. shape ≡ cut_shape (own_shape (names_of scope.now) (plain expr.now))) }
{
    let sized = sized_in(alloc, expr, scope)?;
    let shape = own(&sized);
    drop(sized);
    Ok(shape)
}

/// The width and sign that an expression has by itself (IEEE 1364-2001, clauses 4.4.1 and 4.5.1), where it has no fault.
///
/// The faults are those of the expression by itself, but for a `ZeroDivisor` where a wider context could change the divisor.
/// `NoMemory` comes where memory runs out.
pub fn size_and_sign(alloc: Global, expr: &Expr, scope: &Scope) -> Result<Shape, WidthFault>
    ensures exact { Gives same_shape result (shape_answer (names_of scope.now) (plain expr.now)) }
    ensures bits { IfOk result IsShape }
{
    let sized = sized_in(alloc, expr, scope)?;
    let shape = own(&sized);
    match walk(alloc, sized, shape, false)? {
        Ok(typed) => {
            drop(typed);
            Ok(shape)
        }
        Err(fault) => Err(fault),
    }
}

/// The typed form of an expression that works at the larger of its own width and `context`, in bits, 0 for none, with its own sign
/// (IEEE 1364-2001, clauses 4.4.2 and 4.5.2).
///
/// Of several faults the first is answered, in a walk that visits the parts of an expression from left to right and then the
/// expression itself. `NoMemory` comes where memory runs out.
pub fn typed(
    alloc: Global,
    expr: &Expr,
    scope: &Scope,
    context: u8,
) -> Result<TypedExpr, WidthFault>
    ensures exact { Gives plain_typed result (typed_answer (names_of scope.now) (plain expr.now) context) }
    ensures shape { IfOk result (λ e. shape_of (plain_typed e) ≡ widened_shape (own_shape (names_of scope.now) (plain expr.now)) context) }
    ensures fit { IfOk result (λ e. IsFit (plain_typed e)) }
    ensures inside { (widths : ℕ → ℕ) → HaveWidths widths (names_of scope.now) → IfOk result (λ e. ReadsInside widths (plain_typed e)) }
{
    let sized = sized_in(alloc, expr, scope)?;
    let context = widened(own(&sized), context);
    in_context(alloc, sized, context)?
}

/// The typed form of an expression in a context that has a width and a sign, as an operand of a comparison, a selector or a
/// label has: it works at the larger of its own width and that of the context, 0 for none, with the sign of the context.
///
/// The faults are those of `typed`; in a context above 64 bits one is sure to come.
pub fn typed_in(
    alloc: Global,
    expr: &Expr,
    scope: &Scope,
    context: Shape,
) -> Result<TypedExpr, WidthFault>
    ensures exact { Gives plain_typed result (placed_answer (names_of scope.now) (plain expr.now) context) }
    ensures shape { IfOk result (λ e. shape_of (plain_typed e) ≡ placed_shape (own_shape (names_of scope.now) (plain expr.now)) context) }
    ensures fit { IfOk result (λ e. IsFit (plain_typed e)) }
    ensures inside { (widths : ℕ → ℕ) → HaveWidths widths (names_of scope.now) → IfOk result (λ e. ReadsInside widths (plain_typed e)) }
{
    let sized = sized_in(alloc, expr, scope)?;
    let context = placed(own(&sized), context);
    in_context(alloc, sized, context)?
}

/// The typed form of a target: that of the expression of the same text by itself.
///
/// It consists of signals, slices of signals, bits with a variable index, parameters, and joins of these, the most significant part
/// first. The faults are those of `typed`.
pub fn typed_target(alloc: Global, target: &Target, scope: &Scope) -> Result<TypedExpr, WidthFault>
    ensures exact { Gives plain_typed result (typed_answer (names_of scope.now) (target_expr (plain_target target.now)) 0) }
    ensures shape { IfOk result (λ e. shape_of (plain_typed e) ≡ own_shape (names_of scope.now) (target_expr (plain_target target.now))) }
    ensures places { IfOk result (λ e. IsPlace (plain_typed e)) }
    ensures fit { IfOk result (λ e. IsFit (plain_typed e)) }
    ensures inside { (widths : ℕ → ℕ) → HaveWidths widths (names_of scope.now) → IfOk result (λ e. ReadsInside widths (plain_typed e)) }
{
    let unshaped = UnshapedNames::new(alloc);
    let sized = sized_target(alloc, target, scope, &unshaped)?;
    by_itself(alloc, sized)?
}

/// The word of a constant expression that works at the larger of its own width and `context`, in bits, 0 for none.
///
/// The faults are those of `typed`, and each place that names a signal is `NotConstant`.
pub fn constant(alloc: Global, expr: &Expr, scope: &Scope, context: u8) -> Result<Word, WidthFault>
    ensures exact { Gives plain_word result (constant_answer (names_of scope.now) (plain expr.now) context) }
    // The word is the value of what `typed` answers, whatever the signals are.
    ensures value { IfOk result (λ w. HasValue (names_of scope.now) (plain expr.now) context (plain_word w)) }
{
    let unshaped = UnshapedNames::new(alloc);
    constant_among(alloc, expr, scope, &unshaped, context)
}

/// The word of a constant expression, as `constant` answers it, among further names that have no width and sign yet.
///
/// Such a name is `NotConstant`. A select of one is `BadSelect` where it is declared without a range or the ends of the select
/// ascend, and else `NotConstant`; one of more than 64 bits is `TooWide`. A name that the scope has too is the scope's.
pub fn constant_among(
    alloc: Global,
    expr: &Expr,
    scope: &Scope,
    unshaped: &UnshapedNames,
    context: u8,
) -> Result<Word, WidthFault>
    ensures exact { Gives plain_word result (constant_answer (names_with scope.now unshaped.now) (plain expr.now) context) }
    ensures value { IfOk result (λ w. HasValue (names_with scope.now unshaped.now) (plain expr.now) context (plain_word w)) }
{
    let sized = sized(alloc, true, expr, scope, unshaped)?;
    let context = widened(own(&sized), context);
    match in_context(alloc, sized, context)? {
        Ok(typed) => {
            let word = constant_word(&typed);
            drop(typed);
            Ok(word)
        }
        Err(fault) => Err(fault),
    }
}
