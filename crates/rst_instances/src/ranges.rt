// The words of constant expressions, and the ends of ranges.

ghost use Rattle.std.specs.Prelude.{◌≡◌, nat_lt, cond, Some, None, IfOk};
ghost use Rattle.std.specs.Option.{option_map};
ghost use Rattle.rst_word.specs.Plain.{plain_word};
ghost use Rattle.rst_tree.specs.Trees.{plain};
ghost use Rattle.rst_tree.specs.Modules.{plain_range};
ghost use Rattle.rst_width.specs.Scopes.{extent_of};
ghost use Rattle.rst_width.specs.Answers.{constant_answer};
ghost use Rattle.rst_instances.specs.Parameters.{code_of, coded, ends_answer, is_bad_range, width_of, checked_width, param_width};
ghost use Rattle.rst_instances.specs.Places.{ranged_as, ranged_extent};
ghost use Rattle.rst_instances.specs.Tables.{outside_names, answer_of, plain_ends, plain_bits};

use crate::bits::Bits;
use rst_names::ElabCode;
use rst_outside::NoMemory;
use rst_tree::{Expr, Range};
use rst_width::{Scope, SignalShape, UnshapedNames, WidthFault, constant_among};
use rst_word::Word;
use std::alloc::Global;

/// The names of a place where constants are worked out: the values so far, and the names of its module.
#[derive(Clone, Copy)]
pub struct Outside<'s, 'u> {
    pub scope: &'s Scope,
    pub unshaped: &'u UnshapedNames,
}

/// The code of a fault of an expression, unless memory ran out.
pub fn code_of(fault: WidthFault) -> Result<ElabCode, NoMemory>
    ensures { IfOk result (λ code. code ≡ code_of fault) }
{
    match fault {
        WidthFault::NoName(_) => Ok(ElabCode::NoName),
        WidthFault::TooWide => Ok(ElabCode::TooWide),
        WidthFault::ZeroWidth => Ok(ElabCode::ZeroWidth),
        WidthFault::BadSelect => Ok(ElabCode::BadSelect),
        WidthFault::MayLeaveRange => Ok(ElabCode::MayLeaveRange),
        WidthFault::NotConstant => Ok(ElabCode::NotConstant),
        WidthFault::ZeroDivisor => Ok(ElabCode::ZeroDivisor),
        WidthFault::NoMemory => Err(NoMemory),
    }
}

/// The word of a constant expression, or the code of its first fault.
pub fn word_of(
    alloc: Global,
    expr: &Expr,
    names: Outside,
    context: u8,
) -> Result<Result<Word, ElabCode>, NoMemory>
    ensures { IfOk result (λ word. answer_of plain_word word ≡ coded (constant_answer (outside_names names.entry) (plain expr.now) context)) }
{
    let fault = match constant_among(alloc, expr, names.scope, names.unshaped, context) {
        Ok(word) => return Ok(Ok(word)),
        Err(fault) => fault,
    };
    match fault {
        WidthFault::NoMemory => Err(NoMemory),
        fault => {
            let code = code_of(fault)?;
            Ok(Err(code))
        }
    }
}

/// The numbers at the ends of a range.
#[derive(Clone, Copy)]
pub struct Ends {
    pub high: i128,
    pub low: i128,
}

impl Ends {
    /// Whether they are not 0 <= low <= high < 65,536.
    pub fn is_bad(self) -> bool
        ensures { result ≡ is_bad_range (plain_ends self) }
    {
        !(0 <= self.low && (self.low <= self.high && self.high <= 65535))
    }

    /// Whether there are more than 64 bits.
    pub fn is_wide(self) -> bool
        ensures { result ≡ nat_lt 64 (width_of (plain_ends self)) }
    {
        self.high.abs_diff(self.low) > 63
    }
}

// How many bits there are from an end to the other.
pub fn bits_of(ends: Ends) -> Option<Bits>
    ensures { plain_bits result ≡ cond (nat_lt 64 (width_of (plain_ends ends))) None (Some (width_of (plain_ends ends))) }
{
    if ends.is_wide() {
        None
    } else {
        let count = (ends.high.abs_diff(ends.low) + 1) as u8;
        Some(Bits { count })
    }
}

/// The ends of a range, or the code of its first fault.
pub fn ends_of(
    alloc: Global,
    range: &Range,
    names: Outside,
) -> Result<Result<Ends, ElabCode>, NoMemory>
    ensures { IfOk result (λ ends. answer_of plain_ends ends ≡ ends_answer (outside_names names.entry) (plain_range range.now)) }
{
    let high = match word_of(alloc, &range.high, names, 0)? {
        Ok(high) => high,
        Err(code) => return Ok(Err(code)),
    };
    match word_of(alloc, &range.low, names, 0)? {
        Ok(low) => Ok(Ok(Ends {
            high: high.number(),
            low: low.number(),
        })),
        Err(code) => Ok(Err(code)),
    }
}

// The width of a range, or why it has none.
fn checked_width(ends: Ends) -> Result<Option<Bits>, ElabCode>
    ensures { answer_of plain_bits result ≡ checked_width (plain_ends ends) }
{
    if ends.is_bad() {
        return Err(ElabCode::BadRange);
    }
    match bits_of(ends) {
        Some(bits) => Ok(Some(bits)),
        None => Err(ElabCode::TooWide),
    }
}

// The width of a parameter's range, where it has one, or the code of its fault.
pub fn range_width(
    alloc: Global,
    range: &Option<Range>,
    names: Outside,
) -> Result<Result<Option<Bits>, ElabCode>, NoMemory>
    ensures { IfOk result (λ width. answer_of plain_bits width ≡ param_width (outside_names names.entry) (option_map plain_range range.now)) }
{
    let Some(range) = range else {
        return Ok(Ok(None));
    };
    match ends_of(alloc, range, names)? {
        Err(code) => Ok(Err(code)),
        Ok(ends) => Ok(checked_width(ends)),
    }
}

fn unranged(signed: bool) -> SignalShape
    ensures { extent_of result ≡ ranged_as signed 1 0 }
{
    SignalShape {
        width: 1,
        low: 0,
        signed,
        ranged: true,
    }
}

// The shape of a signal with a range of such ends, with plain defaults where they are faulty.
pub fn ranged_shape(signed: bool, ends: Result<Ends, ElabCode>) -> SignalShape
    ensures { extent_of result ≡ ranged_extent signed (answer_of plain_ends ends) }
{
    let Ok(ends) = ends else {
        return unranged(signed);
    };
    if ends.is_bad() {
        return unranged(signed);
    }
    match bits_of(ends) {
        Some(bits) => SignalShape {
            width: bits.count,
            low: ends.low as u32,
            signed,
            ranged: true,
        },
        None => unranged(signed),
    }
}
