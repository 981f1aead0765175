// How many gates operators ask for.

ghost use Rattle.std.specs.Prelude.{◌≡◌, ◌*◌};
ghost use Rattle.rst_width.specs.Sized.{is_division};
ghost use Rattle.rst_weight.specs.Operators.{unary_weight, binary_weight};

use rst_word::{BinaryOp, UnaryOp};

/// The weight of an operator with one operand, by its own width and the operand's.
pub fn unary_weight(op: UnaryOp, width: u8, operand: u8) -> u64
    ensures { result ≡ unary_weight op width operand }
{
    match op {
        UnaryOp::Plus | UnaryOp::Invert => 0,
        UnaryOp::Minus => 6 * width as u64,
        UnaryOp::Not
        | UnaryOp::And
        | UnaryOp::Nand
        | UnaryOp::Or
        | UnaryOp::Nor
        | UnaryOp::Xor
        | UnaryOp::Xnor => operand as u64,
    }
}

/// Whether an operator gives a quotient or a remainder.
pub fn is_division(op: BinaryOp) -> bool
    ensures { result ≡ is_division op }
{
    match op {
        BinaryOp::Div | BinaryOp::Rem => true,
        BinaryOp::Mul
        | BinaryOp::Add
        | BinaryOp::Sub
        | BinaryOp::Shl
        | BinaryOp::Shr
        | BinaryOp::ArithShl
        | BinaryOp::ArithShr
        | BinaryOp::Lt
        | BinaryOp::Le
        | BinaryOp::Gt
        | BinaryOp::Ge
        | BinaryOp::Eq
        | BinaryOp::Ne
        | BinaryOp::And
        | BinaryOp::Xor
        | BinaryOp::Xnor
        | BinaryOp::Or
        | BinaryOp::LogicAnd
        | BinaryOp::LogicOr => false,
    }
}

fn product_weight(width: u8) -> u64
    ensures { result ≡ 7 * (width * width) }
{
    7 * (width as u64 * width as u64)
}

/// The weight of an operator by its own width and those of its operands.
pub fn binary_weight(op: BinaryOp, width: u8, left: u8, right: u8) -> u64
    ensures { result ≡ binary_weight op width left right }
{
    match op {
        BinaryOp::Mul => product_weight(width),
        BinaryOp::Div | BinaryOp::Rem => 0,
        BinaryOp::Add | BinaryOp::Sub => 6 * width as u64,
        BinaryOp::Shl | BinaryOp::Shr | BinaryOp::ArithShl | BinaryOp::ArithShr => {
            7 * width as u64 + right as u64
        }
        BinaryOp::Lt | BinaryOp::Le | BinaryOp::Gt | BinaryOp::Ge | BinaryOp::Eq | BinaryOp::Ne => 4
            * left as u64,
        BinaryOp::And | BinaryOp::Xor | BinaryOp::Xnor | BinaryOp::Or => width as u64,
        BinaryOp::LogicAnd | BinaryOp::LogicOr => left as u64 + right as u64 + 1,
    }
}
