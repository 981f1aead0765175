/// The operators with one operand (IEEE 1364-2001, clause 4.1).
#[derive(Clone, Copy, Debug, PartialEq, Eq)]
pub enum UnaryOp {
    /// `+`
    Plus,
    /// `-`
    Minus,
    /// `!`
    Not,
    /// `~`
    Invert,
    /// `&` over all bits
    And,
    /// `~&` over all bits
    Nand,
    /// `|` over all bits
    Or,
    /// `~|` over all bits
    Nor,
    /// `^` over all bits
    Xor,
    /// `~^` over all bits
    Xnor,
}

/// The operators with two operands (IEEE 1364-2001, clause 4.1).
#[derive(Clone, Copy, Debug, PartialEq, Eq)]
pub enum BinaryOp {
    /// `*`
    Mul,
    /// `/`
    Div,
    /// `%`
    Rem,
    /// `+`
    Add,
    /// `-`
    Sub,
    /// `<<`
    Shl,
    /// `>>`
    Shr,
    /// `<<<`
    ArithShl,
    /// `>>>`
    ArithShr,
    /// `<`
    Lt,
    /// `<=`
    Le,
    /// `>`
    Gt,
    /// `>=`
    Ge,
    /// `==`
    Eq,
    /// `!=`
    Ne,
    /// `&` bit by bit
    And,
    /// `^` bit by bit
    Xor,
    /// `~^` bit by bit
    Xnor,
    /// `|` bit by bit
    Or,
    /// `&&`
    LogicAnd,
    /// `||`
    LogicOr,
}
