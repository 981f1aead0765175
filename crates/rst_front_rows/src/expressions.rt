// How tightly the operators of an expression hold, and how high it may be.
use rst_grammar::{NameText, Symbol, Terminal};
use rst_read::expression;
use rst_table::{Unlike, agree};
use rst_tree::Expr;
use rst_word::BinaryOp;
use std::alloc::Global;

// The binary operators, each with how tightly it holds its operands, as the table of the language has them.
const LEVELS: &str = "\
    * 10 Mul
    / 10 Div
    % 10 Rem
    + 9 Add
    - 9 Sub
    << 8 Shl
    >>> 8 ArithShr
    < 7 Lt
    <= 7 Le
    == 6 Eq
    & 5 And
    ^ 4 Xor
    ~^ 4 Xnor
    | 3 Or
    && 2 LogicAnd
    || 1 LogicOr";

// The terminal of an operator.
fn terminal(mark: &str) -> Option<Terminal> {
    match mark.as_bytes() {
        b"*" => Some(Terminal::Star),
        b"/" => Some(Terminal::Slash),
        b"%" => Some(Terminal::Percent),
        b"+" => Some(Terminal::Plus),
        b"-" => Some(Terminal::Minus),
        b"<<" => Some(Terminal::ShiftLeft),
        b">>>" => Some(Terminal::ArithShiftRight),
        b"<" => Some(Terminal::Less),
        b"<=" => Some(Terminal::LessEqual),
        b"==" => Some(Terminal::EqualEqual),
        b"&" => Some(Terminal::Amp),
        b"^" => Some(Terminal::Caret),
        b"~^" => Some(Terminal::TildeCaret),
        b"|" => Some(Terminal::Bar),
        b"&&" => Some(Terminal::AmpAmp),
        b"||" => Some(Terminal::BarBar),
        _ => None,
    }
}

fn name<'a>() -> Symbol<'a> {
    Symbol::Name(NameText::new(b"a"))
}

fn root(expr: &Expr) -> Option<BinaryOp> {
    match expr {
        Expr::Binary(op, _, _) => Some(*op),
        _ => None,
    }
}

// The outer operator of `a first a second a`.
fn outer(alloc: Global, first: Terminal, second: Terminal) -> Option<BinaryOp> {
    let mut symbols = Vec::new(alloc);
    symbols.push(name()).ok()?;
    symbols.push(Symbol::Terminal(first)).ok()?;
    symbols.push(name()).ok()?;
    symbols.push(Symbol::Terminal(second)).ok()?;
    symbols.push(name()).ok()?;
    let tree = expression(alloc, &symbols).ok()?;
    root(&tree)
}

// The operator of a row, its level and its name.
fn operator(row: &str) -> Option<(Terminal, u32, &str)> {
    let mut words = row.trim().split(' ');
    let mark = terminal(words.next()?)?;
    let level = words.next()?.parse::<u32>().ok()?;
    Some((mark, level, words.next()?))
}

// Whether the looser of two operators is the outer one, and of two of one level the right one.
fn is_grouped(alloc: Global, first: &str, second: &str) -> Option<bool> {
    let (first, tight, left) = operator(first)?;
    let (second, loose, right) = operator(second)?;
    let expected = if tight >= loose { right } else { left };
    let found = format!(in alloc; "{:?}", outer(alloc, first, second)?).ok()?;
    Some(found.as_str() == expected)
}

#[test]
fn levels_and_grouping(rt: HostRuntime) {
    for first in LEVELS.lines() {
        for second in LEVELS.lines() {
            let grouped = is_grouped(rt.alloc(), first, second);
            assert!(rt; grouped == Some(true), "{first} {second}");
        }
    }
}

// Whether `(((a)))` has a tree, with this many parentheses.
fn has_tree(alloc: Global, parentheses: &str) -> Option<bool> {
    let count = parentheses.parse::<u32>().ok()?;
    let mut symbols = Vec::new(alloc);
    for _ in 0..count {
        symbols.push(Symbol::Terminal(Terminal::OpenParen)).ok()?;
    }
    symbols.push(name()).ok()?;
    for _ in 0..count {
        symbols.push(Symbol::Terminal(Terminal::CloseParen)).ok()?;
    }
    Some(expression(alloc, &symbols).is_ok())
}

const PARENTHESES: &str = "
    150 => true
    199 => true
    200 => false
    300 => false
    100000 => false
";

#[test]
fn parentheses(rt: HostRuntime) -> Result<(), Unlike> {
    agree(rt.alloc(), PARENTHESES, has_tree)
}
