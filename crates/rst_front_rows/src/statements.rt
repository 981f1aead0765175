// Statements, and what stands in front of other symbols.
use rst_grammar::{NameText, Symbol, Terminal};
use rst_lex::Literal;
use rst_read::{MOST_HEIGHT, Stop, after, behind, read_expression};
use rst_statement::{read_statement, read_target, statement};
use rst_table::{Unlike, agree};
use rst_tree::{Expr, Stmt, Target};
use rst_word::BinaryOp;
use std::alloc::{AllocError, Global};

// The terminal that a letter stands for in these tests.
fn terminal(letter: u8) -> Option<Terminal> {
    match letter {
        b'i' => Some(Terminal::If),
        b'e' => Some(Terminal::Else),
        b'b' => Some(Terminal::Begin),
        b'n' => Some(Terminal::End),
        b'c' => Some(Terminal::Case),
        b'z' => Some(Terminal::Casez),
        b'd' => Some(Terminal::Default),
        b'/' => Some(Terminal::Endcase),
        b'(' => Some(Terminal::OpenParen),
        b')' => Some(Terminal::CloseParen),
        b'{' => Some(Terminal::OpenBrace),
        b'}' => Some(Terminal::CloseBrace),
        b'[' => Some(Terminal::OpenBracket),
        b']' => Some(Terminal::CloseBracket),
        b',' => Some(Terminal::Comma),
        b':' => Some(Terminal::Colon),
        b';' => Some(Terminal::Semicolon),
        b'=' => Some(Terminal::Equal),
        b'<' => Some(Terminal::LessEqual),
        _ => None,
    }
}

// The symbol that a letter stands for: a terminal, for `?` the literal 1'b?, else the name `a`.
fn symbol<'a>(letter: u8) -> Symbol<'a> {
    match terminal(letter) {
        Some(mark) => Symbol::Terminal(mark),
        None if letter == b'?' => Symbol::Number(Literal {
            width: 1,
            signed: false,
            value: 0,
            mask: 1,
        }),
        None => Symbol::Name(NameText::new(b"a")),
    }
}

// The symbols that letters stand for, so many times over.
fn symbols<'a>(alloc: Global, letters: &[u8], times: u32) -> Result<Vec<Symbol<'a>>, AllocError> {
    let mut symbols = Vec::new(alloc);
    for _ in 0..times {
        for letter in letters {
            symbols.push(symbol(*letter))?;
        }
    }
    Ok(symbols)
}

// Whether letters stand for a statement.
fn is_statement(alloc: Global, letters: &str) -> Option<bool> {
    let symbols = symbols(alloc, letters.as_bytes(), 1).ok()?;
    match statement(alloc, &symbols) {
        Ok(stmt) => {
            drop(stmt);
            Some(true)
        }
        Err(Stop::NoTree) => Some(false),
        Err(_) => None,
    }
}

// The statement that letters stand for.
fn statement_of(alloc: Global, letters: &str) -> Option<Box<Stmt>> {
    let symbols = symbols(alloc, letters.as_bytes(), 1).ok()?;
    let stmt = statement(alloc, &symbols).ok()?;
    Box::new(alloc, stmt).ok()
}

fn has_else(stmt: &Stmt) -> bool {
    match stmt {
        Stmt::If(_, _, Some(_)) => true,
        _ => false,
    }
}

// Whether a condition has an `else`, and whether the statement right behind it has.
fn elses(stmt: &Stmt) -> (bool, bool) {
    match stmt {
        Stmt::If(_, yes, _) => (has_else(stmt), has_else(yes)),
        _ => (false, false),
    }
}

fn elses_of(alloc: Global, letters: &str) -> Option<(bool, bool)> {
    let stmt = statement_of(alloc, letters)?;
    Some(elses(&stmt))
}

const CONDITIONS: &str = "
    i(a);          => (false, false)
    i(a)i(a);e;    => (false, true)
    i(a)i(a);e;e;  => (true, true)
    i(a)bi(a);ne;  => (true, false)
";

// `else` belongs to the nearest `if` that lacks one.
#[test]
fn nearest_else(rt: HostRuntime) -> Result<(), Unlike> {
    agree(rt.alloc(), CONDITIONS, elses_of)
}

fn operator(expr: &Expr) -> Option<BinaryOp> {
    match expr {
        Expr::Binary(op, _, _) => Some(*op),
        _ => None,
    }
}

// Whether an assignment is blocking, and the operator of its value.
fn assigned(stmt: &Stmt) -> Option<(bool, Option<BinaryOp>)> {
    match stmt {
        Stmt::Set(set) => Some((set.blocking, operator(&set.value))),
        _ => None,
    }
}

fn assigned_in(alloc: Global, letters: &str) -> Option<(bool, Option<BinaryOp>)> {
    let stmt = statement_of(alloc, letters)?;
    assigned(&stmt)
}

const ASSIGNMENTS: &str = "
    a<a;   => (false, None)
    a<a<a; => (false, Some(Le))
    a=a<a; => (true, Some(Le))
";

// The first `<=` of a statement assigns, and the second compares.
#[test]
fn less_equal(rt: HostRuntime) -> Result<(), Unlike> {
    agree(rt.alloc(), ASSIGNMENTS, assigned_in)
}

const STATEMENTS: &str = "
    c(a)a,a:;d;a:;/ => true
    c(a)d:;/  => true
    z(a)?:;/  => true
    c(a)?:;/  => false
    c(a)d;d;/ => false
    c(a)/     => false
    bn        => true
    b:a;a=a;n => true
    b:;n      => false
    b;        => false
";

#[test]
fn cases_and_blocks(rt: HostRuntime) -> Result<(), Unlike> {
    agree(rt.alloc(), STATEMENTS, is_statement)
}

// So many times the one piece, `;`, and so many times the other.
fn nested(alloc: Global, row: &str) -> Option<Vec<Symbol<'_>>> {
    let mut words = row.split(' ');
    let times = words.next()?.parse::<u32>().ok()?;
    let mut all = symbols(alloc, words.next()?.as_bytes(), times).ok()?;
    all.push(symbol(b';')).ok()?;
    for behind in symbols(alloc, words.next().unwrap_or("").as_bytes(), times).ok()? {
        all.push(behind).ok()?;
    }
    Some(all)
}

fn is_nested_statement(alloc: Global, row: &str) -> Option<bool> {
    let symbols = nested(alloc, row)?;
    Some(statement(alloc, &symbols).is_ok())
}

// How often two pieces stand around `;`, the piece in front and the one behind.
const NESTINGS: &str = "
    199 b n         => true
    200 b n         => false
    100000 b n      => false
    199 i(a);e      => true
    200 i(a);e      => false
    100000 i(a);e   => false
";

// Nesting is refused past the height of 200, and takes no more calls inside one another than that.
#[test]
fn nesting(rt: HostRuntime) -> Result<(), Unlike> {
    agree(rt.alloc(), NESTINGS, is_nested_statement)
}

// The height of the expression in front, and how many symbols stand behind it.
fn expression_in(alloc: Global, letters: &str) -> Option<(u32, usize)> {
    let symbols = symbols(alloc, letters.as_bytes(), 1).ok()?;
    let (found, rest) = read_expression(alloc, &symbols, MOST_HEIGHT).ok()?;
    let depth = found.depth;
    drop(found);
    Some((depth, rest.len()))
}

fn parts(target: &Target) -> usize {
    match target {
        Target::Join(parts) => parts.len(),
        _ => 1,
    }
}

// The height of the target in front, how many parts it has, and how many symbols stand behind it.
fn target_in(alloc: Global, letters: &str) -> Option<(u32, usize, usize)> {
    let symbols = symbols(alloc, letters.as_bytes(), 1).ok()?;
    let (found, rest) = read_target(alloc, &symbols, MOST_HEIGHT).ok()?;
    let read = (found.depth, parts(&found.target), rest.len());
    drop(found);
    Some(read)
}

// The height of the statement in front, of a height of at most 1, and how many symbols stand behind it.
fn statement_in(alloc: Global, letters: &str) -> Option<(u32, usize)> {
    let symbols = symbols(alloc, letters.as_bytes(), 1).ok()?;
    let (found, rest) = read_statement(alloc, &symbols, 1).ok()?;
    let depth = found.depth;
    drop(found);
    Some((depth, rest.len()))
}

#[test]
fn what_stands_in_front(rt: HostRuntime) -> Result<(), Unlike> {
    agree(rt.alloc(), "(a); => (2, 1)", expression_in)?;
    agree(rt.alloc(), "{a,a[a],a[a:a]}= => (3, 3, 1)", target_in)?;
    agree(rt.alloc(), ";; => (1, 1)", statement_in)
}

// How many symbols stand behind `=`, and whether `=` and whether `;` is in front.
fn terminals_in(alloc: Global, letters: &str) -> Option<(usize, bool, bool)> {
    let symbols = symbols(alloc, letters.as_bytes(), 1).ok()?;
    let rest = after(&symbols, Terminal::Equal).ok()?.len();
    let equal = behind(&symbols, Terminal::Equal).is_some();
    Some((rest, equal, behind(&symbols, Terminal::Semicolon).is_some()))
}

#[test]
fn terminals(rt: HostRuntime) -> Result<(), Unlike> {
    agree(rt.alloc(), "=; => (1, true, false)", terminals_in)
}
