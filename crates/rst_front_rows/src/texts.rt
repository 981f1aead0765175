// Trees of texts.
use rst_lex::{LexFault, Token, lex};
use rst_parse::{ParseFault, parse};
use rst_tree::{Always, Assign, Expr, Item, Module, Source, Stmt};
use std::alloc::{AllocError, Global};

const MOST: usize = 1_048_576;

/// The tokens of a text of at most a mebibyte.
pub(crate) fn tokens_of(alloc: Global, text: &[u8]) -> Result<Vec<Token>, LexFault> {
    if text.len() > MOST {
        return Err(LexFault::NoMemory);
    }
    lex(alloc, text)
}

/// What a text with tokens is parsed as.
pub(crate) fn parsed(alloc: Global, text: &[u8]) -> Option<Result<Source, ParseFault>> {
    if text.len() > MOST {
        return None;
    }
    let tokens = lex(alloc, text).ok()?;
    Some(parse(alloc, text, &tokens))
}

/// Why a text with tokens has no tree, if it has none.
pub(crate) fn fault_of(alloc: Global, text: &str) -> Option<ParseFault> {
    parsed(alloc, text.as_bytes())?.err()
}

/// The tree of a text.
pub(crate) fn source_of(alloc: Global, text: &str) -> Option<Source> {
    parsed(alloc, text.as_bytes())?.ok()
}

/// The only module of a source.
pub(crate) fn only_module(source: &Source) -> Option<&Module> {
    match source.modules.as_slice() {
        [module] => Some(module),
        _ => None,
    }
}

fn around(alloc: Global, front: &str, text: &str, back: &str) -> Result<String, AllocError> {
    let mut all = String::from_str(alloc, front)?;
    all.push_str(text)?;
    all.push_str(back)?;
    Ok(all)
}

/// The source of a module with these items.
pub(crate) fn with_items(alloc: Global, items: &str) -> Option<Source> {
    let text = around(alloc, "module m; ", items, " endmodule").ok()?;
    source_of(alloc, text.as_str())
}

/// The source of a module that assigns this expression.
pub(crate) fn with_expr(alloc: Global, expr: &str) -> Option<Source> {
    let text = around(alloc, "module m; assign y = ", expr, "; endmodule").ok()?;
    source_of(alloc, text.as_str())
}

/// The expression that the first item of the only module assigns.
pub(crate) fn expr_of(source: &Source) -> Option<&Expr> {
    match only_module(source)?.items.first()? {
        Item::Assign(assigns) => value_of(assigns),
        _ => None,
    }
}

fn value_of(assigns: &[Assign]) -> Option<&Expr> {
    let assign = assigns.first()?;
    Some(&assign.value)
}

/// The source of a module with this statement.
pub(crate) fn with_stmt(alloc: Global, stmt: &str) -> Option<Source> {
    let text = around(alloc, "module m; always @* ", stmt, " endmodule").ok()?;
    source_of(alloc, text.as_str())
}

fn body_of(always: &Always) -> &Stmt {
    &always.body
}

/// The statement of the first item of the only module.
pub(crate) fn stmt_of(source: &Source) -> Option<&Stmt> {
    match only_module(source)?.items.first()? {
        Item::Always(always) => Some(body_of(always)),
        _ => None,
    }
}
