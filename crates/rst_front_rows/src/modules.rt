// What the parser accepts and refuses, and the tree of a module.
use crate::texts::{
    expr_of, fault_of, only_module, parsed, source_of, tokens_of, with_expr, with_items,
};
use rst_lex::LexFault;
use rst_parse::ParseFault;
use rst_table::{Unlike, agree};
use rst_tree::{Expr, Header, Item, Links, Module};
use rst_word::BinaryOp;
use std::alloc::{AllocError, Global};

fn lexical_fault(alloc: Global, text: &str) -> Option<LexFault> {
    tokens_of(alloc, text.as_bytes()).err()
}

const LEXICAL_FAULTS: &str = r"
    module e(output y);\nassign y = 8'hG; endmodule  => BadNumber(31)
    module e(output y);\nassign y = 72'h0; endmodule => NumberTooWide(31)
";

#[test]
fn lexical_faults(rt: HostRuntime) -> Result<(), Unlike> {
    agree(rt.alloc(), LEXICAL_FAULTS, lexical_fault)
}

const REFUSALS: &str = r"
    module e(output y);\ninitial y = 0; endmodule => Unsupported(7)
    module e(output y);\nassign y = ; endmodule   => NoTree(0)
    module m; assign y = a === b; endmodule       => Unsupported(7)
    module m; assign y = a !== b; endmodule       => Unsupported(7)
    module m; assign y = a ** b; endmodule        => Unsupported(7)
    module m; assign y = $clog2(b); endmodule     => Unsupported(6)
    endmodule initial fork                        => Unsupported(1)
    module m; endmodule module n; endmodule x     => NoTree(8)
    module m; endmodule x endmodule module n      => NoTree(4)
    endmodule                                     => NoTree(0)
    module m;                                     => NoTree(0)
";

#[test]
fn refusals(rt: HostRuntime) -> Result<(), Unlike> {
    agree(rt.alloc(), REFUSALS, fault_of)
}

fn is_name(expr: &Expr, text: &[u8]) -> bool {
    match expr {
        Expr::Name(name) => name.as_slice() == text,
        _ => false,
    }
}

// The operands of this operator.
fn operands(expr: &Expr, op: BinaryOp) -> Option<(&Expr, &Expr)> {
    match expr {
        Expr::Binary(found, left, right) if *found == op => Some((&**left, &**right)),
        _ => None,
    }
}

fn has_no_ports(module: &Module) -> bool {
    match &module.header {
        Header::Plain(names) => names.is_empty(),
        _ => false,
    }
}

// Whether the only module is `m` without ports.
fn is_plain(alloc: Global, text: &str) -> Option<bool> {
    let source = with_expr(alloc, text)?;
    let module = only_module(&source)?;
    Some(module.name.as_slice() == b"m".as_slice() && has_no_ports(module))
}

// Whether the three operands of an exclusive or of `a` and a conjunction are `a`, `b` and `c`.
fn has_operands(alloc: Global, text: &str) -> Option<(bool, bool, bool)> {
    let source = with_expr(alloc, text)?;
    let (first, product) = operands(expr_of(&source)?, BinaryOp::Xor)?;
    let (second, third) = operands(product, BinaryOp::And)?;
    Some((
        is_name(first, b"a"),
        is_name(second, b"b"),
        is_name(third, b"c"),
    ))
}

#[test]
fn tree_of_an_assign(rt: HostRuntime) -> Result<(), Unlike> {
    agree(rt.alloc(), "a ^ b & c => true", is_plain)?;
    agree(rt.alloc(), "a ^ b & c => (true, true, true)", has_operands)
}

// Whether links are named, how many there are, and how many are empty.
fn shape(links: &Links) -> (bool, usize, usize) {
    match links {
        Links::Ordered(values) => (
            false,
            values.len(),
            values.iter().filter(|value| value.is_none()).count(),
        ),
        Links::Named(links) => (
            true,
            links.len(),
            links.iter().filter(|link| link.value.is_none()).count(),
        ),
    }
}

// The shape of the port links of the first instance.
fn port_links(alloc: Global, items: &str) -> Option<(bool, usize, usize)> {
    let source = with_items(alloc, items)?;
    match only_module(&source)?.items.first()? {
        Item::Instance(instance) => Some(shape(&instance.copies.first()?.ports)),
        _ => None,
    }
}

const LINKS: &str = "
    n u();            => (false, 0, 0)
    n u(a, , b);      => (false, 3, 1)
    n u(a,);          => (false, 2, 1)
    n u(.x(a), .y()); => (true, 2, 1)
";

#[test]
fn links(rt: HostRuntime) -> Result<(), Unlike> {
    agree(rt.alloc(), LINKS, port_links)
}

fn module_count(alloc: Global, text: &str) -> Option<usize> {
    let source = source_of(alloc, text)?;
    Some(source.modules.len())
}

const MODULES: &str = r"
    => 0
    \ // nothing\n => 0
    module m; endmodule module n; endmodule => 2
    (* a *) module (* b *) m (**) ; (* c = 1 *) endmodule (* d *) => 1
";

#[test]
fn modules(rt: HostRuntime) -> Result<(), Unlike> {
    agree(rt.alloc(), MODULES, module_count)
}

// The end of a text in which a piece stands in the middle, with so many pieces in front of it and as many behind.
fn put_nested(
    text: &mut String,
    [opening, middle, closing, last]: [&str; 4],
    times: u32,
) -> Result<(), AllocError> {
    for _ in 0..times {
        text.push_str(opening)?;
    }
    text.push_str(middle)?;
    for _ in 0..times {
        text.push_str(closing)?;
    }
    text.push_str(last)
}

// A module with an expression in so many parentheses.
fn nested_expression(alloc: Global, times: &str) -> Option<Option<ParseFault>> {
    let mut text = String::from_str(alloc, "module m; assign y = ").ok()?;
    put_nested(
        &mut text,
        ["(", "a", ")", "; endmodule"],
        times.parse::<u32>().ok()?,
    )
    .ok()?;
    Some(parsed(alloc, text.as_bytes())?.err())
}

// A module with so many blocks in one another.
fn nested_block(alloc: Global, times: &str) -> Option<Option<ParseFault>> {
    let mut text = String::from_str(alloc, "module m; always @* ").ok()?;
    put_nested(
        &mut text,
        ["begin ", "; ", "end ", "endmodule"],
        times.parse::<u32>().ok()?,
    )
    .ok()?;
    Some(parsed(alloc, text.as_bytes())?.err())
}

const EXPRESSIONS: &str = "
    150 => None
    300 => Some(NoTree(0))
";

const BLOCKS: &str = "
    150 => None
    100000 => Some(NoTree(0))
";

// Depth is refused, and takes no stack.
#[test]
fn depth(rt: HostRuntime) -> Result<(), Unlike> {
    agree(rt.alloc(), EXPRESSIONS, nested_expression)?;
    agree(rt.alloc(), BLOCKS, nested_block)
}
