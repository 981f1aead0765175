// Both forms of a header, and each kind of item.
use crate::texts::{fault_of, only_module, source_of};
use rst_table::{Unlike, agree};
use rst_tree::{EdgeKind, Event, Events, Header, Item, Module, ParamDecl, PortDecl};
use std::alloc::{AllocError, Global};
use std::str;

// Whether a declaration's parameters are local, whether they are signed, whether they have a range, and how many there are.
fn summary(decl: &ParamDecl) -> (bool, bool, bool, usize) {
    (
        decl.local,
        decl.signed,
        decl.range.is_some(),
        decl.names.len(),
    )
}

// How many names a header without declarations has.
fn header_names(module: &Module) -> Option<usize> {
    match &module.header {
        Header::Plain(names) => Some(names.len()),
        _ => None,
    }
}

// The parameters of a header, and how many names it has.
fn parameters(alloc: Global, text: &str) -> Option<(Vec<(bool, bool, bool, usize)>, usize)> {
    let source = source_of(alloc, text)?;
    let module = only_module(&source)?;
    let names = header_names(module)?;
    let mut found = Vec::new(alloc);
    for decl in &module.params {
        found.push(summary(decl)).ok()?;
    }
    Some((found, names))
}

const PARAMETERS: &str = "
    module m #(parameter signed [3:0] A = 1, B = 2, parameter C = 3)(a, b); endmodule \
        => ([(false, true, true, 2), (false, false, false, 1)], 2)
";

#[test]
fn parameters_of_a_header(rt: HostRuntime) -> Result<(), Unlike> {
    agree(rt.alloc(), PARAMETERS, parameters)
}

// Whether a port is an input, whether it is a reg, whether it has a range, and how many names it has.
fn port_summary(port: &PortDecl) -> (bool, bool, bool, usize) {
    (port.input, port.reg, port.range.is_some(), port.names.len())
}

// The ports that a header declares.
fn header_ports(alloc: Global, text: &str) -> Option<Vec<(bool, bool, bool, usize)>> {
    let source = source_of(alloc, text)?;
    let Header::Full(ports) = &only_module(&source)?.header else {
        return None;
    };
    let mut found = Vec::new(alloc);
    for port in ports {
        found.push(port_summary(port)).ok()?;
    }
    Some(found)
}

const PORTS: &str = "
    module m(input wire [7:0] a, b, output reg q, output r); endmodule \
        => [(true, false, true, 2), (false, true, false, 1), (false, false, false, 1)]
";

#[test]
fn declarations_in_a_header(rt: HostRuntime) -> Result<(), Unlike> {
    agree(rt.alloc(), PORTS, header_ports)
}

fn event_count(events: &Events) -> usize {
    match events {
        Events::Any => 0,
        Events::List(events) => events.len(),
    }
}

// The kind of an item, and how many names, assignments, events or copies it has.
fn kind(item: &Item) -> (&'static str, usize) {
    match item {
        Item::Port(decl) if decl.input => ("input", decl.names.len()),
        Item::Port(decl) => ("output", decl.names.len()),
        Item::Net(decl) if decl.reg => ("reg", decl.names.len()),
        Item::Net(decl) => ("wire", decl.names.len()),
        Item::Params(decl) if decl.local => ("localparam", decl.names.len()),
        Item::Params(decl) => ("parameter", decl.names.len()),
        Item::Assign(assigns) => ("assign", assigns.len()),
        Item::Always(always) => ("always", event_count(&always.events)),
        Item::Instance(instance) => ("instance", instance.copies.len()),
    }
}

fn put_kind(alloc: Global, told: &mut String, item: &Item) -> Result<(), AllocError> {
    let (word, count) = kind(item);
    told.push_str(word)?;
    told.push(' ')?;
    told.push_str(count.to_string(alloc)?.as_str())?;
    told.push(' ')
}

// The items of a module, by their kinds.
fn kinds(alloc: Global, text: &str) -> Option<String> {
    let source = source_of(alloc, text)?;
    let mut told = String::new(alloc);
    for item in &only_module(&source)?.items {
        put_kind(alloc, &mut told, item).ok()?;
    }
    Some(told)
}

const ITEMS: &str = "
    module m(a, b, q); input a; output signed [1:0] b, q; \
        wire [1:0] w, v = a; reg s, t, u; \
        parameter P = 5; localparam L = 6, M = 7; \
        assign w = a, {b, q} = v; \
        always @(posedge a or negedge b, w) q <= a; \
        always @* ; always @(*) begin end \
        n #(4, 5) x(a), y(.d(b), .e()); n z(); \
        endmodule \
        => \"input 1 output 2 wire 2 reg 3 parameter 1 localparam 2 \
            assign 2 always 3 always 0 always 0 instance 2 instance 1 \"
";

#[test]
fn items(rt: HostRuntime) -> Result<(), Unlike> {
    agree(rt.alloc(), ITEMS, kinds)
}

// The edge of an event, and its name.
fn named(alloc: Global, event: &Event) -> Option<(EdgeKind, String)> {
    let name = str::from_utf8(event.name.as_slice()).ok()?;
    Some((event.edge, String::from_str(alloc, name).ok()?))
}

// The events of the module's first item.
fn events_of(alloc: Global, text: &str) -> Option<Vec<(EdgeKind, String)>> {
    let source = source_of(alloc, text)?;
    let Item::Always(always) = only_module(&source)?.items.first()? else {
        return None;
    };
    let Events::List(events) = &always.events else {
        return None;
    };
    let mut found = Vec::new(alloc);
    for event in events {
        found.push(named(alloc, event)?).ok()?;
    }
    Some(found)
}

const EVENTS: &str = r#"
    module m; always @(posedge a or negedge b, c) ; endmodule => [(Rising, "a"), (Falling, "b"), (Level, "c")]
"#;

#[test]
fn events(rt: HostRuntime) -> Result<(), Unlike> {
    agree(rt.alloc(), EVENTS, events_of)
}

const REFUSED: &str = "
    module m; reg q = 1; endmodule            => NoTree(0)
    module m; input a, output b; endmodule    => NoTree(0)
    module m(input a, b, c d); endmodule      => NoTree(0)
    module m; parameter = 1; endmodule        => NoTree(0)
    module m; always q = 1; endmodule         => NoTree(0)
    module m #(localparam P = 1)(); endmodule => NoTree(0)
    module m #(); endmodule                   => NoTree(0)
    module m; n u; endmodule                  => NoTree(0)
    module m; n u(a, .b(c)); endmodule        => NoTree(0)
";

// A reg has no value, and a lone empty link stands for no link.
#[test]
fn refused_items(rt: HostRuntime) -> Result<(), Unlike> {
    agree(rt.alloc(), REFUSED, fault_of)
}
