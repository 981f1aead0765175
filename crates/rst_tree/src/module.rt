// Modules and their items.

use crate::expr::{Expr, Target};
use crate::stmt::Stmt;
use rst_outside::Name;

/// The modules of one text.
#[derive(Drop)]
pub struct Source {
    pub modules: Vec<Module>,
}

/// A module (IEEE 1364-2001, annex A.1.3).
#[derive(Drop)]
pub struct Module {
    pub name: Name,
    /// The parameters of the header, a declaration for each `parameter`.
    pub params: Vec<ParamDecl>,
    pub header: Header,
    pub items: Vec<Item>,
}

/// The ports of a module's header: their names alone, or with their declarations. A header without ports is plain.
#[derive(Drop)]
pub enum Header {
    Plain(Vec<Name>),
    Full(Vec<PortDecl>),
}

/// A declaration of ports (IEEE 1364-2001, annex A.2.1.2). It is an output where it isn't an input.
#[derive(Drop)]
pub struct PortDecl {
    pub input: bool,
    pub reg: bool,
    pub signed: bool,
    pub range: Option<Range>,
    pub names: Vec<Name>,
}

/// `[high:low]`
#[derive(Drop)]
pub struct Range {
    pub high: Expr,
    pub low: Expr,
}

/// A declaration of parameters, local ones where it is a `localparam` (IEEE 1364-2001, annex A.2.1.1).
#[derive(Drop)]
pub struct ParamDecl {
    pub local: bool,
    pub signed: bool,
    pub range: Option<Range>,
    pub names: Vec<ParamName>,
}

/// A declared name, and the value of the parameter.
#[derive(Drop)]
pub struct ParamName {
    pub name: Name,
    pub value: Expr,
}

/// A declaration of wires or, where `reg` is set, of regs (IEEE 1364-2001, annex A.2.1.3).
#[derive(Drop)]
pub struct NetDecl {
    pub reg: bool,
    pub signed: bool,
    pub range: Option<Range>,
    pub names: Vec<NetName>,
}

/// A declared name, and for a wire the value that it is assigned.
#[derive(Drop)]
pub struct NetName {
    pub name: Name,
    pub value: Option<Expr>,
}

/// An item of a module (IEEE 1364-2001, annex A.1.5).
#[derive(Drop)]
pub enum Item {
    Port(PortDecl),
    Net(NetDecl),
    Params(ParamDecl),
    Assign(Vec<Assign>),
    Always(Always),
    Instance(Instance),
}

/// One assignment of an `assign` item.
#[derive(Drop)]
pub struct Assign {
    pub target: Target,
    pub value: Expr,
}

/// An `always` block (IEEE 1364-2001, clause 9.9.2).
#[derive(Drop)]
pub struct Always {
    pub events: Events,
    pub body: Stmt,
}

/// What an `always` block waits for: any change, `@*`, or one of a list.
#[derive(Drop)]
pub enum Events {
    Any,
    List(Vec<Event>),
}

#[derive(Drop)]
pub struct Event {
    pub edge: EdgeKind,
    pub name: Name,
}

/// Any change, `posedge` or `negedge`.
#[derive(Clone, Copy, Debug, PartialEq, Eq)]
pub enum EdgeKind {
    Level,
    Rising,
    Falling,
}

/// Instances of one module (IEEE 1364-2001, annex A.4.1). Without `#( .. )` the parameter links are an empty ordered list.
#[derive(Drop)]
pub struct Instance {
    pub module: Name,
    pub params: Links,
    pub copies: Vec<Copied>,
}

/// One instance.
#[derive(Drop)]
pub struct Copied {
    pub name: Name,
    pub ports: Links,
}

/// Links by place, of which some may be left empty, or by name.
#[derive(Drop)]
pub enum Links {
    Ordered(Vec<Option<Expr>>),
    Named(Vec<Link>),
}

/// `.name(value)`
#[derive(Drop)]
pub struct Link {
    pub name: Name,
    pub value: Option<Expr>,
}
