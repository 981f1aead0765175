//! The syntax tree of a Verilog text.
//!
//! Contracts see a tree as its plain form, which has lists in place of what lies in memory (`specs/Trees.antt` and the
//! files beside it).
#![tactic(auto)]

mod expr;
mod heights;
mod module;
mod same;
mod stmt;

pub use expr::{Expr, Target};
pub use heights::{height, height_of};
pub use module::{
    Always, Assign, Copied, EdgeKind, Event, Events, Header, Instance, Item, Link, Links, Module,
    NetDecl, NetName, ParamDecl, ParamName, PortDecl, Range, Source,
};
pub use same::{same_expr, same_range};
pub use stmt::{Arm, CaseStmt, SetStmt, Stmt};
