// The row NoName.

ghost use Rattle.std.specs.Prelude.{◌≡◌, ◌+◌, ◌≤◌, length, map, None, IfErr, OnOk};
ghost use Rattle.std.specs.List.{flat_map};
ghost use Rattle.std.specs.Option.{option_map, option_copied};
ghost use Rattle.rst_tree.specs.Trees.{plain};
ghost use Rattle.rst_tree.specs.Targets.{plain_target};
ghost use Rattle.rst_tree.specs.Statements.{plain_stmt};
ghost use Rattle.rst_tree.specs.Modules.{AlwaysBlock, plain_range, plain_net_decl, plain_param_decl, plain_port_decl, plain_assign, plain_always, plain_link, plain_links, plain_instance, plain_item};
ghost use Rattle.rst_names.specs.Faults.{Refuses, first};
ghost use Rattle.rst_names.specs.Names.{if_any, names_in_target, names_in_stmt};
ghost use Rattle.rst_names.specs.Declarations.{declarations, declares, is_signal};
ghost use Rattle.rst_names.specs.Tables.{is_undeclared};
ghost use Rattle.rst_name_faults.specs.NameRows.{Used, Awaited, used_in, used_in_range, used_in_port, used_in_net, used_in_params, used_in_assign, used_in_links, used_in_instance, used_in_item, used_in_heading, undeclared_in, no_names};
ghost use Rattle.rst_name_faults.specs.Tables.{module_of, AreRight};

use rst_names::{
    ElabCode, ElabError, Facts, NameTest, first_in, first_in_stmt, first_in_target, refusal,
};
use rst_outside::Name;
use rst_tree::{
    Always, Assign, Event, Events, Expr, Header, Instance, Item, Link, Links, NetDecl, ParamDecl,
    PortDecl, Range, Stmt, Target,
};
use std::alloc::Global;

// A name that is neither a signal nor a parameter.
#[derive(Clone, Copy)]
struct Undeclared<'a, 'b>(&'b Facts<'a>);

impl NameTest for Undeclared<'_, '_> {
    ghost test = { λ t name. is_undeclared t.0.now name };

    fn passes(&self, name: &Name) -> bool {
        let summary = self.0.summary(name);
        !(summary.signal || summary.parameter)
    }
}

fn no_name<'a>(facts: &Facts, expr: &'a Expr) -> Option<&'a Name>
    requires { AreRight facts.now }
    ensures { option_copied result ≡ first (undeclared_in (declarations (module_of facts.now)) (used_in (plain expr.now))) }
{
    first_in(expr, &Undeclared(facts))
}

#[tactic(auto, using(crate::proofs::UseLemmas::uses))]
fn no_name_in_range<'a>(facts: &Facts, range: &'a Option<Range>) -> Option<&'a Name>
    requires { AreRight facts.now }
    ensures { option_copied result ≡ first (undeclared_in (declarations (module_of facts.now)) (if_any used_in_range (option_map plain_range range.now))) }
{
    match range {
        None => None,
        Some(range) => match no_name(facts, &range.high) {
            Some(name) => Some(name),
            None => no_name(facts, &range.low),
        },
    }
}

fn no_name_if_any<'a>(facts: &Facts, value: &'a Option<Expr>) -> Option<&'a Name>
    requires { AreRight facts.now }
    ensures { option_copied result ≡ first (undeclared_in (declarations (module_of facts.now)) (if_any used_in (option_map plain value.now))) }
{
    match value {
        Some(value) => no_name(facts, value),
        None => None,
    }
}

#[tactic(auto, using(crate::proofs::UseLemmas::uses))]
fn no_name_in_net<'a>(facts: &Facts, d: &'a NetDecl) -> Option<&'a Name>
    requires { AreRight facts.now }
    ensures { option_copied result ≡ first (undeclared_in (declarations (module_of facts.now)) (used_in_net (plain_net_decl d.now))) }
{
    if let Some(name) = no_name_in_range(facts, &d.range) {
        return Some(name);
    }
    for net in &d.names {
        if let Some(name) = no_name_if_any(facts, &net.value) {
            return Some(name);
        }
    }
    None
}

#[tactic(auto, using(crate::proofs::UseLemmas::uses))]
fn no_name_in_params<'a>(facts: &Facts, d: &'a ParamDecl) -> Option<&'a Name>
    requires { AreRight facts.now }
    ensures { option_copied result ≡ first (undeclared_in (declarations (module_of facts.now)) (used_in_params (plain_param_decl d.now))) }
{
    if let Some(name) = no_name_in_range(facts, &d.range) {
        return Some(name);
    }
    for param in &d.names {
        if let Some(name) = no_name(facts, &param.value) {
            return Some(name);
        }
    }
    None
}

fn no_name_in_target<'a>(facts: &Facts, target: &'a Target) -> Option<&'a Name>
    requires { AreRight facts.now }
    ensures { option_copied result ≡ first (undeclared_in (declarations (module_of facts.now)) (map Used (names_in_target (plain_target target.now)))) }
{
    first_in_target(target, &Undeclared(facts))
}

#[tactic(auto, using(crate::proofs::UseLemmas::uses))]
fn no_name_in_assign<'a>(facts: &Facts, assign: &'a Assign) -> Option<&'a Name>
    requires { AreRight facts.now }
    ensures { option_copied result ≡ first (undeclared_in (declarations (module_of facts.now)) (used_in_assign (plain_assign assign.now))) }
{
    if let Some(name) = no_name_in_target(facts, &assign.target) {
        return Some(name);
    }
    no_name(facts, &assign.value)
}

#[tactic(auto, using(crate::proofs::UseLemmas::uses))]
fn no_name_in_assigns<'a>(facts: &Facts, assigns: &'a [Assign]) -> Option<&'a Name>
    requires { AreRight facts.now }
    ensures { option_copied result ≡ first (undeclared_in (declarations (module_of facts.now)) (flat_map used_in_assign (map plain_assign assigns.now))) }
{
    for assign in assigns {
        if let Some(name) = no_name_in_assign(facts, assign) {
            return Some(name);
        }
    }
    None
}

fn is_signal(facts: &Facts, name: &Name) -> bool
    requires { AreRight facts.now }
    ensures { result ≡ declares is_signal (declarations (module_of facts.now)) name.now }
{
    facts.summary(name).signal
}

#[tactic(auto, using(crate::proofs::UseLemmas::uses))]
fn no_name_in_events<'a>(facts: &Facts, events: &'a [Event]) -> Option<&'a Name>
    requires { AreRight facts.now }
    ensures { option_copied result ≡ first (undeclared_in (declarations (module_of facts.now)) (map (λ e. Awaited e.name) events.now)) }
{
    for event in events {
        if !is_signal(facts, &event.name) {
            return Some(&event.name);
        }
    }
    None
}

fn no_name_in_stmt<'a>(facts: &Facts, stmt: &'a Stmt) -> Option<&'a Name>
    requires { AreRight facts.now }
    ensures { option_copied result ≡ first (undeclared_in (declarations (module_of facts.now)) (map Used (names_in_stmt (plain_stmt stmt.now)))) }
{
    first_in_stmt(stmt, &Undeclared(facts))
}

#[tactic(auto, using(crate::proofs::UseLemmas::uses))]
fn no_name_in_always<'a>(facts: &Facts, always: &'a Always) -> Option<&'a Name>
    requires { AreRight facts.now }
    ensures { option_copied result ≡ first (undeclared_in (declarations (module_of facts.now)) (used_in_item (AlwaysBlock (plain_always always.now)))) }
{
    if let Events::List(events) = &always.events {
        if let Some(name) = no_name_in_events(facts, events) {
            return Some(name);
        }
    }
    no_name_in_stmt(facts, &always.body)
}

#[tactic(auto, using(crate::proofs::UseLemmas::uses))]
fn no_name_in_values<'a>(facts: &Facts, values: &'a [Option<Expr>]) -> Option<&'a Name>
    requires { AreRight facts.now }
    ensures { option_copied result ≡ first (undeclared_in (declarations (module_of facts.now)) (flat_map (if_any used_in) (map (option_map plain) values.now))) }
{
    for value in values {
        if let Some(name) = no_name_if_any(facts, value) {
            return Some(name);
        }
    }
    None
}

#[tactic(auto, using(crate::proofs::UseLemmas::uses))]
fn no_name_in_named<'a>(facts: &Facts, links: &'a [Link]) -> Option<&'a Name>
    requires { AreRight facts.now }
    ensures { option_copied result ≡ first (undeclared_in (declarations (module_of facts.now)) (flat_map (λ l. if_any used_in l.value) (map plain_link links.now))) }
{
    for link in links {
        if let Some(name) = no_name_if_any(facts, &link.value) {
            return Some(name);
        }
    }
    None
}

fn no_name_in_links<'a>(facts: &Facts, links: &'a Links) -> Option<&'a Name>
    requires { AreRight facts.now }
    ensures { option_copied result ≡ first (undeclared_in (declarations (module_of facts.now)) (used_in_links (plain_links links.now))) }
{
    match links {
        Links::Ordered(values) => no_name_in_values(facts, values),
        Links::Named(links) => no_name_in_named(facts, links),
    }
}

#[tactic(auto, using(crate::proofs::UseLemmas::uses))]
fn no_name_in_instance<'a>(facts: &Facts, instance: &'a Instance) -> Option<&'a Name>
    requires { AreRight facts.now }
    ensures { option_copied result ≡ first (undeclared_in (declarations (module_of facts.now)) (used_in_instance (plain_instance instance.now))) }
{
    if let Some(name) = no_name_in_links(facts, &instance.params) {
        return Some(name);
    }
    for copy in &instance.copies {
        if let Some(name) = no_name_in_links(facts, &copy.ports) {
            return Some(name);
        }
    }
    None
}

fn no_name_in_item<'a>(facts: &Facts, item: &'a Item) -> Option<&'a Name>
    requires { AreRight facts.now }
    ensures { option_copied result ≡ first (undeclared_in (declarations (module_of facts.now)) (used_in_item (plain_item item.now))) }
{
    match item {
        Item::Port(d) => no_name_in_range(facts, &d.range),
        Item::Net(d) => no_name_in_net(facts, d),
        Item::Params(d) => no_name_in_params(facts, d),
        Item::Assign(assigns) => no_name_in_assigns(facts, assigns),
        Item::Always(always) => no_name_in_always(facts, always),
        Item::Instance(instance) => no_name_in_instance(facts, instance),
    }
}

#[tactic(auto, using(crate::proofs::UseLemmas::uses))]
fn no_name_in_parameters<'a>(facts: &Facts, params: &'a [ParamDecl]) -> Option<&'a Name>
    requires { AreRight facts.now }
    ensures { option_copied result ≡ first (undeclared_in (declarations (module_of facts.now)) (flat_map used_in_params (map plain_param_decl params.now))) }
{
    for d in params {
        if let Some(name) = no_name_in_params(facts, d) {
            return Some(name);
        }
    }
    None
}

#[tactic(auto, using(crate::proofs::UseLemmas::uses))]
fn no_name_in_ports<'a>(facts: &Facts, ports: &'a [PortDecl]) -> Option<&'a Name>
    requires { AreRight facts.now }
    ensures { option_copied result ≡ first (undeclared_in (declarations (module_of facts.now)) (flat_map used_in_port (map plain_port_decl ports.now))) }
{
    for d in ports {
        if let Some(name) = no_name_in_range(facts, &d.range) {
            return Some(name);
        }
    }
    None
}

#[tactic(auto, using(crate::proofs::UseLemmas::uses))]
fn no_name_in_heading<'a>(facts: &Facts<'a>) -> Option<&'a Name>
    requires { AreRight facts.now }
    ensures { option_copied result ≡ first (undeclared_in (declarations (module_of facts.now)) (used_in_heading (module_of facts.now))) }
{
    if let Some(name) = no_name_in_parameters(facts, &facts.module.params) {
        return Some(name);
    }
    match &facts.module.header {
        Header::Plain(_) => None,
        Header::Full(ports) => no_name_in_ports(facts, ports),
    }
}

// The number of the item at this place, which counts from 1. No text has more items than fit.
fn number_of(place: usize) -> u32
    ensures { place ≤ 1048576 → result ≡ place + 1 }
{
    match u32::try_from(place) {
        Ok(number) => number.saturating_add(1),
        Err(_) => u32::MAX,
    }
}

/// All names that are used are declared, in the module's header and in each item.
#[tactic(auto, using(rst_names::proofs::RowLemmas::rows))]
pub fn uses_pass(alloc: Global, facts: &Facts) -> Result<(), ElabError>
    requires right { AreRight facts.now }
    requires few { length (module_of facts.now).items ≤ 1048576 }
    ensures passes { OnOk result (first (no_names (module_of facts.now)) ≡ None) }
    ensures refused { IfErr result (λ e. Refuses e (no_names (module_of facts.now))) }
{
    if let Some(name) = no_name_in_heading(facts) {
        return Err(refusal(alloc, ElabCode::NoName, name.as_slice(), 0));
    }
    for (place, item) in facts.module.items.iter().enumerate() {
        if let Some(name) = no_name_in_item(facts, item) {
            return Err(refusal(alloc, ElabCode::NoName, name.as_slice(), number_of(place)));
        }
    }
    Ok(())
}
