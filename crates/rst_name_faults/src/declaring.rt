// The rows Twice and BadPort.

ghost use Rattle.std.specs.Prelude.{◌≡◌, not, map, filter, nat_eq, None, IfErr, OnOk};
ghost use Rattle.std.specs.List.{flat_map};
ghost use Rattle.std.specs.Option.{option_map};
ghost use Rattle.std.specs.Cmp.Lexicographic.{pointwise};
ghost use Rattle.indexmap.specs.IndexMap.{get};
ghost use Rattle.rst_tree.specs.Trees.{Text};
ghost use Rattle.rst_tree.specs.Modules.{Port, Net, plain_port_decl, plain_net_decl, plain_item};
ghost use Rattle.rst_names.specs.Faults.{Refuses, Tells, first};
ghost use Rattle.rst_names.specs.Names.{same_text, is_among};
ghost use Rattle.rst_names.specs.Declarations.{declarations, declares, is_directed, is_input, ports};
ghost use Rattle.rst_names.specs.Tables.{plain_declaration};
ghost use Rattle.rst_name_faults.specs.NameRows.{goes_with, is_one, twice, bad_port, input_regs, bad_item, bad_ports};
ghost use Rattle.rst_name_faults.specs.Tables.{plain_seen, follows, seen_next, seen_after, module_of, AreRight};

use indexmap::IndexMap;
use rst_names::{Declaration, ElabCode, ElabError, Facts, Form, refusal, same_range};
use rst_outside::{Name, NoMemory};
use rst_tree::{Header, Item, NetDecl, PortDecl};
use std::alloc::Global;

// What was read so far of the declarations of one name: the one, or the second of two.
#[derive(Clone, Copy)]
enum Seen<'a> {
    One(Declaration<'a>),
    Two(Declaration<'a>),
    More,
}

fn goes_with(a: Form, b: Form) -> bool
    ensures { result ≡ goes_with a b }
{
    matches!(
        (a, b),
        (Form::Directed(_, false), Form::Net(_)) | (Form::Net(_), Form::Directed(_, false))
    )
}

fn is_one(a: &Declaration, b: &Declaration) -> bool
    ensures { result ≡ is_one (plain_declaration a.now) (plain_declaration b.now) }
{
    goes_with(a.form, b.form) && same_range(a.range, b.range)
}

// Whether a declaration may stand behind these of its name.
fn may_follow(seen: Option<&Seen>, d: &Declaration) -> bool
    ensures { result ≡ follows (option_map (λ s. plain_seen s.now) seen.entry) (plain_declaration d.now) }
{
    match seen {
        None => true,
        Some(Seen::One(first)) => matches!(first.form, Form::Listed) && d.form.is_signal(),
        Some(Seen::Two(second)) => is_one(second, d),
        Some(Seen::More) => false,
    }
}

// One more declaration of a name.
fn seen_next<'a>(seen: Option<&Seen<'a>>, d: Declaration<'a>) -> Seen<'a>
    ensures { plain_seen result ≡ seen_next (option_map (λ s. plain_seen s.now) seen.entry) (plain_declaration d.entry) }
{
    match seen {
        None => Seen::One(d),
        Some(Seen::One(_)) => Seen::Two(d),
        Some(Seen::Two(_)) | Some(Seen::More) => Seen::More,
    }
}

// The table with this declaration behind the others of its name.
fn put_seen<'a>(
    alloc: Global,
    d: Declaration<'a>,
    seen: &mut IndexMap<Name, Seen<'a>>,
) -> Result<(), NoMemory>
    ensures { OnOk result ((q : Text) → option_map plain_seen (get (pointwise nat_eq) seen.new q) ≡ seen_after (option_map plain_seen (get (pointwise nat_eq) seen.old q)) (same_text d.entry.name.now q) (plain_declaration d.entry)) }
{
    let next = seen_next(seen.get(d.name), d);
    seen.insert(Name::new(alloc, d.name.as_slice())?, next)?;
    Ok(())
}

/// No name is declared twice.
pub fn twice_passes(alloc: Global, facts: &Facts) -> Result<(), ElabError>
    requires { AreRight facts.now }
    ensures passes { OnOk result (first (twice (module_of facts.now)) ≡ None) }
    ensures refused { IfErr result (λ e. Refuses e (twice (module_of facts.now))) }
{
    let mut seen: IndexMap<Name, Seen> = IndexMap::new(alloc);
    for d in &facts.declarations {
        if !may_follow(seen.get(d.name), d) {
            return Err(refusal(alloc, ElabCode::Twice, d.name.as_slice(), 0));
        }
        put_seen(alloc, *d, &mut seen)?;
    }
    Ok(())
}

// Whether the name has a direction, one as an input, and whether it is a port.
fn is_directed(facts: &Facts, name: &Name) -> bool
    requires { AreRight facts.now }
    ensures { result ≡ declares is_directed (declarations (module_of facts.now)) name.now }
{
    let summary = facts.summary(name);
    summary.input || summary.output
}

fn is_input(facts: &Facts, name: &Name) -> bool
    requires { AreRight facts.now }
    ensures { result ≡ declares is_input (declarations (module_of facts.now)) name.now }
{
    facts.summary(name).input
}

fn is_port(facts: &Facts, name: &Name) -> bool
    requires { AreRight facts.now }
    ensures { result ≡ is_among (ports (module_of facts.now)) name.now }
{
    facts.port_places.contains_key(name)
}

fn bad_port(alloc: Global, name: &Name) -> ElabError
    ensures { Tells result (bad_port name.now) }
{
    refusal(alloc, ElabCode::BadPort, name.as_slice(), 0)
}

#[tactic(auto, using(rst_names::proofs::RowLemmas::rows))]
fn listed_pass(alloc: Global, facts: &Facts, names: &[Name]) -> Result<(), ElabError>
    requires { AreRight facts.now }
    ensures passes { OnOk result (first (map bad_port (filter (λ n. not (declares is_directed (declarations (module_of facts.now)) n)) names.now)) ≡ None) }
    ensures refused { IfErr result (λ e. Refuses e (map bad_port (filter (λ n. not (declares is_directed (declarations (module_of facts.now)) n)) names.now))) }
{
    for name in names {
        if !is_directed(facts, name) {
            return Err(bad_port(alloc, name));
        }
    }
    Ok(())
}

#[tactic(auto, using(rst_names::proofs::RowLemmas::rows))]
fn full_passes(alloc: Global, ports: &[PortDecl]) -> Result<(), ElabError>
    ensures passes { OnOk result (first (flat_map input_regs (map plain_port_decl ports.now)) ≡ None) }
    ensures refused { IfErr result (λ e. Refuses e (flat_map input_regs (map plain_port_decl ports.now))) }
{
    for d in ports {
        if d.input && d.reg {
            if let Some(name) = d.names.first() {
                return Err(bad_port(alloc, name));
            }
        }
    }
    Ok(())
}

#[tactic(auto, using(rst_names::proofs::RowLemmas::rows))]
fn port_item_passes(alloc: Global, facts: &Facts, d: &PortDecl) -> Result<(), ElabError>
    requires { AreRight facts.now }
    ensures passes { OnOk result (first (bad_item (module_of facts.now) (Port (plain_port_decl d.now))) ≡ None) }
    ensures refused { IfErr result (λ e. Refuses e (bad_item (module_of facts.now) (Port (plain_port_decl d.now)))) }
{
    let plain = matches!(facts.module.header, Header::Plain(_));
    for name in &d.names {
        if !plain || !is_port(facts, name) || (d.input && d.reg) {
            return Err(bad_port(alloc, name));
        }
    }
    Ok(())
}

#[tactic(auto, using(rst_names::proofs::RowLemmas::rows))]
fn reg_item_passes(alloc: Global, facts: &Facts, d: &NetDecl) -> Result<(), ElabError>
    requires { AreRight facts.now }
    ensures passes { OnOk result (first (bad_item (module_of facts.now) (Net (plain_net_decl d.now))) ≡ None) }
    ensures refused { IfErr result (λ e. Refuses e (bad_item (module_of facts.now) (Net (plain_net_decl d.now)))) }
{
    if d.reg {
        for net in &d.names {
            if is_input(facts, &net.name) {
                return Err(bad_port(alloc, &net.name));
            }
        }
    }
    Ok(())
}

fn port_of_item_passes(alloc: Global, facts: &Facts, item: &Item) -> Result<(), ElabError>
    requires { AreRight facts.now }
    ensures passes { OnOk result (first (bad_item (module_of facts.now) (plain_item item.now)) ≡ None) }
    ensures refused { IfErr result (λ e. Refuses e (bad_item (module_of facts.now) (plain_item item.now))) }
{
    match item {
        Item::Port(d) => port_item_passes(alloc, facts, d),
        Item::Net(d) => reg_item_passes(alloc, facts, d),
        _ => Ok(()),
    }
}

/// Header and declarations of ports agree.
#[tactic(auto, using(rst_names::proofs::RowLemmas::rows))]
pub fn ports_pass(alloc: Global, facts: &Facts) -> Result<(), ElabError>
    requires { AreRight facts.now }
    ensures passes { OnOk result (first (bad_ports (module_of facts.now)) ≡ None) }
    ensures refused { IfErr result (λ e. Refuses e (bad_ports (module_of facts.now))) }
{
    match &facts.module.header {
        Header::Plain(names) => listed_pass(alloc, facts, names)?,
        Header::Full(ports) => full_passes(alloc, ports)?,
    }
    for item in &facts.module.items {
        port_of_item_passes(alloc, facts, item)?;
    }
    Ok(())
}
