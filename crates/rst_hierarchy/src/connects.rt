// The rows BadConnect and NoParameter.

ghost use Rattle.std.specs.Prelude.{◌≡◌, ◌||◌, List, Option, not, map, take, nat_eq, is_some, is_none, [], None, IfOk, IfErr, OnOk};
ghost use Rattle.std.specs.List.{flat_map, list_any};
ghost use Rattle.std.specs.Option.{option_map};
ghost use Rattle.std.specs.Cmp.Lexicographic.{pointwise};
ghost use Rattle.indexmap.specs.IndexSet.{contains};
ghost use Rattle.rst_tree.specs.Trees.{Text, plain};
ghost use Rattle.rst_tree.specs.Modules.{PlainModule, plain_link, plain_links, plain_copied, plain_item};
ghost use Rattle.rst_names.specs.Faults.{Refuses, first};
ghost use Rattle.rst_names.specs.Names.{same_text, is_among, repeats};
ghost use Rattle.rst_name_faults.specs.NameRows.{is_bad, has_empty, bad_copy, bad_setting};
ghost use Rattle.rst_hierarchy.specs.Hierarchy.{module_named, bad_connects_in, no_parameters_in};
ghost use Rattle.rst_hierarchy.specs.Tables.{plain_modules, IsTable, AreFacts, AreRight, module_of, AreNames, IsLinked, AreLinked, LinksOf};

use crate::modules::Modules;
use indexmap::IndexSet;
use rst_names::{ElabCode, ElabError, Facts, refusal};
use rst_outside::{Name, NoMemory};
use rst_tree::{Copied, Expr, Instance, Item, Link, Links};
use std::alloc::Global;

// Names that links may have: how many, and which.
#[derive(Drop)]
struct Names {
    count: usize,
    set: IndexSet<Name>,
}

// Puts a name into a set, and answers whether it is new there.
fn put_name(alloc: Global, name: &Name, set: &mut IndexSet<Name>) -> Result<bool, NoMemory>
    ensures new { IfOk result (λ new. new ≡ not (contains (pointwise nat_eq) set.old name.now)) }
    ensures names { OnOk result ((q : Text) → contains (pointwise nat_eq) set.new q ≡ (contains (pointwise nat_eq) set.old q || same_text name.now q)) }
{
    let (_place, new) = set.insert_full(Name::new(alloc, name.as_slice())?)?;
    Ok(new)
}

fn names_of(alloc: Global, names: &[&Name]) -> Result<Names, NoMemory>
    ensures { IfOk result (AreNames (map (λ n. n.now) names.now)) }
{
    let mut set: IndexSet<Name> = IndexSet::new(alloc);
    for name in names {
        put_name(alloc, name, &mut set)?;
    }
    Ok(Names {
        count: names.len(),
        set,
    })
}

// The ports, and the parameters that can be set, of a module.
#[derive(Drop)]
pub struct Linked {
    ports: Names,
    params: Names,
}

fn linked_of(alloc: Global, facts: &Facts) -> Result<Linked, NoMemory>
    ensures { AreRight facts.now → IfOk result (IsLinked (module_of facts.now)) }
{
    let ports = names_of(alloc, &facts.ports)?;
    let params = names_of(alloc, &facts.settable)?;
    Ok(Linked { ports, params })
}

// Those of each module.
pub fn all_linked(alloc: Global, all: &[Facts]) -> Result<Vec<Linked>, NoMemory>
    ensures { IfOk result (λ made. (modules : List PlainModule) → AreFacts modules all.now → AreLinked modules made.items) }
{
    let mut made = Vec::new(alloc);
    for facts in all {
        let linked = linked_of(alloc, facts)?;
        made.push(linked)?;
    }
    Ok(made)
}

// Whether a link names none of these.
fn names_other(names: &Names, links: &[Link]) -> bool
    ensures { (list : List Text) → AreNames list names.now → result ≡ list_any (λ l. not (is_among list l.name)) (map plain_link links.now) }
{
    for link in links {
        if !names.set.contains(&link.name) {
            return true;
        }
    }
    false
}

// Whether a name stands twice.
fn names_twice(alloc: Global, links: &[Link]) -> Result<bool, NoMemory>
    ensures { IfOk result (λ twice. twice ≡ is_some (first (repeats [] (map (λ l. l.name) (map plain_link links.now))))) }
{
    let mut seen: IndexSet<Name> = IndexSet::new(alloc);
    for link in links {
        let new = put_name(alloc, &link.name, &mut seen)?;
        if !new {
            return Ok(true);
        }
    }
    Ok(false)
}

fn is_bad(alloc: Global, names: &Names, links: &Links) -> Result<bool, NoMemory>
    ensures { (list : List Text) → AreNames list names.now → IfOk result (λ bad. bad ≡ is_bad list (plain_links links.now)) }
{
    match links {
        Links::Ordered(values) => Ok(values.len() > names.count),
        Links::Named(links) => {
            if names_other(names, links) {
                return Ok(true);
            }
            names_twice(alloc, links)
        }
    }
}

fn has_empty_value(values: &[Option<Expr>]) -> bool
    ensures { result ≡ list_any is_none (map (option_map plain) values.now) }
{
    for value in values {
        if value.is_none() {
            return true;
        }
    }
    false
}

fn has_empty_link(links: &[Link]) -> bool
    ensures { result ≡ list_any (λ l. is_none l.value) (map plain_link links.now) }
{
    for link in links {
        if link.value.is_none() {
            return true;
        }
    }
    false
}

fn has_empty(links: &Links) -> bool
    ensures { result ≡ has_empty (plain_links links.now) }
{
    match links {
        Links::Ordered(values) => has_empty_value(values),
        Links::Named(links) => has_empty_link(links),
    }
}

#[tactic(auto, using(rst_names::proofs::RowLemmas::rows))]
fn copy_passes(alloc: Global, names: &Names, copy: &Copied) -> Result<(), ElabError>
    ensures passes { OnOk result ((list : List Text) → AreNames list names.now → first (bad_copy list (plain_copied copy.now)) ≡ None) }
    ensures refused { IfErr result (λ e. (list : List Text) → AreNames list names.now → Refuses e (bad_copy list (plain_copied copy.now))) }
{
    if is_bad(alloc, names, &copy.ports)? {
        return Err(refusal(alloc, ElabCode::BadConnect, copy.name.as_slice(), 0));
    }
    Ok(())
}

#[tactic(auto, using(rst_names::proofs::RowLemmas::rows))]
fn copies_pass(alloc: Global, names: &Names, copies: &[Copied]) -> Result<(), ElabError>
    ensures passes { OnOk result ((list : List Text) → AreNames list names.now → first (flat_map (bad_copy list) (map plain_copied copies.now)) ≡ None) }
    ensures refused { IfErr result (λ e. (list : List Text) → AreNames list names.now → Refuses e (flat_map (bad_copy list) (map plain_copied copies.now))) }
{
    for copy in copies {
        copy_passes(alloc, names, copy)?;
    }
    Ok(())
}

#[tactic(auto, using(rst_names::proofs::RowLemmas::rows))]
fn params_of_pass(alloc: Global, names: &Names, instance: &Instance) -> Result<(), ElabError>
    ensures passes { OnOk result ((list : List Text) → AreNames list names.now → first (flat_map (bad_setting list (plain_links instance.now.params)) (take 1 (map plain_copied instance.now.copies.items))) ≡ None) }
    ensures refused { IfErr result (λ e. (list : List Text) → AreNames list names.now → Refuses e (flat_map (bad_setting list (plain_links instance.now.params)) (take 1 (map plain_copied instance.now.copies.items)))) }
{
    if let Some(copy) = instance.copies.first() {
        if is_bad(alloc, names, &instance.params)? || has_empty(&instance.params) {
            return Err(refusal(alloc, ElabCode::NoParameter, copy.name.as_slice(), 0));
        }
    }
    Ok(())
}

// What the module of this name may be linked by, where there is one.
fn linked_at<'a>(modules: &Modules, all: &'a [Linked], name: &Name) -> Option<&'a Linked>
    requires table { IsTable modules.now }
    requires linked { AreLinked (plain_modules modules.now) all.now }
    ensures { LinksOf (module_named (plain_modules modules.now) name.now) (option_map (λ l. l.now) result) }
{
    match modules.place(name) {
        Some(place) => all.get(place),
        None => None,
    }
}

#[tactic(auto, using(rst_names::proofs::RowLemmas::rows))]
fn connects_of_item(
    alloc: Global,
    modules: &Modules,
    all: &[Linked],
    item: &Item,
) -> Result<(), ElabError>
    requires table { IsTable modules.now }
    requires linked { AreLinked (plain_modules modules.now) all.now }
    ensures passes { OnOk result (first (bad_connects_in (plain_modules modules.now) (plain_item item.now)) ≡ None) }
    ensures refused { IfErr result (λ e. Refuses e (bad_connects_in (plain_modules modules.now) (plain_item item.now))) }
{
    if let Item::Instance(instance) = item {
        if let Some(linked) = linked_at(modules, all, &instance.module) {
            return copies_pass(alloc, &linked.ports, &instance.copies);
        }
    }
    Ok(())
}

// The port links of a module's instances fit.
#[tactic(auto, using(rst_names::proofs::RowLemmas::rows))]
pub fn connects_pass(
    alloc: Global,
    modules: &Modules,
    all: &[Linked],
    items: &[Item],
) -> Result<(), ElabError>
    requires table { IsTable modules.now }
    requires linked { AreLinked (plain_modules modules.now) all.now }
    ensures passes { OnOk result (first (flat_map (bad_connects_in (plain_modules modules.now)) (map plain_item items.now)) ≡ None) }
    ensures refused { IfErr result (λ e. Refuses e (flat_map (bad_connects_in (plain_modules modules.now)) (map plain_item items.now))) }
{
    for item in items {
        connects_of_item(alloc, modules, all, item)?;
    }
    Ok(())
}

#[tactic(auto, using(rst_names::proofs::RowLemmas::rows))]
fn params_of_item(
    alloc: Global,
    modules: &Modules,
    all: &[Linked],
    item: &Item,
) -> Result<(), ElabError>
    requires table { IsTable modules.now }
    requires linked { AreLinked (plain_modules modules.now) all.now }
    ensures passes { OnOk result (first (no_parameters_in (plain_modules modules.now) (plain_item item.now)) ≡ None) }
    ensures refused { IfErr result (λ e. Refuses e (no_parameters_in (plain_modules modules.now) (plain_item item.now))) }
{
    if let Item::Instance(instance) = item {
        if let Some(linked) = linked_at(modules, all, &instance.module) {
            return params_of_pass(alloc, &linked.params, instance);
        }
    }
    Ok(())
}

// The parameter links of a module's instances fit.
#[tactic(auto, using(rst_names::proofs::RowLemmas::rows))]
pub fn params_pass(
    alloc: Global,
    modules: &Modules,
    all: &[Linked],
    items: &[Item],
) -> Result<(), ElabError>
    requires table { IsTable modules.now }
    requires linked { AreLinked (plain_modules modules.now) all.now }
    ensures passes { OnOk result (first (flat_map (no_parameters_in (plain_modules modules.now)) (map plain_item items.now)) ≡ None) }
    ensures refused { IfErr result (λ e. Refuses e (flat_map (no_parameters_in (plain_modules modules.now)) (map plain_item items.now))) }
{
    for item in items {
        params_of_item(alloc, modules, all, item)?;
    }
    Ok(())
}
