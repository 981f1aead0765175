// The rows over modules and their hierarchy.

ghost use Rattle.std.specs.Prelude.{◌≡◌, ◌≤◌, Bool, List, ◌++◌, map, length, slice_get, None, Some, IfOk, IfErr, OnOk};
ghost use Rattle.std.specs.List.{All, flat_map};
ghost use Rattle.rst_tree.specs.Modules.{PlainModule, Instances, plain_instance, plain_item, plain_module};
ghost use Rattle.rst_tree.specs.WellFormed.{WellFormed};
ghost use Rattle.rst_names.specs.Faults.{Refuses, first};
ghost use Rattle.rst_hierarchy.specs.Hierarchy.{two_modules, text_faults, unknown_in, no_modules, recursive, depth_limit, instance_limit, reaches, is_used, module_faults, hierarchy_faults, name_faults};
ghost use Rattle.rst_hierarchy.specs.Tables.{plain_modules, placed, rows_of, faults_where, module_of, plain_row, IsTable, AreRight, AreFacts, AreLinked};

use crate::connects::{Linked, all_linked, connects_pass, params_pass};
use crate::modules::{Modules, all_placed};
use crate::reach::{instance_count, is_marked, is_marked_in, is_place, is_too_deep, reaches};
use rst_name_faults::{ports_pass, twice_passes, uses_pass};
use rst_names::{ElabCode, ElabError, Facts, facts_of, refusal};
use rst_outside::NoMemory;
use rst_tree::{Instance, Item, Module};
use std::alloc::{AllocError, Global};

fn names_differ(alloc: Global, modules: &Modules) -> Result<(), ElabError>
    requires { IsTable modules.now }
    ensures passes { OnOk result (first (two_modules (plain_modules modules.now)) ≡ None) }
    ensures refused { IfErr result (λ e. Refuses e (two_modules (plain_modules modules.now))) }
{
    for (place, module) in modules.list.iter().enumerate() {
        if !is_place(modules.place(&module.name), place) {
            return Err(refusal(alloc, ElabCode::TwoModules, module.name.as_slice(), 0));
        }
    }
    Ok(())
}

/// No two modules have one name, and there are at most 256.
#[tactic(auto, using(rst_names::proofs::RowLemmas::rows))]
pub fn text_passes(alloc: Global, modules: &Modules) -> Result<(), ElabError>
    requires { IsTable modules.now }
    ensures passes { OnOk result (first (text_faults (plain_modules modules.now)) ≡ None) }
    ensures refused { IfErr result (λ e. Refuses e (text_faults (plain_modules modules.now))) }
{
    names_differ(alloc, modules)?;
    if modules.list.len() > 256 {
        return Err(refusal(alloc, ElabCode::Limit, b"Modules", 0));
    }
    Ok(())
}

fn instance_passes(alloc: Global, modules: &Modules, instance: &Instance) -> Result<(), ElabError>
    requires { IsTable modules.now }
    ensures passes { OnOk result (first (unknown_in (plain_modules modules.now) (Instances (plain_instance instance.now))) ≡ None) }
    ensures refused { IfErr result (λ e. Refuses e (unknown_in (plain_modules modules.now) (Instances (plain_instance instance.now)))) }
{
    if instance.copies.first().is_none() {
        return Ok(());
    }
    match modules.place(&instance.module) {
        Some(_) => Ok(()),
        None => Err(refusal(alloc, ElabCode::NoModule, instance.module.as_slice(), 0)),
    }
}

fn placed_passes(alloc: Global, modules: &Modules, item: &Item) -> Result<(), ElabError>
    requires { IsTable modules.now }
    ensures passes { OnOk result (first (unknown_in (plain_modules modules.now) (plain_item item.now)) ≡ None) }
    ensures refused { IfErr result (λ e. Refuses e (unknown_in (plain_modules modules.now) (plain_item item.now))) }
{
    if let Item::Instance(instance) = item {
        return instance_passes(alloc, modules, instance);
    }
    Ok(())
}

#[tactic(auto, using(rst_names::proofs::RowLemmas::rows))]
fn placed_modules_pass(alloc: Global, modules: &Modules, items: &[Item]) -> Result<(), ElabError>
    requires { IsTable modules.now }
    ensures passes { OnOk result (first (flat_map (unknown_in (plain_modules modules.now)) (map plain_item items.now)) ≡ None) }
    ensures refused { IfErr result (λ e. Refuses e (flat_map (unknown_in (plain_modules modules.now)) (map plain_item items.now))) }
{
    for item in items {
        placed_passes(alloc, modules, item)?;
    }
    Ok(())
}

fn known_pass(alloc: Global, modules: &Modules, used: &[bool]) -> Result<(), ElabError>
    requires { IsTable modules.now }
    ensures passes { OnOk result ((test : PlainModule → Bool) → used.now ≡ map test (plain_modules modules.now) → first (faults_where test (no_modules (plain_modules modules.now)) (plain_modules modules.now)) ≡ None) }
    ensures refused { IfErr result (λ e. (test : PlainModule → Bool) → used.now ≡ map test (plain_modules modules.now) → Refuses e (faults_where test (no_modules (plain_modules modules.now)) (plain_modules modules.now))) }
{
    for (place, module) in modules.list.iter().enumerate() {
        if is_marked(used, place) {
            placed_modules_pass(alloc, modules, &module.items)?;
        }
    }
    Ok(())
}

// No used module reaches itself.
fn none_recursive(
    alloc: Global,
    modules: &Modules,
    used: &[bool],
    rows: &[Vec<bool>],
) -> Result<(), ElabError>
    requires { map (λ r. r.items) rows.now ≡ rows_of (reaches (plain_modules modules.now)) (plain_modules modules.now) }
    ensures passes { OnOk result ((test : PlainModule → Bool) → used.now ≡ map test (plain_modules modules.now) → first (faults_where test (recursive (plain_modules modules.now)) (plain_modules modules.now)) ≡ None) }
    ensures refused { IfErr result (λ e. (test : PlainModule → Bool) → used.now ≡ map test (plain_modules modules.now) → Refuses e (faults_where test (recursive (plain_modules modules.now)) (plain_modules modules.now))) }
{
    for (place, module) in modules.list.iter().enumerate() {
        if is_marked(used, place) && is_marked_in(rows, place, place) {
            return Err(refusal(alloc, ElabCode::Recursive, module.name.as_slice(), 0));
        }
    }
    Ok(())
}

// The modules that the top reaches, and those of its name.
fn used_marks(
    alloc: Global,
    modules: &Modules,
    rows: &[Vec<bool>],
    place_of_top: usize,
    top: &Module,
) -> Result<Vec<bool>, AllocError>
    requires rows { map (λ r. r.items) rows.now ≡ rows_of (reaches (plain_modules modules.now)) (plain_modules modules.now) }
    requires top { slice_get (plain_modules modules.now) place_of_top ≡ Some (plain_module top.now) }
    ensures { IfOk result (λ used. used.items ≡ map (is_used (plain_modules modules.now) (plain_module top.now)) (plain_modules modules.now)) }
{
    let mut used = Vec::new(alloc);
    for (place, module) in modules.list.iter().enumerate() {
        used.push(module.name == top.name || is_marked_in(rows, place_of_top, place))?;
    }
    Ok(used)
}

#[tactic(auto, using(rst_names::proofs::RowLemmas::rows))]
fn limits_pass(alloc: Global, below: &[Vec<usize>], top: usize) -> Result<(), ElabError>
    ensures passes { OnOk result ((modules : List PlainModule) → map (λ v. v.items) below.now ≡ map (placed modules) modules → (m : PlainModule) → slice_get modules top ≡ Some m → first (depth_limit modules m ++ instance_limit modules m) ≡ None) }
    ensures refused { IfErr result (λ e. (modules : List PlainModule) → map (λ v. v.items) below.now ≡ map (placed modules) modules → (m : PlainModule) → slice_get modules top ≡ Some m → Refuses e (depth_limit modules m ++ instance_limit modules m)) }
{
    if is_too_deep(alloc, below, top)? {
        return Err(refusal(alloc, ElabCode::Limit, b"Depth", 0));
    }
    if instance_count(alloc, below, top)? > 1024 {
        return Err(refusal(alloc, ElabCode::Limit, b"Instances", 0));
    }
    Ok(())
}

// The used modules, marked, where the module at this place is the top.
#[tactic(auto, using(rst_names::proofs::RowLemmas::rows))]
fn used_below(
    alloc: Global,
    modules: &Modules,
    place_of_top: usize,
    top: &Module,
) -> Result<Vec<bool>, ElabError>
    requires table { IsTable modules.now }
    requires top { slice_get (plain_modules modules.now) place_of_top ≡ Some (plain_module top.now) }
    ensures used { IfOk result (λ marks. marks.items ≡ map (is_used (plain_modules modules.now) (plain_module top.now)) (plain_modules modules.now)) }
    ensures passes { OnOk result (first (hierarchy_faults (plain_modules modules.now) (plain_module top.now)) ≡ None) }
    ensures refused { IfErr result (λ e. Refuses e (hierarchy_faults (plain_modules modules.now) (plain_module top.now))) }
{
    let below = all_placed(alloc, modules)?;
    let rows = reaches(alloc, modules, &below)?;
    let used = used_marks(alloc, modules, &rows, place_of_top, top)?;
    known_pass(alloc, modules, &used)?;
    none_recursive(alloc, modules, &used, &rows)?;
    limits_pass(alloc, &below, place_of_top)?;
    Ok(used)
}

/// The used modules, marked, where the module at this place is the top and the hierarchy passes its rows: NoModule, Recursive,
/// and the limits of depth and instances. There are none where no module stands at the place.
pub fn used_modules(alloc: Global, modules: &Modules, top: usize) -> Result<Vec<bool>, ElabError>
    requires { IsTable modules.now }
    ensures used { IfOk result (λ marks. (m : PlainModule) → slice_get (plain_modules modules.now) top ≡ Some m → marks.items ≡ map (is_used (plain_modules modules.now) m) (plain_modules modules.now)) }
    ensures passes { OnOk result ((m : PlainModule) → slice_get (plain_modules modules.now) top ≡ Some m → first (hierarchy_faults (plain_modules modules.now) m) ≡ None) }
    ensures refused { IfErr result (λ e. (m : PlainModule) → slice_get (plain_modules modules.now) top ≡ Some m → Refuses e (hierarchy_faults (plain_modules modules.now) m)) }
{
    match modules.list.get(top) {
        Some(module) => used_below(alloc, modules, top, module),
        None => Ok(Vec::new(alloc)),
    }
}

// The rows over the names of a module.
#[derive(Clone, Copy)]
enum NameRow {
    Twice,
    BadPort,
    NoName,
    BadConnect,
    NoParameter,
}

#[tactic(auto, using(rst_names::proofs::RowLemmas::rows))]
fn module_passes(
    alloc: Global,
    row: NameRow,
    modules: &Modules,
    linked: &[Linked],
    facts: &Facts,
) -> Result<(), ElabError>
    requires table { IsTable modules.now }
    requires linked { AreLinked (plain_modules modules.now) linked.now }
    requires right { AreRight facts.now }
    requires few { length (module_of facts.now).items ≤ 1048576 }
    ensures passes { OnOk result (first (module_faults (plain_modules modules.now) (plain_row row) (module_of facts.now)) ≡ None) }
    ensures refused { IfErr result (λ e. Refuses e (module_faults (plain_modules modules.now) (plain_row row) (module_of facts.now))) }
{
    match row {
        NameRow::Twice => twice_passes(alloc, facts),
        NameRow::BadPort => ports_pass(alloc, facts),
        NameRow::NoName => uses_pass(alloc, facts),
        NameRow::BadConnect => connects_pass(alloc, modules, linked, &facts.module.items),
        NameRow::NoParameter => params_pass(alloc, modules, linked, &facts.module.items),
    }
}

fn row_passes(
    alloc: Global,
    row: NameRow,
    modules: &Modules,
    all: &[Facts],
    linked: &[Linked],
    used: &[bool],
) -> Result<(), ElabError>
    requires table { IsTable modules.now }
    requires facts { AreFacts (plain_modules modules.now) all.now }
    requires linked { AreLinked (plain_modules modules.now) linked.now }
    requires formed { All WellFormed (plain_modules modules.now) }
    ensures passes { OnOk result ((test : PlainModule → Bool) → used.now ≡ map test (plain_modules modules.now) → first (faults_where test (module_faults (plain_modules modules.now) (plain_row row)) (plain_modules modules.now)) ≡ None) }
    ensures refused { IfErr result (λ e. (test : PlainModule → Bool) → used.now ≡ map test (plain_modules modules.now) → Refuses e (faults_where test (module_faults (plain_modules modules.now) (plain_row row)) (plain_modules modules.now))) }
{
    for (place, facts) in all.iter().enumerate() {
        if is_marked(used, place) {
            module_passes(alloc, row, modules, linked, facts)?;
        }
    }
    Ok(())
}

fn all_facts<'a>(alloc: Global, modules: &Modules<'a>) -> Result<Vec<Facts<'a>>, NoMemory>
    ensures { IfOk result (λ all. AreFacts (plain_modules modules.now) all.items) }
{
    let mut all = Vec::new(alloc);
    for module in &modules.list {
        let facts = facts_of(alloc, module)?;
        all.push(facts)?;
    }
    Ok(all)
}

#[tactic(auto, using(rst_names::proofs::RowLemmas::rows))]
fn rows_pass(
    alloc: Global,
    modules: &Modules,
    all: &[Facts],
    linked: &[Linked],
    used: &[bool],
) -> Result<(), ElabError>
    requires table { IsTable modules.now }
    requires facts { AreFacts (plain_modules modules.now) all.now }
    requires linked { AreLinked (plain_modules modules.now) linked.now }
    requires formed { All WellFormed (plain_modules modules.now) }
    ensures passes { OnOk result ((top : PlainModule) → used.now ≡ map (is_used (plain_modules modules.now) top) (plain_modules modules.now) → first (name_faults (plain_modules modules.now) top) ≡ None) }
    ensures refused { IfErr result (λ e. (top : PlainModule) → used.now ≡ map (is_used (plain_modules modules.now) top) (plain_modules modules.now) → Refuses e (name_faults (plain_modules modules.now) top)) }
{
    row_passes(alloc, NameRow::Twice, modules, all, linked, used)?;
    row_passes(alloc, NameRow::BadPort, modules, all, linked, used)?;
    row_passes(alloc, NameRow::NoName, modules, all, linked, used)?;
    row_passes(alloc, NameRow::BadConnect, modules, all, linked, used)?;
    row_passes(alloc, NameRow::NoParameter, modules, all, linked, used)
}

/// The tables of all modules, where the used ones pass the rows over their names: Twice, BadPort, NoName, BadConnect and
/// NoParameter, each over the whole design.
#[tactic(auto, using(rst_names::proofs::RowLemmas::rows))]
pub fn names_pass<'a>(
    alloc: Global,
    modules: &Modules<'a>,
    used: &[bool],
) -> Result<Vec<Facts<'a>>, ElabError>
    requires table { IsTable modules.now }
    requires formed { All WellFormed (plain_modules modules.now) }
    ensures facts { IfOk result (λ all. AreFacts (plain_modules modules.now) all.items) }
    ensures passes { OnOk result ((top : PlainModule) → used.now ≡ map (is_used (plain_modules modules.now) top) (plain_modules modules.now) → first (name_faults (plain_modules modules.now) top) ≡ None) }
    ensures refused { IfErr result (λ e. (top : PlainModule) → used.now ≡ map (is_used (plain_modules modules.now) top) (plain_modules modules.now) → Refuses e (name_faults (plain_modules modules.now) top)) }
{
    let all = all_facts(alloc, modules)?;
    let linked = all_linked(alloc, &all)?;
    rows_pass(alloc, modules, &all, &linked, used)?;
    Ok(all)
}
