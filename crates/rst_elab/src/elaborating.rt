// From the modules of a design to the flat design, or the first refusal.

ghost use Rattle.std.specs.Prelude.{◌≡◌, ◌∷◌, ◌++◌, List, None, Some, map, slice_get, IfOk, IfErr, IfSome, OnOk};
ghost use Rattle.std.specs.List.{All};
ghost use Rattle.std.specs.Option.{option_copied};
ghost use Rattle.rst_tree.specs.Modules.{PlainModule};
ghost use Rattle.rst_tree.specs.WellFormed.{WellFormed};
ghost use Rattle.rst_net.specs.Units.{plain_flat};
ghost use Rattle.rst_names.specs.Faults.{Refuses, first};
ghost use Rattle.rst_names.specs.Declarations.{signals};
ghost use Rattle.rst_names.specs.Tables.{plain_declared};
ghost use Rattle.rst_hierarchy.specs.Tables.{modules_in, plain_modules, IsTable};
ghost use Rattle.rst_instances.specs.Places.{Place, located, top_place, instances};
ghost use Rattle.rst_items.specs.ItemRows.{rows_over, target_row, width_row, edge_row};
ghost use Rattle.rst_items.specs.Tables.{facts_at, seen_site, IsWhole, located_in};
ghost use Rattle.rst_drivers.specs.FlatRows.{flat_faults};
ghost use Rattle.rst_elab.specs.Elaborated.{clock_faults, flat_from, located_faults, place_faults, flat_below, faults_below, faults, IsFlat};
ghost use Rattle.rst_elab.specs.Flats.{flat_of};
ghost use Rattle.rst_elab.specs.Tables.{AreAll, ArePrefixes, AreUnits, IsAll, IsReady};

use crate::clocks::{clock_passes, clocks_pass};
use crate::flat::{outputs_of, signal_count, signals_of};
use crate::resets::resets_pass;
use indexmap::IndexMap;
use rst_drivers::{drives_of, flat_passes};
use rst_hierarchy::{Modules, modules_of, names_pass, text_passes, used_modules};
use rst_instances::{Design, Located, design_of, instances, located_of, ranges_pass};
use rst_item_faults::{edges_pass, targets_pass, widths_pass};
use rst_items::{Site, Whole, by_prefix};
use rst_names::{ElabCode, ElabError, refusal};
use rst_net::Flat;
use rst_outside::Name;
use rst_tree::Source;
use rst_units::{Units, units_of};
use std::alloc::Global;

// The first instance beside the tables of its module.
fn first_site<'w, 'a>(whole: &Whole<'w, 'a>) -> Option<Site<'w, 'a>>
    ensures first { IfSome result (λ s. slice_get whole.now.all.now 0 ≡ Some s.located.now) }
    ensures tables { IfSome result (λ s. facts_at whole.now s.located.now ≡ Some s.facts.now) }
{
    match whole.all.first() {
        Some(located) => whole.site(located),
        None => None,
    }
}

// The rows BadTarget, PortWidth and Edges.
#[tactic(auto, using(rst_names::proofs::RowLemmas::rows))]
fn items_pass(alloc: Global, whole: &Whole) -> Result<(), ElabError>
    ensures passes { (modules : List PlainModule) → IsWhole modules whole.now → OnOk result (first (rows_over target_row (located_in modules whole.now) ++ (rows_over width_row (located_in modules whole.now) ++ rows_over edge_row (located_in modules whole.now))) ≡ None) }
    ensures refused { (modules : List PlainModule) → IsWhole modules whole.now → IfErr result (λ e. Refuses e (rows_over target_row (located_in modules whole.now) ++ (rows_over width_row (located_in modules whole.now) ++ rows_over edge_row (located_in modules whole.now)))) }
{
    targets_pass(alloc, whole)?;
    widths_pass(alloc, whole)?;
    edges_pass(alloc, whole)
}

// The rows over clocks and resets.
#[tactic(auto, using(rst_names::proofs::RowLemmas::rows))]
fn all_clocks_pass(
    alloc: Global,
    whole: &Whole,
    top: Site,
    clock: Option<&[u8]>,
) -> Result<(), ElabError>
    ensures passes { (modules : List PlainModule) → IsWhole modules whole.now → OnOk result (first (clock_faults (seen_site top.entry) (option_copied clock.entry) (located_in modules whole.now)) ≡ None) }
    ensures refused { (modules : List PlainModule) → IsWhole modules whole.now → IfErr result (λ e. Refuses e (clock_faults (seen_site top.entry) (option_copied clock.entry) (located_in modules whole.now))) }
{
    clock_passes(alloc, top, clock)?;
    clocks_pass(alloc, whole)?;
    resets_pass(alloc, whole)
}

// The flat design of these units and clocked blocks, which passes the rows over what drives its signals.
#[tactic(auto, using(rst_names::proofs::RowLemmas::rows))]
fn driven(alloc: Global, whole: &Whole, top: Site, units: Units) -> Result<Flat, ElabError>
    ensures flat { (modules : List PlainModule) (ps : List Place) → IsAll modules ps whole.now → AreUnits (located ps) units → IfOk result (λ f. plain_flat f ≡ flat_of (map plain_declared top.entry.facts.now.signals.items) (located ps)) }
    ensures passes { (modules : List PlainModule) (ps : List Place) → IsAll modules ps whole.now → AreUnits (located ps) units → OnOk result (first (flat_faults (flat_of (map plain_declared top.entry.facts.now.signals.items) (located ps))) ≡ None) }
    ensures refused { (modules : List PlainModule) (ps : List Place) → IsAll modules ps whole.now → AreUnits (located ps) units → IfErr result (λ e. Refuses e (flat_faults (flat_of (map plain_declared top.entry.facts.now.signals.items) (located ps)))) }
{
    let count = signal_count(whole.all)?;
    let drives = drives_of(alloc, count, &units.units, &units.clocked)?;
    let signals = signals_of(alloc, whole, &drives)?;
    let outputs = outputs_of(alloc, &top.facts.signals)?;
    let Units { units, clocked } = units;
    let flat = Flat {
        signals,
        units,
        clocked,
        outputs,
    };
    flat_passes(alloc, &flat, &drives)?;
    Ok(flat)
}

// The flat design of a whole one. (Each has a first instance.)
#[tactic(auto, using(rst_names::proofs::RowLemmas::rows))]
fn flattened(alloc: Global, whole: &Whole, clock: Option<&[u8]>) -> Result<Flat, ElabError>
    ensures flat { (modules : List PlainModule) (p : Place) (ps : List Place) → IsAll modules (p ∷ ps) whole.now → IfOk result (λ f. plain_flat f ≡ flat_from p (p ∷ ps)) }
    ensures passes { (modules : List PlainModule) (p : Place) (ps : List Place) → IsAll modules (p ∷ ps) whole.now → OnOk result (first (located_faults (option_copied clock.entry) p (p ∷ ps)) ≡ None) }
    ensures refused { (modules : List PlainModule) (p : Place) (ps : List Place) → IsAll modules (p ∷ ps) whole.now → IfErr result (λ e. Refuses e (located_faults (option_copied clock.entry) p (p ∷ ps))) }
{
    let Some(top) = first_site(whole) else {
        return Err(ElabError::NoMemory);
    };
    let units = units_of(alloc, whole)?;
    items_pass(alloc, whole)?;
    all_clocks_pass(alloc, whole, top, clock)?;
    driven(alloc, whole, top, units)
}

// The flat design of these instances, by number and by what their names begin with.
fn flat_with<'w, 'a>(
    alloc: Global,
    design: &'w Design<'a, 'w>,
    all: &'w [Located<'a>],
    prefixes: &'w IndexMap<Name, usize>,
    clock: Option<&[u8]>,
) -> Result<Flat, ElabError>
    ensures flat { (modules : List PlainModule) (p : Place) (ps : List Place) → AreAll modules (p ∷ ps) design.now all.now → ArePrefixes prefixes.now all.now → IfOk result (λ f. plain_flat f ≡ flat_from p (p ∷ ps)) }
    ensures passes { (modules : List PlainModule) (p : Place) (ps : List Place) → AreAll modules (p ∷ ps) design.now all.now → ArePrefixes prefixes.now all.now → OnOk result (first (located_faults (option_copied clock.entry) p (p ∷ ps)) ≡ None) }
    ensures refused { (modules : List PlainModule) (p : Place) (ps : List Place) → AreAll modules (p ∷ ps) design.now all.now → ArePrefixes prefixes.now all.now → IfErr result (λ e. Refuses e (located_faults (option_copied clock.entry) p (p ∷ ps))) }
{
    let whole = Whole {
        design,
        all,
        prefixes,
    };
    flattened(alloc, &whole, clock)
}

// The flat design of these instances.
fn flat_of_all<'w, 'a>(
    alloc: Global,
    design: &'w Design<'a, 'w>,
    all: &'w [Located<'a>],
    clock: Option<&[u8]>,
) -> Result<Flat, ElabError>
    ensures flat { (modules : List PlainModule) (p : Place) (ps : List Place) → AreAll modules (p ∷ ps) design.now all.now → IfOk result (λ f. plain_flat f ≡ flat_from p (p ∷ ps)) }
    ensures passes { (modules : List PlainModule) (p : Place) (ps : List Place) → AreAll modules (p ∷ ps) design.now all.now → OnOk result (first (located_faults (option_copied clock.entry) p (p ∷ ps)) ≡ None) }
    ensures refused { (modules : List PlainModule) (p : Place) (ps : List Place) → AreAll modules (p ∷ ps) design.now all.now → IfErr result (λ e. Refuses e (located_faults (option_copied clock.entry) p (p ∷ ps))) }
{
    let prefixes = by_prefix(alloc, all)?;
    flat_with(alloc, design, all, &prefixes, clock)
}

// The flat design below a top with at most 1,024 instances.
#[tactic(auto, using(rst_names::proofs::RowLemmas::rows))]
fn placed(
    alloc: Global,
    design: &Design,
    of: usize,
    top: &[u8],
    clock: Option<&[u8]>,
) -> Result<Flat, ElabError>
    ensures flat { (modules : List PlainModule) (m : PlainModule) → IsReady modules m of design.now → IfOk result (λ f. plain_flat f ≡ flat_below modules top.now (option_copied clock.entry) m) }
    ensures passes { (modules : List PlainModule) (m : PlainModule) → IsReady modules m of design.now → OnOk result (first (place_faults (option_copied clock.entry) (top_place top.now m (option_copied clock.entry)) (instances modules top.now m (option_copied clock.entry))) ≡ None) }
    ensures refused { (modules : List PlainModule) (m : PlainModule) → IsReady modules m of design.now → IfErr result (λ e. Refuses e (place_faults (option_copied clock.entry) (top_place top.now m (option_copied clock.entry)) (instances modules top.now m (option_copied clock.entry)))) }
{
    let places = instances(alloc, design, of, top, clock)?;
    ranges_pass(alloc, design, &places)?;
    let all = located_of(alloc, design, places)?;
    flat_of_all(alloc, design, &all, clock)
}

// The flat design below the module at this place.
#[tactic(auto, using(rst_names::proofs::RowLemmas::rows))]
fn below(
    alloc: Global,
    modules: &Modules,
    of: usize,
    top: &[u8],
    clock: Option<&[u8]>,
) -> Result<Flat, ElabError>
    requires table { IsTable modules.now }
    requires formed { All WellFormed (plain_modules modules.now) }
    ensures flat { (m : PlainModule) → slice_get (plain_modules modules.now) of ≡ Some m → IfOk result (λ f. plain_flat f ≡ flat_below (plain_modules modules.now) top.now (option_copied clock.entry) m) }
    ensures passes { (m : PlainModule) → slice_get (plain_modules modules.now) of ≡ Some m → OnOk result (first (faults_below (plain_modules modules.now) top.now (option_copied clock.entry) m) ≡ None) }
    ensures refused { (m : PlainModule) → slice_get (plain_modules modules.now) of ≡ Some m → IfErr result (λ e. Refuses e (faults_below (plain_modules modules.now) top.now (option_copied clock.entry) m)) }
{
    let used = used_modules(alloc, modules, of)?;
    let facts = names_pass(alloc, modules, &used)?;
    let design = design_of(alloc, modules, &facts)?;
    placed(alloc, &design, of, top, clock)
}

/// The flat design below the module `top`, with `clock` as its clock, or the first refusal in the order of the rows (IEEE
/// 1364-2001, clause 12).
///
/// `ElabError::Fault` has the code of the first row that refuses the design, the name and the number of its first place;
/// docs/LANGUAGE.md lists the rows. `NoMemory` comes where memory runs out.
#[tactic(auto, using(rst_names::proofs::RowLemmas::rows))]
pub fn elaborate(
    alloc: Global,
    sources: &[Source],
    top: &[u8],
    clock: Option<&[u8]>,
) -> Result<Flat, ElabError>
    requires { All WellFormed (modules_in sources.now) }
    ensures accepted { OnOk result (first (faults (modules_in sources.now) top.now (option_copied clock.entry)) ≡ None) }
    ensures flat { IfOk result (λ answer. IsFlat (modules_in sources.now) top.now (option_copied clock.entry) (plain_flat answer)) }
    ensures refused { IfErr result (λ e. Refuses e (faults (modules_in sources.now) top.now (option_copied clock.entry))) }
{
    let modules = modules_of(alloc, sources)?;
    text_passes(alloc, &modules)?;
    let name = Name::new(alloc, top)?;
    match modules.place(&name) {
        None => Err(refusal(alloc, ElabCode::NoTop, b"", 0)),
        Some(of) => below(alloc, &modules, of, top, clock),
    }
}
