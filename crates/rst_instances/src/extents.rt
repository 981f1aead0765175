// Ranges: their rows of refusals, and the signals of instances.

ghost use Rattle.std.specs.Prelude.{◌≡◌, ◌++◌, ◌∷◌, ◌+◌, ◌-◌, ◌^◌, ◌<◌, List, [], None, Some, false, map, cond, min, length, nat_eq, OnOk, IfErr, IfOk};
ghost use Rattle.std.specs.List.{flat_map, All, sum_by};
ghost use Rattle.std.specs.Cmp.Lexicographic.{pointwise};
ghost use Rattle.indexmap.specs.IndexMap.{get};
ghost use Rattle.rst_tree.specs.Trees.{Text};
ghost use Rattle.rst_tree.specs.Modules.{PlainModule, plain_port_decl, plain_net_decl, plain_module, plain_item};
ghost use Rattle.rst_width.specs.Scopes.{Signal, extent_of, meaning_of, either_of, names_of, names_with};
ghost use Rattle.rst_names.specs.Faults.{Refuses, Tells, first, fault_at};
ghost use Rattle.rst_names.specs.Declarations.{signals};
ghost use Rattle.rst_names.specs.Tables.{plain_declared};
ghost use Rattle.rst_instances.specs.Parameters.{known, names_from, known_values};
ghost use Rattle.rst_instances.specs.Places.{extent_by, extent_in, names_at, located};
ghost use Rattle.rst_instances.specs.RangeRows.{param_faults, ranged_port, ranged_item, ranged, range_row_faults, first_net, ranged_if};
ghost use Rattle.rst_instances.specs.Tables.{outside_names, answer_of, plain_ends, module_at, plain_place, plain_valued, IsPlace, IsDesign};
ghost use Rattle.rst_instances.specs.Locations.{plain_located, shown_signals, IsLocated};
ghost use Rattle.rst_instances.specs.Rows.{row_faults, plain_ranged, fault_by, range_fault, value_fault, range_faults};

use crate::design::{Design, Located, Tables, tables_at};
use crate::noting::note;
use crate::parameters::{Valued, note_value};
use crate::places::{Place, flat_name};
use crate::ranges::{Ends, Outside, ends_of, ranged_shape};
use indexmap::IndexMap;
use rst_names::{Declared, ElabCode, ElabError, Facts, refusal};
use rst_outside::{Name, NoMemory};
use rst_tree::{Header, Item, NetDecl, PortDecl, Range};
use rst_width::{Entry, Scope, SignalShape};
use std::alloc::{AllocError, Global};

fn at_name(alloc: Global, code: ElabCode, place: &Place, name: &Name) -> ElabError
    ensures { Tells result (fault_at code (place.now.prefix ++ name.now) 0) }
{
    match flat_name(alloc, place, name) {
        Ok(name) => refusal(alloc, code, name.as_slice(), 0),
        Err(NoMemory) => ElabError::NoMemory,
    }
}

fn names_of<'s, 'u>(place: &'s Place, tables: Tables<'_, 'u>) -> Outside<'s, 'u>
    ensures { outside_names result ≡ names_with place.now.params tables.entry.unshaped.now }
{
    Outside {
        scope: &place.params,
        unshaped: tables.unshaped,
    }
}

// The value of a parameter is a word.
#[tactic(auto, using(rst_names::proofs::RowLemmas::rows))]
fn value_passes(alloc: Global, place: &Place, valued: &Valued) -> Result<(), ElabError>
    ensures passes { OnOk result (first (value_fault place.now.prefix (plain_valued valued.now)) ≡ None) }
    ensures refused { IfErr result (λ e. Refuses e (value_fault place.now.prefix (plain_valued valued.now))) }
{
    match valued.value {
        Ok(_) => Ok(()),
        Err(code) => Err(at_name(alloc, code, place, valued.name)),
    }
}

fn values_pass(alloc: Global, place: &Place) -> Result<(), ElabError>
    ensures passes { OnOk result (first (param_faults (plain_place [] place.now)) ≡ None) }
    ensures refused { IfErr result (λ e. Refuses e (param_faults (plain_place [] place.now))) }
{
    for valued in &place.values {
        value_passes(alloc, place, valued)?;
    }
    Ok(())
}

fn params_pass(alloc: Global, places: &[Place]) -> Result<(), ElabError>
    ensures passes { OnOk result (first (flat_map param_faults (map (plain_place []) places.now)) ≡ None) }
    ensures refused { IfErr result (λ e. Refuses e (flat_map param_faults (map (plain_place []) places.now))) }
{
    for place in places {
        values_pass(alloc, place)?;
    }
    Ok(())
}

/// A declaration of signals that has a range, by its first name.
#[derive(Clone, Copy)]
struct Ranged<'a> {
    name: &'a Name,
    range: &'a Range,
}

fn push_port<'a>(d: &'a PortDecl, made: &mut Vec<Ranged<'a>>) -> Result<(), AllocError>
    ensures { OnOk result (map plain_ranged made.new.items ≡ map plain_ranged made.old.items ++ ranged_port (plain_port_decl d.now)) }
{
    if let (Some(name), Some(range)) = (d.names.first(), &d.range) {
        made.push(Ranged { name, range })?;
    }
    Ok(())
}

fn push_net<'a>(d: &'a NetDecl, made: &mut Vec<Ranged<'a>>) -> Result<(), AllocError>
    ensures { OnOk result (map plain_ranged made.new.items ≡ map plain_ranged made.old.items ++ ranged_if (first_net (plain_net_decl d.now).names) (plain_net_decl d.now).range) }
{
    if let (Some(net), Some(range)) = (d.names.first(), &d.range) {
        made.push(Ranged {
            name: &net.name,
            range,
        })?;
    }
    Ok(())
}

fn push_ports<'a>(ports: &'a [PortDecl], made: &mut Vec<Ranged<'a>>) -> Result<(), AllocError>
    ensures { OnOk result (map plain_ranged made.new.items ≡ map plain_ranged made.old.items ++ flat_map ranged_port (map plain_port_decl ports.now)) }
{
    for d in ports {
        push_port(d, made)?;
    }
    Ok(())
}

fn push_item<'a>(item: &'a Item, made: &mut Vec<Ranged<'a>>) -> Result<(), AllocError>
    ensures { OnOk result (map plain_ranged made.new.items ≡ map plain_ranged made.old.items ++ ranged_item (plain_item item.now)) }
{
    match item {
        Item::Port(d) => push_port(d, made),
        Item::Net(d) => push_net(d, made),
        _ => Ok(()),
    }
}

// The declarations of signals that have a range, in the order of the text.
fn ranged_declarations<'a>(alloc: Global, facts: &Facts<'a>) -> Result<Vec<Ranged<'a>>, AllocError>
    ensures { IfOk result (λ made. map plain_ranged made.items ≡ ranged (plain_module facts.now.«module».now)) }
{
    let mut made = Vec::new(alloc);
    if let Header::Full(ports) = &facts.module.header {
        push_ports(ports, &mut made)?;
    }
    for item in &facts.module.items {
        push_item(item, &mut made)?;
    }
    Ok(made)
}

// The rows over ranges: the ends are constant words, then they are in order and below 65,536, then there are at most 64 bits.
#[derive(Clone, Copy, PartialEq, Eq)]
enum RangeRow {
    Ends,
    BadRange,
    TooWide,
}

fn code_if(fails: bool, code: ElabCode) -> Option<ElabCode>
    ensures { result ≡ cond fails (Some code) None }
{
    if fails { Some(code) } else { None }
}

fn code_in(row: RangeRow, ends: Result<Ends, ElabCode>) -> Option<ElabCode>
    ensures { (name : Text) → fault_by name result ≡ range_fault row name (answer_of plain_ends ends) }
{
    match ends {
        Err(code) => code_if(row == RangeRow::Ends, code),
        Ok(ends) => match row {
            RangeRow::Ends => None,
            RangeRow::BadRange => code_if(ends.is_bad(), ElabCode::BadRange),
            RangeRow::TooWide => code_if(ends.is_wide(), ElabCode::TooWide),
        },
    }
}

// A range passes a row.
#[tactic(auto, using(rst_names::proofs::RowLemmas::rows))]
fn range_passes(
    alloc: Global,
    row: RangeRow,
    tables: Tables,
    place: &Place,
    d: &Ranged,
) -> Result<(), ElabError>
    ensures passes { OnOk result (first (range_faults row place.now.prefix (names_with place.now.params tables.entry.unshaped.now) (plain_ranged d.now)) ≡ None) }
    ensures refused { IfErr result (λ e. Refuses e (range_faults row place.now.prefix (names_with place.now.params tables.entry.unshaped.now) (plain_ranged d.now))) }
{
    let ends = ends_of(alloc, d.range, names_of(place, tables))?;
    match code_in(row, ends) {
        None => Ok(()),
        Some(code) => Err(at_name(alloc, code, place, d.name)),
    }
}

fn declarations_pass(
    alloc: Global,
    row: RangeRow,
    tables: Tables,
    place: &Place,
    declarations: &[Ranged],
) -> Result<(), ElabError>
    ensures passes { OnOk result (first (flat_map (range_faults row place.now.prefix (names_with place.now.params tables.entry.unshaped.now)) (map plain_ranged declarations.now)) ≡ None) }
    ensures refused { IfErr result (λ e. Refuses e (flat_map (range_faults row place.now.prefix (names_with place.now.params tables.entry.unshaped.now)) (map plain_ranged declarations.now))) }
{
    for d in declarations {
        range_passes(alloc, row, tables, place, d)?;
    }
    Ok(())
}

// The ranges of an instance pass a row.
fn instance_passes(
    alloc: Global,
    row: RangeRow,
    design: &Design,
    place: &Place,
) -> Result<(), ElabError>
    ensures passes { (modules : List PlainModule) → IsDesign modules design.now → IsPlace modules place.now → OnOk result (first (row_faults row (plain_place modules place.now)) ≡ None) }
    ensures refused { (modules : List PlainModule) → IsDesign modules design.now → IsPlace modules place.now → IfErr result (λ e. Refuses e (row_faults row (plain_place modules place.now))) }
{
    match tables_at(design, place.of) {
        None => Ok(()),
        Some(tables) => {
            let declarations = ranged_declarations(alloc, tables.facts)?;
            declarations_pass(alloc, row, tables, place, &declarations)
        }
    }
}

fn row_passes(
    alloc: Global,
    row: RangeRow,
    design: &Design,
    places: &[Place],
) -> Result<(), ElabError>
    ensures passes { (modules : List PlainModule) → IsDesign modules design.now → All (IsPlace modules) places.now → OnOk result (first (flat_map (row_faults row) (map (plain_place modules) places.now)) ≡ None) }
    ensures refused { (modules : List PlainModule) → IsDesign modules design.now → All (IsPlace modules) places.now → IfErr result (λ e. Refuses e (flat_map (row_faults row) (map (plain_place modules) places.now))) }
{
    for place in places {
        instance_passes(alloc, row, design, place)?;
    }
    Ok(())
}

/// The values of parameters are words, and the ranges of signals have constant ends, go downwards within 0 to 65,535, and have at
/// most 64 bits.
pub fn ranges_pass(alloc: Global, design: &Design, places: &[Place]) -> Result<(), ElabError>
    ensures passes { (modules : List PlainModule) → IsDesign modules design.now → All (IsPlace modules) places.now → OnOk result (first (range_row_faults (map (plain_place modules) places.now)) ≡ None) }
    ensures refused { (modules : List PlainModule) → IsDesign modules design.now → All (IsPlace modules) places.now → IfErr result (λ e. Refuses e (range_row_faults (map (plain_place modules) places.now))) }
{
    params_pass(alloc, places)?;
    row_passes(alloc, RangeRow::Ends, design, places)?;
    row_passes(alloc, RangeRow::BadRange, design, places)?;
    row_passes(alloc, RangeRow::TooWide, design, places)
}

// So many more, no further than numbers go.
fn counted(base: u32, more: usize) -> u32
    ensures { result ≡ min (base + more) (2 ^ 32 - 1) }
{
    let sum = (base as usize).saturating_add(more);
    if sum < 4294967296 {
        sum as u32
    } else {
        u32::MAX
    }
}

fn scalar(signed: bool) -> SignalShape
    ensures { extent_of result ≡ record { width = 1; low = 0; signed = signed; ranged = false } }
{
    SignalShape {
        width: 1,
        low: 0,
        signed,
        ranged: false,
    }
}

fn shape_in(
    alloc: Global,
    tables: Tables,
    place: &Place,
    d: &Declared,
) -> Result<SignalShape, NoMemory>
    ensures { IfOk result (λ shape. extent_of shape ≡ extent_by (names_with place.now.params tables.entry.unshaped.now) d.now.signed (plain_declared d.now).range) }
{
    match d.range {
        None => Ok(scalar(d.signed)),
        Some(range) => {
            let ends = ends_of(alloc, range, names_of(place, tables))?;
            Ok(ranged_shape(d.signed, ends))
        }
    }
}

// The parameters of an instance that have a value.
fn note_values(
    alloc: Global,
    values: &[Valued],
    entries: &mut IndexMap<Name, Entry>,
) -> Result<(), NoMemory>
    ensures { OnOk result ((name : Text) → meaning_of (get (pointwise nat_eq) entries.new name) ≡ either_of (meaning_of (get (pointwise nat_eq) entries.old name)) (names_from (known_values (map plain_valued values.now)) name)) }
{
    for valued in values {
        note_value(alloc, *valued, entries)?;
    }
    Ok(())
}

// A signal with its number and its shape.
fn note_signal(
    alloc: Global,
    name: &Name,
    number: u32,
    shape: SignalShape,
    entries: &mut IndexMap<Name, Entry>,
) -> Result<(), NoMemory>
    ensures { OnOk result ((q : Text) → meaning_of (get (pointwise nat_eq) entries.new q) ≡ either_of (meaning_of (get (pointwise nat_eq) entries.old q)) (names_from (known name.now (Signal number (extent_of shape)) ∷ []) q)) }
{
    note(alloc, entries, name, Entry::Signal(number, shape))?;
    Ok(())
}

// Its signals take their numbers from `base` on.
fn note_signals(
    alloc: Global,
    signals: &[Declared],
    base: u32,
    shapes: &[SignalShape],
    entries: &mut IndexMap<Name, Entry>,
) -> Result<(), NoMemory>
    ensures { base + length signals.now < 2 ^ 32 → length shapes.now ≡ length signals.now → OnOk result ((name : Text) → meaning_of (get (pointwise nat_eq) entries.new name) ≡ either_of (meaning_of (get (pointwise nat_eq) entries.old name)) (names_from (shown_signals base (map plain_declared signals.now) (map extent_of shapes.now)) name)) }
{
    for (place, d) in signals.iter().enumerate() {
        let Some(shape) = shapes.get(place) else {
            return Ok(());
        };
        note_signal(alloc, d.name, counted(base, place), *shape, entries)?;
    }
    Ok(())
}

fn shapes_in(alloc: Global, design: &Design, place: &Place) -> Result<Vec<SignalShape>, NoMemory>
    ensures { (modules : List PlainModule) → IsDesign modules design.now → IsPlace modules place.now → IfOk result (λ shapes. map extent_of shapes.items ≡ map (extent_in (plain_place modules place.now)) (signals (module_at modules place.now.of))) }
{
    let mut shapes = Vec::new(alloc);
    let Some(tables) = tables_at(design, place.of) else {
        return Ok(shapes);
    };
    for d in &tables.facts.signals {
        let shape = shape_in(alloc, tables, place, d)?;
        shapes.push(shape)?;
    }
    Ok(shapes)
}

// What the names of an instance stand for, whose first signal has the number `base`.
fn names_in(
    alloc: Global,
    design: &Design,
    place: &Place,
    base: u32,
    shapes: &[SignalShape],
) -> Result<Scope, NoMemory>
    ensures { (modules : List PlainModule) → IsDesign modules design.now → IsPlace modules place.now → base + length (signals (module_at modules place.now.of)) < 2 ^ 32 → map extent_of shapes.now ≡ map (extent_in (plain_place modules place.now)) (signals (module_at modules place.now.of)) → IfOk result (λ s. names_of s ≡ names_at (record { place = plain_place modules place.now; base = base })) }
{
    let mut entries: IndexMap<Name, Entry> = IndexMap::new(alloc);
    note_values(alloc, &place.values, &mut entries)?;
    let Some(tables) = tables_at(design, place.of) else {
        return Ok(Scope { entries });
    };
    note_signals(alloc, &tables.facts.signals, base, shapes, &mut entries)?;
    Ok(Scope { entries })
}

// An instance, the signals of which take their numbers from `next` on.
fn located<'a>(
    alloc: Global,
    design: &Design<'a, '_>,
    place: Place<'a>,
    next: &mut u32,
) -> Result<Located<'a>, NoMemory>
    ensures right { (modules : List PlainModule) → IsDesign modules design.now → IsPlace modules place.entry → next.old + length (signals (module_at modules place.entry.of)) < 2 ^ 32 → IfOk result (λ l. IsLocated modules l × (plain_located modules l ≡ record { place = plain_place modules place.entry; base = next.old })) }
    ensures after { (modules : List PlainModule) → IsDesign modules design.now → IsPlace modules place.entry → next.old + length (signals (module_at modules place.entry.of)) < 2 ^ 32 → OnOk result (next.new ≡ next.old + length (signals (module_at modules place.entry.of))) }
{
    let base = *next;
    let shapes = shapes_in(alloc, design, &place)?;
    let names = names_in(alloc, design, &place, base, &shapes)?;
    *next = counted(base, shapes.len());
    Ok(Located {
        place,
        base,
        shapes,
        names,
    })
}

/// The instances with their signals, numbered in flat order.
pub fn located_of<'a>(
    alloc: Global,
    design: &Design<'a, '_>,
    places: Vec<Place<'a>>,
) -> Result<Vec<Located<'a>>, NoMemory>
    ensures located { (modules : List PlainModule) → IsDesign modules design.now → All (IsPlace modules) places.entry.items → sum_by (λ p. length (signals p.of)) (map (plain_place modules) places.entry.items) < 2 ^ 32 → IfOk result (λ made. map (plain_located modules) made.items ≡ located (map (plain_place modules) places.entry.items)) }
    ensures right { (modules : List PlainModule) → IsDesign modules design.now → All (IsPlace modules) places.entry.items → sum_by (λ p. length (signals p.of)) (map (plain_place modules) places.entry.items) < 2 ^ 32 → IfOk result (λ made. All (IsLocated modules) made.items) }
{
    let mut made = Vec::new(alloc);
    let mut next = 0;
    for place in places {
        let one = located(alloc, design, place, &mut next)?;
        made.push(one)?;
    }
    Ok(made)
}
