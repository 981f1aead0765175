// Instances, in pre-order.

ghost use Rattle.std.specs.Prelude.{◌≡◌, ◌++◌, ◌<◌, ◌≤◌, ◌^◌, List, [], Some, map, length, nat_eq, slice_get, IfOk, OnOk};
ghost use Rattle.std.specs.List.{All, enumerate_from, flat_map};
ghost use Rattle.std.specs.Option.{option_map, option_copied};
ghost use Rattle.std.specs.Cmp.Lexicographic.{pointwise};
ghost use Rattle.indexmap.specs.IndexMap.{get};
ghost use Rattle.rst_tree.specs.Modules.{PlainModule, plain_instance, plain_copied, plain_links, plain_item};
ghost use Rattle.rst_width.specs.Scopes.{names_with};
ghost use Rattle.rst_names.specs.Declarations.{ports, settable};
ghost use Rattle.rst_names.specs.Tables.{IsFacts};
ghost use Rattle.rst_hierarchy.specs.Hierarchy.{module_named, instances_in};
ghost use Rattle.rst_instances.specs.Parameters.{links_to, names_behind, values_of};
ghost use Rattle.rst_instances.specs.Settings.{values_in, AreKnown};
ghost use Rattle.rst_instances.specs.Places.{dot, linked_name, port_join, top_join, top_place, child, copies, children, below, instances};
ghost use Rattle.rst_instances.specs.Tables.{outside_names, plain_joined, plain_linked, plain_ports, leads_to, led_by, joined_in, module_at, plain_place, IsPlace, AreTables, IsDesign};
ghost use Rattle.rst_instances.specs.Around.{AreAround};

use crate::design::{Design, Tables, tables_at};
use crate::parameters::{Linked, Valued, Values, link_table, links_to, values_of};
use crate::ranges::Outside;
use indexmap::IndexMap;
use rst_names::Facts;
use rst_outside::{Name, NoMemory};
use rst_tree::{Copied, Expr, Instance, Item};
use rst_width::Scope;
use std::alloc::{AllocError, Global};

/// What a port leads to outside.
#[derive(Clone, Copy, Debug, PartialEq, Eq)]
pub enum Joined {
    Apart,
    /// The clock.
    ToClock,
    /// The top's input of this number, whatever its width.
    ToInput(u32),
}

/// An instance.
#[derive(Drop)]
pub struct Place<'a> {
    /// The names on the way to it, joined by `.`; for the top, the top's own name.
    pub path: Name,
    /// What the flat names of its signals begin with.
    pub prefix: Name,
    /// The place of its module among all.
    pub of: usize,
    pub values: Vec<Valued<'a>>,
    /// The parameters that have a value.
    pub params: Scope,
    /// What its ports lead to, in the order of the header.
    pub joins: Vec<Joined>,
}

impl<'a> Place<'a> {
    /// What a name leads to: only ports lead outside.
    pub fn joined(&self, facts: &Facts, name: &Name) -> Joined
        ensures { plain_joined result ≡ leads_to self.now facts.now name.now }
    {
        match facts.port_places.get(name) {
            Some(place) => match self.joins.as_slice().get(*place) {
                Some(joined) => *joined,
                None => Joined::Apart,
            },
            None => Joined::Apart,
        }
    }
}

fn with_bytes(alloc: Global, bytes: &[u8], more: &[u8]) -> Result<Name, NoMemory>
    ensures { IfOk result (λ made. made ≡ bytes.now ++ more.now) }
{
    let mut text = Vec::new(alloc);
    text.extend_from_slice(bytes)?;
    text.extend_from_slice(more)?;
    Ok(Name::new(alloc, text.as_slice())?)
}

/// The flat name of a signal or a parameter of an instance.
pub fn flat_name(alloc: Global, place: &Place, name: &Name) -> Result<Name, NoMemory>
    ensures { IfOk result (λ made. made ≡ place.now.prefix ++ name.now) }
{
    with_bytes(alloc, place.prefix.as_slice(), name.as_slice())
}

/// What the names of a copy begin with.
pub fn prefix_of(alloc: Global, place: &Place, copy: &Name) -> Result<Name, NoMemory>
    ensures { IfOk result (λ made. made ≡ (place.now.prefix ++ copy.now) ++ dot) }
{
    let path = flat_name(alloc, place, copy)?;
    with_bytes(alloc, path.as_slice(), b".")
}

// What an input leads to by its link.
fn joined_by(place: &Place, facts: &Facts, link: Option<&Linked>) -> Joined
    ensures { plain_joined result ≡ led_by place.now facts.now (linked_name (option_map plain_linked (option_copied link.entry))) }
{
    match link {
        Some(link) => match link.value {
            Expr::Name(name) => place.joined(facts, name),
            _ => Joined::Apart,
        },
        None => Joined::Apart,
    }
}

fn joins_of(
    alloc: Global,
    outside: &Place,
    around: &Facts,
    links: &IndexMap<Name, Linked>,
    facts: &Facts,
) -> Result<Vec<Joined>, AllocError>
    ensures { IfOk result (λ made. map plain_joined made.items ≡ map (joined_in outside.now around.now (λ name. option_map plain_linked (get (pointwise nat_eq) links.now name)) facts.now) (map (λ n. n.now) facts.now.ports.items)) }
{
    let mut made = Vec::new(alloc);
    for port in &facts.ports {
        let joined = if facts.summary(port).input {
            joined_by(outside, around, links.get(*port))
        } else {
            Joined::Apart
        };
        made.push(joined)?;
    }
    Ok(made)
}

// An instance around a copy, with the tables of its module.
#[derive(Clone, Copy)]
struct Around<'a, 'd> {
    place: &'d Place<'a>,
    tables: Tables<'a, 'd>,
}

fn names_of<'d>(around: Around<'_, 'd>) -> Outside<'d, 'd>
    ensures { outside_names result ≡ names_with around.entry.place.now.params around.entry.tables.unshaped.now }
{
    Outside {
        scope: &around.place.params,
        unshaped: around.tables.unshaped,
    }
}

// What the ports of a copy lead to.
fn child_joins<'a>(
    alloc: Global,
    around: Around<'a, '_>,
    tables: Tables<'a, '_>,
    copy: &'a Copied,
) -> Result<Vec<Joined>, NoMemory>
    ensures { (modules : List PlainModule) (m : PlainModule) → AreAround modules around.entry → AreTables m tables.entry → IfOk result (λ js. plain_ports (ports m) js.items ≡ map (port_join (plain_place modules around.entry.place.now).joins (links_to (ports m) (plain_links copy.now.ports)) m) (ports m)) }
{
    let links = links_to(alloc, &tables.facts.ports, &copy.ports)?;
    let by_name = link_table(alloc, &links)?;
    let joins = joins_of(
        alloc,
        around.place,
        around.tables.facts,
        &by_name,
        tables.facts,
    )?;
    Ok(joins)
}

// The values of the parameters of the copies of an item.
fn child_values<'a>(
    alloc: Global,
    around: Around<'a, '_>,
    tables: Tables<'a, '_>,
    instance: &'a Instance,
) -> Result<Values<'a>, NoMemory>
    ensures list { (modules : List PlainModule) (m : PlainModule) → AreAround modules around.entry → AreTables m tables.entry → IfOk result (λ v. values_in v ≡ values_of m (names_behind (module_at modules around.entry.place.now.of) (plain_place modules around.entry.place.now).values) (links_to (settable m) (plain_links instance.now.params))) }
    ensures known { IfOk result AreKnown }
{
    let links = links_to(alloc, &tables.facts.settable, &instance.params)?;
    let values = values_of(alloc, tables, &links, names_of(around))?;
    Ok(values)
}

fn child<'a>(
    alloc: Global,
    around: Around<'a, '_>,
    of: usize,
    tables: Tables<'a, '_>,
    instance: &'a Instance,
    copy: &'a Copied,
) -> Result<Place<'a>, NoMemory>
    ensures is_child { (modules : List PlainModule) (m : PlainModule) → AreAround modules around.entry → slice_get modules of ≡ Some m → AreTables m tables.entry → IfOk result (λ p. plain_place modules p ≡ child (plain_place modules around.entry.place.now) (plain_instance instance.now) m (plain_copied copy.now)) }
    ensures right { (modules : List PlainModule) → of < length modules → IfOk result (IsPlace modules) }
{
    let joins = child_joins(alloc, around, tables, copy)?;
    let path = flat_name(alloc, around.place, &copy.name)?;
    let prefix = prefix_of(alloc, around.place, &copy.name)?;
    let values = child_values(alloc, around, tables, instance)?;
    Ok(Place {
        path,
        prefix,
        of,
        values: values.list,
        params: values.scope,
        joins,
    })
}

// The copies of an item of instances, whose module has this place and these tables.
fn push_children<'a>(
    alloc: Global,
    around: Around<'a, '_>,
    of: usize,
    tables: Tables<'a, '_>,
    instance: &'a Instance,
    made: &mut Vec<Place<'a>>,
) -> Result<(), NoMemory>
    ensures placed { (modules : List PlainModule) (m : PlainModule) → AreAround modules around.entry → slice_get modules of ≡ Some m → AreTables m tables.entry → OnOk result (map (plain_place modules) made.new.items ≡ map (plain_place modules) made.old.items ++ copies (plain_place modules around.entry.place.now) (plain_instance instance.now) (Some m)) }
    ensures right { (modules : List PlainModule) → of < length modules → All (IsPlace modules) made.old.items → OnOk result (All (IsPlace modules) made.new.items) }
{
    for copy in &instance.copies {
        let place = child(alloc, around, of, tables, instance, copy)?;
        made.push(place)?;
    }
    Ok(())
}

// The place of the module of a name.
fn place_of(design: &Design, name: &Name) -> Option<usize>
    ensures { result ≡ get (pointwise nat_eq) design.now.modules.now.places name.now }
{
    design.modules.places.get(name).copied()
}

fn push_copies<'a>(
    alloc: Global,
    design: &Design<'a, '_>,
    around: Around<'a, '_>,
    instance: &'a Instance,
    made: &mut Vec<Place<'a>>,
) -> Result<(), NoMemory>
    ensures placed { (modules : List PlainModule) → IsDesign modules design.now → AreAround modules around.entry → OnOk result (map (plain_place modules) made.new.items ≡ map (plain_place modules) made.old.items ++ copies (plain_place modules around.entry.place.now) (plain_instance instance.now) (module_named modules instance.now.«module»)) }
    ensures right { (modules : List PlainModule) → IsDesign modules design.now → All (IsPlace modules) made.old.items → OnOk result (All (IsPlace modules) made.new.items) }
{
    let Some(of) = place_of(design, &instance.module) else {
        return Ok(());
    };
    let Some(tables) = tables_at(design, of) else {
        return Ok(());
    };
    push_children(alloc, around, of, tables, instance, made)?;
    Ok(())
}

fn push_item<'a>(
    alloc: Global,
    design: &Design<'a, '_>,
    around: Around<'a, '_>,
    item: &'a Item,
    made: &mut Vec<Place<'a>>,
) -> Result<(), NoMemory>
    ensures placed { (modules : List PlainModule) → IsDesign modules design.now → AreAround modules around.entry → OnOk result (map (plain_place modules) made.new.items ≡ map (plain_place modules) made.old.items ++ flat_map (λ i. copies (plain_place modules around.entry.place.now) i (module_named modules i.of_module)) (instances_in (plain_item item.now))) }
    ensures right { (modules : List PlainModule) → IsDesign modules design.now → All (IsPlace modules) made.old.items → OnOk result (All (IsPlace modules) made.new.items) }
{
    match item {
        Item::Instance(instance) => push_copies(alloc, design, around, instance, made),
        _ => Ok(()),
    }
}

// The instances that an instance's module places, in the order of its text.
fn children<'a>(
    alloc: Global,
    design: &Design<'a, '_>,
    place: &Place<'a>,
) -> Result<Vec<Place<'a>>, NoMemory>
    ensures placed { (modules : List PlainModule) → IsDesign modules design.now → IsPlace modules place.now → IfOk result (λ made. map (plain_place modules) made.items ≡ children modules (plain_place modules place.now)) }
    ensures right { (modules : List PlainModule) → IsDesign modules design.now → IfOk result (λ made. All (IsPlace modules) made.items) }
{
    let mut made = Vec::new(alloc);
    let Some(tables) = tables_at(design, place.of) else {
        return Ok(made);
    };
    let around = Around { place, tables };
    for item in &tables.facts.module.items {
        push_item(alloc, design, around, item, &mut made)?;
    }
    Ok(made)
}

// What a port of the top is joined to, which has this place in the header.
fn top_joined(facts: &Facts, place: usize, port: &Name, clock: Option<&[u8]>) -> Joined
    ensures { (m : PlainModule) → IsFacts m facts.now → place < 2 ^ 32 → plain_joined result ≡ (top_join (option_copied clock.entry) m (place, port.now)).joined }
{
    if !facts.summary(port).input {
        return Joined::Apart;
    }
    if clock == Some(port.as_slice()) {
        return Joined::ToClock;
    }
    if place < 4294967296 {
        Joined::ToInput(place as u32)
    } else {
        Joined::Apart
    }
}

fn top_joins(alloc: Global, facts: &Facts, clock: Option<&[u8]>) -> Result<Vec<Joined>, AllocError>
    ensures { (m : PlainModule) → IsFacts m facts.now → length (ports m) ≤ 2 ^ 32 → IfOk result (λ made. map plain_joined made.items ≡ map (λ numbered. (top_join (option_copied clock.entry) m numbered).joined) (enumerate_from 0 (ports m))) }
{
    let mut made = Vec::new(alloc);
    for (place, port) in facts.ports.iter().enumerate() {
        made.push(top_joined(facts, place, port, clock))?;
    }
    Ok(made)
}

fn top_place<'a>(
    alloc: Global,
    of: usize,
    tables: Tables<'a, '_>,
    top: &[u8],
    clock: Option<&[u8]>,
) -> Result<Place<'a>, NoMemory>
    ensures is_top { (modules : List PlainModule) (m : PlainModule) → slice_get modules of ≡ Some m → AreTables m tables.entry → length (ports m) ≤ 2 ^ 32 → IfOk result (λ p. plain_place modules p ≡ top_place top.now m (option_copied clock.entry)) }
    ensures right { (modules : List PlainModule) → of < length modules → IfOk result (IsPlace modules) }
{
    let joins = top_joins(alloc, tables.facts, clock)?;
    let path = Name::new(alloc, top)?;
    let prefix = Name::new(alloc, b"")?;
    let empty = Scope {
        entries: IndexMap::new(alloc),
    };
    let names = Outside {
        scope: &empty,
        unshaped: tables.unshaped,
    };
    let values = values_of(alloc, tables, &[], names)?;
    Ok(Place {
        path,
        prefix,
        of,
        values: values.list,
        params: values.scope,
        joins,
    })
}

// An instance, and those below it to this depth: each stands before what it places.
fn push_below<'a>(
    alloc: Global,
    depth: u32,
    design: &Design<'a, '_>,
    place: Place<'a>,
    made: &mut Vec<Place<'a>>,
) -> Result<(), NoMemory>
    ensures placed { (modules : List PlainModule) → IsDesign modules design.now → IsPlace modules place.entry → OnOk result (map (plain_place modules) made.new.items ≡ map (plain_place modules) made.old.items ++ below depth modules (plain_place modules place.entry)) }
    ensures right { (modules : List PlainModule) → IsDesign modules design.now → IsPlace modules place.entry → All (IsPlace modules) made.old.items → OnOk result (All (IsPlace modules) made.new.items) }
{
    if depth == 0 {
        made.push(place)?;
        return Ok(());
    }
    let below = children(alloc, design, &place)?;
    made.push(place)?;
    for child in below {
        push_below(alloc, depth - 1, design, child, made)?;
    }
    Ok(())
}

/// The instances of a design, the top first, in pre-order. There are none where there is no module at the place `of`.
pub fn instances<'a>(
    alloc: Global,
    design: &Design<'a, '_>,
    of: usize,
    top: &[u8],
    clock: Option<&[u8]>,
) -> Result<Vec<Place<'a>>, NoMemory>
    ensures placed { (modules : List PlainModule) → IsDesign modules design.now → of < length modules → length (ports (module_at modules of)) ≤ 2 ^ 32 → IfOk result (λ places. map (plain_place modules) places.items ≡ instances modules top.now (module_at modules of) (option_copied clock.entry)) }
    ensures right { (modules : List PlainModule) → IsDesign modules design.now → IfOk result (λ places. All (IsPlace modules) places.items) }
{
    let mut made = Vec::new(alloc);
    let Some(tables) = tables_at(design, of) else {
        return Ok(made);
    };
    let place = top_place(alloc, of, tables, top, clock)?;
    push_below(alloc, 16, design, place, &mut made)?;
    Ok(made)
}
