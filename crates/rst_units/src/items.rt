// The units and clocked blocks of a design, with the faults of its expressions.

ghost use Rattle.std.specs.Prelude.{◌≡◌, ◌++◌, ◌∷◌, [], ◌+◌, List, None, map, IfOk, OnOk, IfErr};
ghost use Rattle.std.specs.List.{flat_map};
ghost use Rattle.rst_tree.specs.Trees.{plain};
ghost use Rattle.rst_tree.specs.Targets.{plain_target};
ghost use Rattle.rst_tree.specs.Modules.{PlainModule, plain_net_name, plain_assign, plain_always, plain_copied, plain_item};
ghost use Rattle.rst_tree.specs.Modules as tree;
ghost use Rattle.rst_width.specs.Scopes.{names_of};
ghost use Rattle.rst_net.specs.Units.{plain_driver, plain_process};
ghost use Rattle.rst_names.specs.Faults.{first, fault_at, Refuses};
ghost use Rattle.rst_instances.specs.Parameters.{code_of};
ghost use Rattle.rst_instances.specs.Tables.{plain_linked};
ghost use Rattle.rst_typing.specs.Typing.{set_faults, stmt_faults};
ghost use Rattle.rst_typing.specs.Refusals.{IsFirst};
ghost use Rattle.rst_items.specs.Items.{set_by, wire_unit, assign_unit, link_units, over_links, over_copies, item_units, item_clocked, unit_row, clocked_row, units, clocked};
ghost use Rattle.rst_items.specs.ItemRows.{wire_faults, assign_faults, link_faults, item_faults, fault_row, rows_over};
ghost use Rattle.rst_items.specs.Tables.{seen_site, placed_in, at_place, IsWhole, located_in};

use crate::blocks::{block_at, clocked_at};
use crate::links::link_unit;
use rst_instances::{Linked, Located, code_of};
use rst_items::{Site, Whole, is_clocked, number_of, reset_form};
use rst_names::{ElabError, refusal};
use rst_net::{Driver, Process};
use rst_outside::{Name, NoMemory};
use rst_tree::{Always, Assign, Copied, Expr, Instance, Item, NetName, Target};
use rst_typing::typed_set;
use rst_width::{Scope, WidthFault};
use std::alloc::Global;

/// The units and the clocked blocks of a design, each in flat order.
#[derive(Drop)]
pub struct Units {
    pub units: Vec<Driver>,
    pub clocked: Vec<Process>,
}

#[tactic(auto, using(rst_typing::proofs::Faults::firsts))]
fn push_set(
    alloc: Global,
    names: &Scope,
    target: &Target,
    value: &Expr,
    units: &mut Vec<Driver>,
) -> Result<(), WidthFault>
    ensures exact { OnOk result (map plain_driver units.new.items ≡ map plain_driver units.old.items ++ set_by (names_of names.now) (plain_target target.now) (plain value.now) ∷ []) }
    ensures passes { OnOk result (set_faults (names_of names.now) (plain_target target.now) (plain value.now) ≡ []) }
    ensures refused { IfErr result (λ e. IsFirst e (set_faults (names_of names.now) (plain_target target.now) (plain value.now))) }
{
    let set = Box::new(alloc, typed_set(alloc, names, target, value, true)?)?;
    units.push(Driver::Assign(set))?;
    Ok(())
}

#[tactic(auto, using(rst_typing::proofs::Faults::firsts))]
fn push_wire(
    alloc: Global,
    names: &Scope,
    net: &NetName,
    units: &mut Vec<Driver>,
) -> Result<(), WidthFault>
    ensures exact { OnOk result (map plain_driver units.new.items ≡ map plain_driver units.old.items ++ wire_unit (names_of names.now) (plain_net_name net.now)) }
    ensures passes { OnOk result (wire_faults (names_of names.now) (plain_net_name net.now) ≡ []) }
    ensures refused { IfErr result (λ e. IsFirst e (wire_faults (names_of names.now) (plain_net_name net.now))) }
{
    match &net.value {
        Some(value) => {
            let target = Target::Whole(Name::new(alloc, net.name.as_slice())?);
            let target = Box::new(alloc, target)?;
            push_set(alloc, names, &target, value, units)
        }
        None => Ok(()),
    }
}

#[tactic(auto, using(rst_typing::proofs::Faults::firsts))]
fn push_wires(
    alloc: Global,
    names: &Scope,
    nets: &[NetName],
    units: &mut Vec<Driver>,
) -> Result<(), WidthFault>
    ensures exact { OnOk result (map plain_driver units.new.items ≡ map plain_driver units.old.items ++ flat_map (wire_unit (names_of names.now)) (map plain_net_name nets.now)) }
    ensures passes { OnOk result (flat_map (wire_faults (names_of names.now)) (map plain_net_name nets.now) ≡ []) }
    ensures refused { IfErr result (λ e. IsFirst e (flat_map (wire_faults (names_of names.now)) (map plain_net_name nets.now))) }
{
    for net in nets {
        push_wire(alloc, names, net, units)?;
    }
    Ok(())
}

#[tactic(auto, using(rst_typing::proofs::Faults::firsts))]
fn push_assigns(
    alloc: Global,
    names: &Scope,
    assigns: &[Assign],
    units: &mut Vec<Driver>,
) -> Result<(), WidthFault>
    ensures exact { OnOk result (map plain_driver units.new.items ≡ map plain_driver units.old.items ++ map (assign_unit (names_of names.now)) (map plain_assign assigns.now)) }
    ensures passes { OnOk result (flat_map (assign_faults (names_of names.now)) (map plain_assign assigns.now) ≡ []) }
    ensures refused { IfErr result (λ e. IsFirst e (flat_map (assign_faults (names_of names.now)) (map plain_assign assigns.now))) }
{
    for assign in assigns {
        push_set(alloc, names, &assign.target, &assign.value, units)?;
    }
    Ok(())
}

#[tactic(auto, using(rst_typing::proofs::Faults::firsts))]
fn push_always(
    alloc: Global,
    site: Site,
    item: u32,
    always: &Always,
    made: &mut Units,
) -> Result<(), WidthFault>
    ensures units { OnOk result (map plain_driver made.new.units.items ≡ map plain_driver made.old.units.items ++ item_units (λ c. None) (seen_site site.entry) (item, tree.AlwaysBlock (plain_always always.now))) }
    ensures clocked { OnOk result (map plain_process made.new.clocked.items ≡ map plain_process made.old.clocked.items ++ item_clocked (seen_site site.entry) (item, tree.AlwaysBlock (plain_always always.now))) }
    ensures passes { OnOk result (stmt_faults (seen_site site.entry).names (plain_always always.now).body ≡ []) }
    ensures refused { IfErr result (λ e. IsFirst e (stmt_faults (seen_site site.entry).names (plain_always always.now).body)) }
{
    if is_clocked(&always.events) {
        let form = reset_form(site.facts, always);
        let process = clocked_at(alloc, site, item, form, &always.body)?;
        made.clocked.push(process)?;
    } else {
        let process = Box::new(alloc, block_at(alloc, site, item, always)?)?;
        made.units.push(Driver::Process(process))?;
    }
    Ok(())
}

#[tactic(auto, using(rst_typing::proofs::Faults::firsts))]
fn push_link(
    alloc: Global,
    names: &Scope,
    inner: Site,
    link: Linked,
    units: &mut Vec<Driver>,
) -> Result<(), WidthFault>
    ensures exact { OnOk result (map plain_driver units.new.items ≡ map plain_driver units.old.items ++ link_units (names_of names.now) (seen_site inner.entry) (plain_linked link.entry)) }
    ensures passes { OnOk result (link_faults (names_of names.now) (seen_site inner.entry) (plain_linked link.entry) ≡ []) }
    ensures refused { IfErr result (λ e. IsFirst e (link_faults (names_of names.now) (seen_site inner.entry) (plain_linked link.entry))) }
{
    if let Some(set) = link_unit(alloc, names, inner, link)? {
        units.push(Driver::Assign(set))?;
    }
    Ok(())
}

#[tactic(auto, using(rst_typing::proofs::Faults::firsts))]
fn push_links(
    alloc: Global,
    names: &Scope,
    inner: Site,
    links: &[Linked],
    units: &mut Vec<Driver>,
) -> Result<(), WidthFault>
    ensures exact { OnOk result (map plain_driver units.new.items ≡ map plain_driver units.old.items ++ flat_map (link_units (names_of names.now) (seen_site inner.entry)) (map plain_linked links.now)) }
    ensures passes { OnOk result (flat_map (link_faults (names_of names.now) (seen_site inner.entry)) (map plain_linked links.now) ≡ []) }
    ensures refused { IfErr result (λ e. IsFirst e (flat_map (link_faults (names_of names.now) (seen_site inner.entry)) (map plain_linked links.now))) }
{
    for link in links {
        push_link(alloc, names, inner, *link, units)?;
    }
    Ok(())
}

#[tactic(auto, using(rst_typing::proofs::Faults::firsts))]
fn push_copy<'a>(
    alloc: Global,
    whole: &Whole<'_, 'a>,
    located: &Located<'a>,
    copy: &'a Copied,
    units: &mut Vec<Driver>,
) -> Result<(), WidthFault>
    ensures exact { OnOk result (map plain_driver units.new.items ≡ map plain_driver units.old.items ++ over_links (link_units (names_of located.now.names)) (plain_copied copy.now) (placed_in whole.now located.now (plain_copied copy.now))) }
    ensures passes { OnOk result (over_links (link_faults (names_of located.now.names)) (plain_copied copy.now) (placed_in whole.now located.now (plain_copied copy.now)) ≡ []) }
    ensures refused { IfErr result (λ e. IsFirst e (over_links (link_faults (names_of located.now.names)) (plain_copied copy.now) (placed_in whole.now located.now (plain_copied copy.now)))) }
{
    let Some(inner) = whole.copy_of(alloc, located, copy)? else {
        return Ok(());
    };
    let links = inner.links_of(alloc, copy)?;
    push_links(alloc, &located.names, inner, &links, units)
}

#[tactic(auto, using(rst_typing::proofs::Faults::firsts))]
fn push_copies<'a>(
    alloc: Global,
    whole: &Whole<'_, 'a>,
    located: &Located<'a>,
    copies: &'a [Copied],
    units: &mut Vec<Driver>,
) -> Result<(), WidthFault>
    ensures exact { OnOk result (map plain_driver units.new.items ≡ map plain_driver units.old.items ++ over_copies (link_units (names_of located.now.names)) (placed_in whole.now located.now) (map plain_copied copies.now)) }
    ensures passes { OnOk result (over_copies (link_faults (names_of located.now.names)) (placed_in whole.now located.now) (map plain_copied copies.now) ≡ []) }
    ensures refused { IfErr result (λ e. IsFirst e (over_copies (link_faults (names_of located.now.names)) (placed_in whole.now located.now) (map plain_copied copies.now))) }
{
    for copy in copies {
        push_copy(alloc, whole, located, copy, units)?;
    }
    Ok(())
}

#[tactic(auto, using(rst_typing::proofs::Faults::firsts))]
fn push_item<'a>(
    alloc: Global,
    whole: &Whole<'_, 'a>,
    site: Site<'_, 'a>,
    number: u32,
    item: &'a Item,
    made: &mut Units,
) -> Result<(), WidthFault>
    ensures units { OnOk result (map plain_driver made.new.units.items ≡ map plain_driver made.old.units.items ++ item_units (placed_in whole.now site.entry.located.now) (seen_site site.entry) (number, plain_item item.now)) }
    ensures clocked { OnOk result (map plain_process made.new.clocked.items ≡ map plain_process made.old.clocked.items ++ item_clocked (seen_site site.entry) (number, plain_item item.now)) }
    ensures passes { OnOk result (item_faults (placed_in whole.now site.entry.located.now) (seen_site site.entry) (plain_item item.now) ≡ []) }
    ensures refused { IfErr result (λ e. IsFirst e (item_faults (placed_in whole.now site.entry.located.now) (seen_site site.entry) (plain_item item.now))) }
{
    let names = &site.located.names;
    match item {
        Item::Net(d) => push_wires(alloc, names, &d.names, &mut made.units),
        Item::Assign(assigns) => push_assigns(alloc, names, assigns, &mut made.units),
        Item::Always(always) => push_always(alloc, site, number, always, made),
        Item::Instance(instance) => {
            push_copies(
                alloc,
                whole,
                site.located,
                &instance.copies,
                &mut made.units,
            )
        }
        Item::Port(_) | Item::Params(_) => Ok(()),
    }
}

// The refusal by a fault of an expression, at the item of an instance.
fn at_item(alloc: Global, located: &Located, item: u32, fault: WidthFault) -> ElabError
    ensures { (faults : List WidthFault) → IsFirst fault faults → Refuses result (map (λ f. fault_at (code_of f) located.now.place.path item) faults) }
{
    if matches!(fault, WidthFault::NoMemory) {
        return ElabError::NoMemory;
    }
    match code_of(fault) {
        Ok(code) => refusal(alloc, code, located.place.path.as_slice(), item),
        Err(NoMemory) => ElabError::NoMemory,
    }
}

#[tactic(auto, using(rst_names::proofs::RowLemmas::rows))]
fn push_items<'a>(
    alloc: Global,
    whole: &Whole<'_, 'a>,
    site: Site<'_, 'a>,
    items: &'a [Item],
    made: &mut Units,
) -> Result<(), ElabError>
    ensures units { OnOk result (map plain_driver made.new.units.items ≡ map plain_driver made.old.units.items ++ unit_row (placed_in whole.now site.entry.located.now) (seen_site site.entry) (map plain_item items.now)) }
    ensures clocked { OnOk result (map plain_process made.new.clocked.items ≡ map plain_process made.old.clocked.items ++ clocked_row (placed_in whole.now site.entry.located.now) (seen_site site.entry) (map plain_item items.now)) }
    ensures passes { OnOk result (first (fault_row (placed_in whole.now site.entry.located.now) (seen_site site.entry) (map plain_item items.now)) ≡ None) }
    ensures refused { IfErr result (λ e. Refuses e (fault_row (placed_in whole.now site.entry.located.now) (seen_site site.entry) (map plain_item items.now))) }
{
    for (place, item) in items.iter().enumerate() {
        let number = number_of(place)?;
        if let Err(fault) = push_item(alloc, whole, site, number, item, made) {
            return Err(at_item(alloc, site.located, number, fault));
        }
    }
    Ok(())
}

#[tactic(auto, using(rst_names::proofs::RowLemmas::rows))]
fn push_place<'w, 'a>(
    alloc: Global,
    whole: &Whole<'w, 'a>,
    located: &'w Located<'a>,
    made: &mut Units,
) -> Result<(), ElabError>
    ensures units { OnOk result (map plain_driver made.new.units.items ≡ map plain_driver made.old.units.items ++ at_place unit_row whole.now located.now) }
    ensures clocked { OnOk result (map plain_process made.new.clocked.items ≡ map plain_process made.old.clocked.items ++ at_place clocked_row whole.now located.now) }
    ensures passes { OnOk result (first (at_place fault_row whole.now located.now) ≡ None) }
    ensures refused { IfErr result (λ e. Refuses e (at_place fault_row whole.now located.now)) }
{
    match whole.site(located) {
        Some(site) => push_items(alloc, whole, site, &site.facts.module.items, made),
        None => Ok(()),
    }
}

#[tactic(auto, using(rst_names::proofs::RowLemmas::rows))]
fn push_places<'w, 'a>(
    alloc: Global,
    whole: &Whole<'w, 'a>,
    all: &'w [Located<'a>],
    made: &mut Units,
) -> Result<(), ElabError>
    ensures units { OnOk result (map plain_driver made.new.units.items ≡ map plain_driver made.old.units.items ++ flat_map (at_place unit_row whole.now) all.now) }
    ensures clocked { OnOk result (map plain_process made.new.clocked.items ≡ map plain_process made.old.clocked.items ++ flat_map (at_place clocked_row whole.now) all.now) }
    ensures passes { OnOk result (first (flat_map (at_place fault_row whole.now) all.now) ≡ None) }
    ensures refused { IfErr result (λ e. Refuses e (flat_map (at_place fault_row whole.now) all.now)) }
{
    for located in all {
        push_place(alloc, whole, located, made)?;
    }
    Ok(())
}

/// The units and clocked blocks of a design whose expressions have no fault. Of several faults the first in flat order is answered,
/// at its item.
pub fn units_of(alloc: Global, whole: &Whole) -> Result<Units, ElabError>
    ensures units { (modules : List PlainModule) → IsWhole modules whole.now → IfOk result (λ made. map plain_driver made.units.items ≡ units (located_in modules whole.now)) }
    ensures clocked { (modules : List PlainModule) → IsWhole modules whole.now → IfOk result (λ made. map plain_process made.clocked.items ≡ clocked (located_in modules whole.now)) }
    ensures passes { (modules : List PlainModule) → IsWhole modules whole.now → OnOk result (first (rows_over fault_row (located_in modules whole.now)) ≡ None) }
    ensures refused { (modules : List PlainModule) → IsWhole modules whole.now → IfErr result (λ e. Refuses e (rows_over fault_row (located_in modules whole.now))) }
{
    let mut made = Units {
        units: Vec::new(alloc),
        clocked: Vec::new(alloc),
    };
    push_places(alloc, whole, whole.all, &mut made)?;
    Ok(made)
}
