// The row Edges.

ghost use Rattle.std.specs.Prelude.{◌≡◌, List, None, map, OnOk, IfErr};
ghost use Rattle.std.specs.List.{flat_map};
ghost use Rattle.rst_tree.specs.Modules.{PlainModule, OneOf, plain_always, plain_events, plain_item};
ghost use Rattle.rst_names.specs.Faults.{first, Refuses};
ghost use Rattle.rst_names.specs.Tables.{is_signal_in};
ghost use Rattle.rst_items.specs.ItemRows.{is_one_posedge, has_bad_edges, is_bad_item, edge_row, rows_over};
ghost use Rattle.rst_items.specs.Tables.{seen_site, at_place, IsWhole, located_in};

use rst_instances::Located;
use rst_items::{Site, Whole, is_clocked, is_rising, number_of, reset_form};
use rst_names::{ElabCode, ElabError, Facts, refusal};
use rst_tree::{Always, Event, Events, Item};
use std::alloc::Global;

fn is_posedge(events: &[Event]) -> bool
    ensures { result ≡ is_one_posedge (OneOf events.now) }
{
    match events {
        [event] => is_rising(event.edge),
        _ => false,
    }
}

fn is_one_posedge(events: &Events) -> bool
    ensures { result ≡ is_one_posedge (plain_events events.now) }
{
    match events {
        Events::Any => false,
        Events::List(events) => is_posedge(events),
    }
}

fn has_bad_edges(facts: &Facts, always: &Always) -> bool
    ensures { result ≡ has_bad_edges (is_signal_in facts.now) (plain_always always.now) }
{
    is_clocked(&always.events)
        && (!is_one_posedge(&always.events) && reset_form(facts, always).is_none())
}

fn is_item_bad(facts: &Facts, item: &Item) -> bool
    ensures { result ≡ is_bad_item (is_signal_in facts.now) (plain_item item.now) }
{
    match item {
        Item::Always(always) => has_bad_edges(facts, always),
        _ => false,
    }
}

#[tactic(auto, using(rst_names::proofs::RowLemmas::rows))]
fn items_pass(alloc: Global, site: Site, items: &[Item]) -> Result<(), ElabError>
    ensures passes { OnOk result (first (edge_row (λ c. None) (seen_site site.entry) (map plain_item items.now)) ≡ None) }
    ensures refused { IfErr result (λ e. Refuses e (edge_row (λ c. None) (seen_site site.entry) (map plain_item items.now))) }
{
    for (place, item) in items.iter().enumerate() {
        let number = number_of(place)?;
        if is_item_bad(site.facts, item) {
            let path = site.located.place.path.as_slice();
            return Err(refusal(alloc, ElabCode::Edges, path, number));
        }
    }
    Ok(())
}

#[tactic(auto, using(rst_names::proofs::RowLemmas::rows))]
fn place_passes<'w, 'a>(
    alloc: Global,
    whole: &Whole<'w, 'a>,
    located: &'w Located<'a>,
) -> Result<(), ElabError>
    ensures passes { OnOk result (first (at_place edge_row whole.now located.now) ≡ None) }
    ensures refused { IfErr result (λ e. Refuses e (at_place edge_row whole.now located.now)) }
{
    match whole.site(located) {
        Some(site) => items_pass(alloc, site, &site.facts.module.items),
        None => Ok(()),
    }
}

#[tactic(auto, using(rst_names::proofs::RowLemmas::rows))]
fn places_pass<'w, 'a>(
    alloc: Global,
    whole: &Whole<'w, 'a>,
    all: &'w [Located<'a>],
) -> Result<(), ElabError>
    ensures passes { OnOk result (first (flat_map (at_place edge_row whole.now) all.now) ≡ None) }
    ensures refused { IfErr result (λ e. Refuses e (flat_map (at_place edge_row whole.now) all.now)) }
{
    for located in all {
        place_passes(alloc, whole, located)?;
    }
    Ok(())
}

/// Each event list with an edge is one `posedge`, or is of a block in reset form.
pub fn edges_pass(alloc: Global, whole: &Whole) -> Result<(), ElabError>
    ensures passes { (modules : List PlainModule) → IsWhole modules whole.now → OnOk result (first (rows_over edge_row (located_in modules whole.now)) ≡ None) }
    ensures refused { (modules : List PlainModule) → IsWhole modules whole.now → IfErr result (λ e. Refuses e (rows_over edge_row (located_in modules whole.now))) }
{
    places_pass(alloc, whole, whole.all)
}
