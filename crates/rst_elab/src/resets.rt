// The row ResetMisused.

ghost use Rattle.std.specs.Prelude.{◌≡◌, List, None, map, IfErr, OnOk};
ghost use Rattle.std.specs.List.{flat_map};
ghost use Rattle.std.specs.Option.{option_map};
ghost use Rattle.rst_tree.specs.Modules.{PlainModule, plain_item};
ghost use Rattle.rst_names.specs.Faults.{first, Refuses};
ghost use Rattle.rst_items.specs.ItemRows.{rows_over};
ghost use Rattle.rst_items.specs.Tables.{plain_form, seen_site, at_place, IsWhole, located_in};
ghost use Rattle.rst_elab.specs.ClockRows.{is_reset_name, misused_reset, reset_faults_in, reset_row};

use crate::refusing::at_signal;
use rst_instances::{Joined, Located};
use rst_items::{ResetForm, Site, Whole, reset_form};
use rst_names::{ElabCode, ElabError};
use rst_outside::Name;
use rst_tree::Item;
use std::alloc::Global;

fn is_reset_name(site: Site, name: &Name) -> bool
    ensures { result ≡ is_reset_name (seen_site site.entry) name.now }
{
    match site.located.place.joined(site.facts, name) {
        Joined::ToInput(_) => site.width_of(name) == 1,
        _ => false,
    }
}

#[tactic(auto, using(rst_names::proofs::RowLemmas::rows))]
fn reset_passes(alloc: Global, site: Site, form: Option<ResetForm>) -> Result<(), ElabError>
    ensures passes { OnOk result (first (misused_reset (seen_site site.entry) (option_map plain_form form.entry)) ≡ None) }
    ensures refused { IfErr result (λ e. Refuses e (misused_reset (seen_site site.entry) (option_map plain_form form.entry))) }
{
    match form {
        None => Ok(()),
        Some(form) => {
            if is_reset_name(site, form.reset) {
                Ok(())
            } else {
                Err(at_signal(alloc, ElabCode::ResetMisused, site, form.reset))
            }
        }
    }
}

fn item_passes(alloc: Global, site: Site, item: &Item) -> Result<(), ElabError>
    ensures passes { OnOk result (first (reset_faults_in (seen_site site.entry) (plain_item item.now)) ≡ None) }
    ensures refused { IfErr result (λ e. Refuses e (reset_faults_in (seen_site site.entry) (plain_item item.now))) }
{
    match item {
        Item::Always(always) => reset_passes(alloc, site, reset_form(site.facts, always)),
        _ => Ok(()),
    }
}

#[tactic(auto, using(rst_names::proofs::RowLemmas::rows))]
fn items_pass(alloc: Global, site: Site, items: &[Item]) -> Result<(), ElabError>
    ensures passes { OnOk result (first (flat_map (reset_faults_in (seen_site site.entry)) (map plain_item items.now)) ≡ None) }
    ensures refused { IfErr result (λ e. Refuses e (flat_map (reset_faults_in (seen_site site.entry)) (map plain_item items.now))) }
{
    for item in items {
        item_passes(alloc, site, item)?;
    }
    Ok(())
}

#[tactic(auto, using(rst_names::proofs::RowLemmas::rows))]
fn place_passes<'w, 'a>(
    alloc: Global,
    whole: &Whole<'w, 'a>,
    located: &'w Located<'a>,
) -> Result<(), ElabError>
    ensures passes { OnOk result (first (at_place reset_row whole.now located.now) ≡ None) }
    ensures refused { IfErr result (λ e. Refuses e (at_place reset_row whole.now located.now)) }
{
    match whole.site(located) {
        Some(site) => items_pass(alloc, site, &site.facts.module.items),
        None => Ok(()),
    }
}

#[tactic(auto, using(rst_names::proofs::RowLemmas::rows))]
fn places_pass<'w, 'a>(
    alloc: Global,
    whole: &Whole<'w, 'a>,
    all: &'w [Located<'a>],
) -> Result<(), ElabError>
    ensures passes { OnOk result (first (flat_map (at_place reset_row whole.now) all.now) ≡ None) }
    ensures refused { IfErr result (λ e. Refuses e (flat_map (at_place reset_row whole.now) all.now)) }
{
    for located in all {
        place_passes(alloc, whole, located)?;
    }
    Ok(())
}

/// The reset of each reset form is a reset name.
pub fn resets_pass(alloc: Global, whole: &Whole) -> Result<(), ElabError>
    ensures passes { (modules : List PlainModule) → IsWhole modules whole.now → OnOk result (first (rows_over reset_row (located_in modules whole.now)) ≡ None) }
    ensures refused { (modules : List PlainModule) → IsWhole modules whole.now → IfErr result (λ e. Refuses e (rows_over reset_row (located_in modules whole.now))) }
{
    places_pass(alloc, whole, whole.all)
}
