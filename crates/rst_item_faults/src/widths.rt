// The row PortWidth.

ghost use Rattle.std.specs.Prelude.{◌≡◌, List, None, map, IfOk, OnOk, IfErr};
ghost use Rattle.std.specs.List.{flat_map};
ghost use Rattle.rst_tree.specs.Modules.{PlainModule, plain_copied, plain_item};
ghost use Rattle.rst_width.specs.Scopes.{names_of};
ghost use Rattle.rst_names.specs.Faults.{first, Refuses};
ghost use Rattle.rst_instances.specs.Tables.{plain_linked};
ghost use Rattle.rst_items.specs.Items.{over_links, over_copies};
ghost use Rattle.rst_items.specs.ItemRows.{is_converted, link_width, item_widths, width_row, rows_over};
ghost use Rattle.rst_items.specs.Tables.{seen_site, placed_in, at_place, IsWhole, located_in};

use rst_instances::{Linked, Located, flat_name};
use rst_items::{Site, Whole};
use rst_names::{ElabCode, ElabError, refusal};
use rst_outside::NoMemory;
use rst_tree::{Copied, Item};
use rst_typing::typed_or;
use rst_width::{Scope, names_signal, own_shape, typed};
use std::alloc::Global;

// Whether a link is a constant to an input.
fn is_converted(alloc: Global, names: &Scope, inner: Site, link: Linked) -> Result<bool, NoMemory>
    ensures { IfOk result (λ b. b ≡ is_converted (names_of names.now) (seen_site inner.entry) (plain_linked link.entry)) }
{
    if !inner.is_input(link.name) {
        return Ok(false);
    }
    let answer = typed(alloc, link.value, names, inner.width_of(link.name));
    let value = Box::new(alloc, typed_or(answer)?)?;
    Ok(!names_signal(&value))
}

#[tactic(auto, using(rst_names::proofs::RowLemmas::rows))]
fn width_passes(alloc: Global, names: &Scope, inner: Site, link: Linked) -> Result<(), ElabError>
    ensures passes { OnOk result (first (link_width (names_of names.now) (seen_site inner.entry) (plain_linked link.entry)) ≡ None) }
    ensures refused { IfErr result (λ e. Refuses e (link_width (names_of names.now) (seen_site inner.entry) (plain_linked link.entry))) }
{
    let own = own_shape(alloc, link.value, names)?;
    if own.width == inner.width_of(link.name) {
        return Ok(());
    }
    if is_converted(alloc, names, inner, link)? {
        return Ok(());
    }
    let name = flat_name(alloc, &inner.located.place, link.name)?;
    Err(refusal(alloc, ElabCode::PortWidth, name.as_slice(), 0))
}

#[tactic(auto, using(rst_names::proofs::RowLemmas::rows))]
fn links_pass(alloc: Global, names: &Scope, inner: Site, links: &[Linked]) -> Result<(), ElabError>
    ensures passes { OnOk result (first (flat_map (link_width (names_of names.now) (seen_site inner.entry)) (map plain_linked links.now)) ≡ None) }
    ensures refused { IfErr result (λ e. Refuses e (flat_map (link_width (names_of names.now) (seen_site inner.entry)) (map plain_linked links.now))) }
{
    for link in links {
        width_passes(alloc, names, inner, *link)?;
    }
    Ok(())
}

#[tactic(auto, using(rst_names::proofs::RowLemmas::rows))]
fn copy_passes<'a>(
    alloc: Global,
    whole: &Whole<'_, 'a>,
    located: &Located<'a>,
    copy: &'a Copied,
) -> Result<(), ElabError>
    ensures passes { OnOk result (first (over_links (link_width (names_of located.now.names)) (plain_copied copy.now) (placed_in whole.now located.now (plain_copied copy.now))) ≡ None) }
    ensures refused { IfErr result (λ e. Refuses e (over_links (link_width (names_of located.now.names)) (plain_copied copy.now) (placed_in whole.now located.now (plain_copied copy.now)))) }
{
    let Some(inner) = whole.copy_of(alloc, located, copy)? else {
        return Ok(());
    };
    let links = inner.links_of(alloc, copy)?;
    links_pass(alloc, &located.names, inner, &links)
}

#[tactic(auto, using(rst_names::proofs::RowLemmas::rows))]
fn copies_pass<'a>(
    alloc: Global,
    whole: &Whole<'_, 'a>,
    located: &Located<'a>,
    copies: &'a [Copied],
) -> Result<(), ElabError>
    ensures passes { OnOk result (first (over_copies (link_width (names_of located.now.names)) (placed_in whole.now located.now) (map plain_copied copies.now)) ≡ None) }
    ensures refused { IfErr result (λ e. Refuses e (over_copies (link_width (names_of located.now.names)) (placed_in whole.now located.now) (map plain_copied copies.now))) }
{
    for copy in copies {
        copy_passes(alloc, whole, located, copy)?;
    }
    Ok(())
}

#[tactic(auto, using(rst_names::proofs::RowLemmas::rows))]
fn item_passes<'a>(
    alloc: Global,
    whole: &Whole<'_, 'a>,
    site: Site<'_, 'a>,
    item: &'a Item,
) -> Result<(), ElabError>
    ensures passes { OnOk result (first (item_widths (placed_in whole.now site.entry.located.now) (seen_site site.entry) (plain_item item.now)) ≡ None) }
    ensures refused { IfErr result (λ e. Refuses e (item_widths (placed_in whole.now site.entry.located.now) (seen_site site.entry) (plain_item item.now))) }
{
    match item {
        Item::Instance(instance) => copies_pass(alloc, whole, site.located, &instance.copies),
        _ => Ok(()),
    }
}

#[tactic(auto, using(rst_names::proofs::RowLemmas::rows))]
fn items_pass<'a>(
    alloc: Global,
    whole: &Whole<'_, 'a>,
    site: Site<'_, 'a>,
    items: &'a [Item],
) -> Result<(), ElabError>
    ensures passes { OnOk result (first (width_row (placed_in whole.now site.entry.located.now) (seen_site site.entry) (map plain_item items.now)) ≡ None) }
    ensures refused { IfErr result (λ e. Refuses e (width_row (placed_in whole.now site.entry.located.now) (seen_site site.entry) (map plain_item items.now))) }
{
    for item in items {
        item_passes(alloc, whole, site, item)?;
    }
    Ok(())
}

#[tactic(auto, using(rst_names::proofs::RowLemmas::rows))]
fn place_passes<'w, 'a>(
    alloc: Global,
    whole: &Whole<'w, 'a>,
    located: &'w Located<'a>,
) -> Result<(), ElabError>
    ensures passes { OnOk result (first (at_place width_row whole.now located.now) ≡ None) }
    ensures refused { IfErr result (λ e. Refuses e (at_place width_row whole.now located.now)) }
{
    match whole.site(located) {
        Some(site) => items_pass(alloc, whole, site, &site.facts.module.items),
        None => Ok(()),
    }
}

#[tactic(auto, using(rst_names::proofs::RowLemmas::rows))]
fn places_pass<'w, 'a>(
    alloc: Global,
    whole: &Whole<'w, 'a>,
    all: &'w [Located<'a>],
) -> Result<(), ElabError>
    ensures passes { OnOk result (first (flat_map (at_place width_row whole.now) all.now) ≡ None) }
    ensures refused { IfErr result (λ e. Refuses e (flat_map (at_place width_row whole.now) all.now)) }
{
    for located in all {
        place_passes(alloc, whole, located)?;
    }
    Ok(())
}

/// Each link has the width of its port, unless it is a constant that an input converts.
pub fn widths_pass(alloc: Global, whole: &Whole) -> Result<(), ElabError>
    ensures passes { (modules : List PlainModule) → IsWhole modules whole.now → OnOk result (first (rows_over width_row (located_in modules whole.now)) ≡ None) }
    ensures refused { (modules : List PlainModule) → IsWhole modules whole.now → IfErr result (λ e. Refuses e (rows_over width_row (located_in modules whole.now))) }
{
    places_pass(alloc, whole, whole.all)
}
