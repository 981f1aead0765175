// The rows ClockMissing and ClockMisused.

ghost use Rattle.std.specs.Prelude.{◌≡◌, [], ◌∷◌, List, None, cond, map, IfOk, IfErr, OnOk};
ghost use Rattle.std.specs.List.{flat_map};
ghost use Rattle.std.specs.Option.{option_copied, option_map};
ghost use Rattle.rst_tree.specs.Trees.{plain};
ghost use Rattle.rst_tree.specs.Modules.{PlainModule, plain_net_name, plain_assign, plain_events, plain_always, plain_copied, plain_item};
ghost use Rattle.rst_names.specs.Faults.{first, Refuses};
ghost use Rattle.rst_names.specs.Tables.{is_signal_in};
ghost use Rattle.rst_instances.specs.Parameters.{linked};
ghost use Rattle.rst_instances.specs.Places.{whole_name};
ghost use Rattle.rst_instances.specs.Tables.{plain_linked};
ghost use Rattle.rst_items.specs.Items.{over_links, over_copies};
ghost use Rattle.rst_items.specs.ItemRows.{rows_over};
ghost use Rattle.rst_items.specs.ResetForms.{is_level};
ghost use Rattle.rst_items.specs.Tables.{plain_form, seen_site, placed_in, at_place, IsWhole, located_in};
ghost use Rattle.rst_elab.specs.ClockRows.{clock_missing, misused_event, misused_in_list, misused_in_events, misused_in_block, misused_in_net, misused_in_assign, is_whole_input, misused_in_link, misused_in_item, clock_faults_in, clock_row};
ghost use Rattle.rst_elab.specs.Tables.{leads_to_clock, test_of};

use crate::refusing::at_signal;
use rst_instances::{Joined, Linked, Located, Place};
use rst_items::{ResetForm, Site, Whole, reset_form};
use rst_names::{
    ElabCode, ElabError, Facts, NameTest, first_in, first_in_stmt, first_in_target, refusal,
};
use rst_outside::{Name, NoMemory};
use rst_tree::{Always, Assign, Copied, EdgeKind, Event, Events, Expr, Item, NetName};
use std::alloc::Global;

/// The clock, if there is one, is an input of the top of width 1.
#[tactic(auto, using(rst_names::proofs::RowLemmas::rows))]
pub fn clock_passes(alloc: Global, top: Site, clock: Option<&[u8]>) -> Result<(), ElabError>
    ensures passes { OnOk result (first (clock_missing (seen_site top.entry) (option_copied clock.entry)) ≡ None) }
    ensures refused { IfErr result (λ e. Refuses e (clock_missing (seen_site top.entry) (option_copied clock.entry))) }
{
    let Some(bytes) = clock else {
        return Ok(());
    };
    let clock = Name::new(alloc, bytes)?;
    if top.is_input(&clock) && top.width_of(&clock) == 1 {
        return Ok(());
    }
    Err(refusal(alloc, ElabCode::ClockMissing, bytes, 0))
}

/// Whether a name of an instance is a clock name.
pub fn is_clock_name(place: &Place, facts: &Facts, name: &Name) -> bool
    ensures { result ≡ leads_to_clock place.now facts.now name.now }
{
    matches!(place.joined(facts, name), Joined::ToClock)
}

// The test of an instance's clock names.
#[derive(Clone, Copy)]
struct IsClock<'p, 'a> {
    place: &'p Place<'a>,
    facts: &'p Facts<'a>,
}

impl NameTest for IsClock<'_, '_> {
    ghost test = { λ t name. leads_to_clock t.place.now t.facts.now name };

    fn passes(&self, name: &Name) -> bool {
        is_clock_name(self.place, self.facts, name)
    }
}

fn is_level(edge: EdgeKind) -> bool
    ensures { result ≡ is_level edge }
{
    matches!(edge, EdgeKind::Level)
}

// An edge waits for a clock name, and any other event doesn't.
fn is_misused(test: &IsClock, event: &Event) -> bool
    ensures { cond result (event.now.name ∷ []) [] ≡ misused_event (test_of test.now) event.now }
{
    if test.passes(&event.name) {
        is_level(event.edge)
    } else {
        !is_level(event.edge)
    }
}

#[tactic(auto, using(crate::proofs::FirstNames::firsts))]
fn misused_event<'a>(test: &IsClock, events: &'a [Event]) -> Option<&'a Name>
    ensures { option_copied result ≡ first (flat_map (misused_event (test_of test.now)) events.now) }
{
    for event in events {
        if is_misused(test, event) {
            return Some(&event.name);
        }
    }
    None
}

fn misused_in_list<'a>(
    test: &IsClock,
    events: &'a [Event],
    form: Option<ResetForm<'a>>,
) -> Option<&'a Name>
    ensures { option_copied result ≡ first (misused_in_list (test_of test.now) events.now (option_map plain_form form.entry)) }
{
    match form {
        None => misused_event(test, events),
        Some(form) => {
            if test.passes(form.clock) {
                None
            } else {
                Some(form.clock)
            }
        }
    }
}

fn misused_in_events<'a>(
    test: &IsClock,
    events: &'a Events,
    form: Option<ResetForm<'a>>,
) -> Option<&'a Name>
    ensures { option_copied result ≡ first (misused_in_events (test_of test.now) (plain_events events.now) (option_map plain_form form.entry)) }
{
    match events {
        Events::Any => None,
        Events::List(events) => misused_in_list(test, events, form),
    }
}

#[tactic(auto, using(crate::proofs::FirstNames::firsts))]
fn misused_in_block<'a>(test: &IsClock, always: &'a Always) -> Option<&'a Name>
    ensures { option_copied result ≡ first (misused_in_block (test_of test.now) (is_signal_in test.now.facts.now) (plain_always always.now)) }
{
    let form = reset_form(test.facts, always);
    match misused_in_events(test, &always.events, form) {
        Some(name) => Some(name),
        None => first_in_stmt(&always.body, test),
    }
}

fn misused_in_net<'a>(test: &IsClock, net: &'a NetName) -> Option<&'a Name>
    ensures { option_copied result ≡ first (misused_in_net (test_of test.now) (plain_net_name net.now)) }
{
    match &net.value {
        Some(value) => first_in(value, test),
        None => None,
    }
}

#[tactic(auto, using(crate::proofs::FirstNames::firsts))]
fn misused_in_nets<'a>(test: &IsClock, nets: &'a [NetName]) -> Option<&'a Name>
    ensures { option_copied result ≡ first (flat_map (misused_in_net (test_of test.now)) (map plain_net_name nets.now)) }
{
    for net in nets {
        if let Some(name) = misused_in_net(test, net) {
            return Some(name);
        }
    }
    None
}

#[tactic(auto, using(crate::proofs::FirstNames::firsts))]
fn misused_in_assign<'a>(test: &IsClock, assign: &'a Assign) -> Option<&'a Name>
    ensures { option_copied result ≡ first (misused_in_assign (test_of test.now) (plain_assign assign.now)) }
{
    match first_in_target(&assign.target, test) {
        Some(name) => Some(name),
        None => first_in(&assign.value, test),
    }
}

#[tactic(auto, using(crate::proofs::FirstNames::firsts))]
fn misused_in_assigns<'a>(test: &IsClock, assigns: &'a [Assign]) -> Option<&'a Name>
    ensures { option_copied result ≡ first (flat_map (misused_in_assign (test_of test.now)) (map plain_assign assigns.now)) }
{
    for assign in assigns {
        if let Some(name) = misused_in_assign(test, assign) {
            return Some(name);
        }
    }
    None
}

// A clock name may be linked as a whole to an input.
fn is_whole_input(inner: Site, port: &Name, value: &Expr) -> bool
    ensures { result ≡ is_whole_input (seen_site inner.entry) (linked port.now (plain value.now)) (whole_name (plain value.now)) }
{
    match value {
        Expr::Name(_) => inner.is_input(port),
        _ => false,
    }
}

fn misused_in_link<'a>(test: &IsClock, inner: Site, link: Linked<'a>) -> Option<&'a Name>
    ensures { option_copied result ≡ first (misused_in_link (test_of test.now) (seen_site inner.entry) (plain_linked link.entry)) }
{
    if is_whole_input(inner, link.name, link.value) {
        return None;
    }
    first_in(link.value, test)
}

#[tactic(auto, using(crate::proofs::FirstNames::firsts))]
fn misused_in_links<'a>(test: &IsClock, inner: Site, links: &[Linked<'a>]) -> Option<&'a Name>
    ensures { option_copied result ≡ first (flat_map (misused_in_link (test_of test.now) (seen_site inner.entry)) (map plain_linked links.now)) }
{
    for link in links {
        if let Some(name) = misused_in_link(test, inner, *link) {
            return Some(name);
        }
    }
    None
}

fn misused_in_copy<'a>(
    alloc: Global,
    whole: &Whole<'_, 'a>,
    located: &Located<'a>,
    test: &IsClock,
    copy: &'a Copied,
) -> Result<Option<&'a Name>, NoMemory>
    ensures { IfOk result (λ o. option_copied o ≡ first (over_links (misused_in_link (test_of test.now)) (plain_copied copy.now) (placed_in whole.now located.now (plain_copied copy.now)))) }
{
    let Some(inner) = whole.copy_of(alloc, located, copy)? else {
        return Ok(None);
    };
    let links = inner.links_of(alloc, copy)?;
    Ok(misused_in_links(test, inner, &links))
}

#[tactic(auto, using(crate::proofs::FirstNames::firsts))]
fn misused_in_copies<'a>(
    alloc: Global,
    whole: &Whole<'_, 'a>,
    located: &Located<'a>,
    test: &IsClock,
    copies: &'a [Copied],
) -> Result<Option<&'a Name>, NoMemory>
    ensures { IfOk result (λ o. option_copied o ≡ first (over_copies (misused_in_link (test_of test.now)) (placed_in whole.now located.now) (map plain_copied copies.now))) }
{
    for copy in copies {
        if let Some(name) = misused_in_copy(alloc, whole, located, test, copy)? {
            return Ok(Some(name));
        }
    }
    Ok(None)
}

fn misused_in_item<'a>(
    alloc: Global,
    whole: &Whole<'_, 'a>,
    site: Site<'_, 'a>,
    item: &'a Item,
) -> Result<Option<&'a Name>, NoMemory>
    ensures { IfOk result (λ o. option_copied o ≡ first (misused_in_item (placed_in whole.now site.entry.located.now) (seen_site site.entry) (plain_item item.now))) }
{
    let test = IsClock {
        place: &site.located.place,
        facts: site.facts,
    };
    match item {
        Item::Net(d) => Ok(misused_in_nets(&test, &d.names)),
        Item::Assign(assigns) => Ok(misused_in_assigns(&test, assigns)),
        Item::Always(always) => Ok(misused_in_block(&test, always)),
        Item::Instance(i) => misused_in_copies(alloc, whole, site.located, &test, &i.copies),
        Item::Port(_) | Item::Params(_) => Ok(None),
    }
}

#[tactic(auto, using(rst_names::proofs::RowLemmas::rows))]
fn item_passes<'a>(
    alloc: Global,
    whole: &Whole<'_, 'a>,
    site: Site<'_, 'a>,
    item: &'a Item,
) -> Result<(), ElabError>
    ensures passes { OnOk result (first (clock_faults_in (placed_in whole.now site.entry.located.now) (seen_site site.entry) (plain_item item.now)) ≡ None) }
    ensures refused { IfErr result (λ e. Refuses e (clock_faults_in (placed_in whole.now site.entry.located.now) (seen_site site.entry) (plain_item item.now))) }
{
    match misused_in_item(alloc, whole, site, item)? {
        Some(name) => Err(at_signal(alloc, ElabCode::ClockMisused, site, name)),
        None => Ok(()),
    }
}

#[tactic(auto, using(rst_names::proofs::RowLemmas::rows))]
fn items_pass<'a>(
    alloc: Global,
    whole: &Whole<'_, 'a>,
    site: Site<'_, 'a>,
    items: &'a [Item],
) -> Result<(), ElabError>
    ensures passes { OnOk result (first (clock_row (placed_in whole.now site.entry.located.now) (seen_site site.entry) (map plain_item items.now)) ≡ None) }
    ensures refused { IfErr result (λ e. Refuses e (clock_row (placed_in whole.now site.entry.located.now) (seen_site site.entry) (map plain_item items.now))) }
{
    for item in items {
        item_passes(alloc, whole, site, item)?;
    }
    Ok(())
}

#[tactic(auto, using(rst_names::proofs::RowLemmas::rows))]
fn place_passes<'w, 'a>(
    alloc: Global,
    whole: &Whole<'w, 'a>,
    located: &'w Located<'a>,
) -> Result<(), ElabError>
    ensures passes { OnOk result (first (at_place clock_row whole.now located.now) ≡ None) }
    ensures refused { IfErr result (λ e. Refuses e (at_place clock_row whole.now located.now)) }
{
    match whole.site(located) {
        Some(site) => items_pass(alloc, whole, site, &site.facts.module.items),
        None => Ok(()),
    }
}

#[tactic(auto, using(rst_names::proofs::RowLemmas::rows))]
fn places_pass<'w, 'a>(
    alloc: Global,
    whole: &Whole<'w, 'a>,
    all: &'w [Located<'a>],
) -> Result<(), ElabError>
    ensures passes { OnOk result (first (flat_map (at_place clock_row whole.now) all.now) ≡ None) }
    ensures refused { IfErr result (λ e. Refuses e (flat_map (at_place clock_row whole.now) all.now)) }
{
    for located in all {
        place_passes(alloc, whole, located)?;
    }
    Ok(())
}

/// Clock names stand in edges and in whole links alone, and edges but for resets wait for clock names.
pub fn clocks_pass(alloc: Global, whole: &Whole) -> Result<(), ElabError>
    ensures passes { (modules : List PlainModule) → IsWhole modules whole.now → OnOk result (first (rows_over clock_row (located_in modules whole.now)) ≡ None) }
    ensures refused { (modules : List PlainModule) → IsWhole modules whole.now → IfErr result (λ e. Refuses e (rows_over clock_row (located_in modules whole.now))) }
{
    places_pass(alloc, whole, whole.all)
}
