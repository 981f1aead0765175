// The row BadTarget.

ghost use Rattle.std.specs.Prelude.{◌≡◌, ◌&&◌, List, None, is_some, map, IfOk, OnOk, IfErr};
ghost use Rattle.std.specs.List.{flat_map, list_any};
ghost use Rattle.rst_tree.specs.Trees.{plain, plain_all};
ghost use Rattle.rst_tree.specs.Targets as target;
ghost use Rattle.rst_tree.specs.Targets.{plain_target, plain_targets};
ghost use Rattle.rst_tree.specs.Statements.{plain_stmt, plain_stmts, plain_arm, plain_arms, no_arm};
ghost use Rattle.rst_tree.specs.Modules.{PlainModule, plain_net_name, plain_assign, plain_copied, plain_item};
ghost use Rattle.rst_width.specs.Scopes.{names_of};
ghost use Rattle.rst_names.specs.Faults.{first, Refuses};
ghost use Rattle.rst_instances.specs.Tables.{plain_linked};
ghost use Rattle.rst_items.specs.ItemRows.{sets_all, all_set, is_target_of, are_targets_of, is_bad_target, is_bad_output, has_bad_set, have_bad_set, arms_have_bad_set, is_bad_link, has_bad_link, has_bad_target, target_row, rows_over};
ghost use Rattle.rst_items.specs.Tables.{seen_site, placed_in, at_place, IsWhole, located_in};
ghost use Rattle.rst_item_faults.specs.declared.targets.Kind.TheVariants.{Wire};
ghost use Rattle.rst_item_faults.specs.Kinds.{kind_in};

use rst_instances::{Linked, Located};
use rst_items::{Site, Whole, number_of};
use rst_names::{ElabCode, ElabError, Facts, refusal};
use rst_outside::{Name, NoMemory};
use rst_tree::{Arm, Assign, Copied, Expr, Item, NetName, Stmt, Target};
use rst_typing::{is_settable, typed_or};
use rst_width::{Scope, typed, typed_target};
use std::alloc::Global;

// What a target may set.
#[derive(Clone, Copy)]
enum Kind {
    // a signal that is no reg and no input of its module
    Wire,
    Reg,
}

fn is_of_kind(facts: &Facts, kind: Kind, name: &Name) -> bool
    ensures { result ≡ kind_in kind facts.now name.now }
{
    let summary = facts.summary(name);
    match kind {
        Kind::Wire => summary.signal && (!summary.reg && !summary.input),
        Kind::Reg => summary.reg,
    }
}

// Whether all names that a target sets are of this kind.
#[cycle(of_kind)]
#[tactic(auto, using(rst_tree::proofs::Rows::target_rows))]
fn sets_kind(facts: &Facts, kind: Kind, target: &Target) -> bool
    ensures { result ≡ sets_all (kind_in kind facts.now) (plain_target target.now) }
{
    match target {
        Target::Whole(name) | Target::Bit(name, _) | Target::Part(name, _, _) => {
            is_of_kind(facts, kind, name)
        }
        Target::Join(parts) => all_set_kind(facts, kind, parts),
    }
}

#[cycle(of_kind)]
fn all_set_kind(facts: &Facts, kind: Kind, parts: &[Target]) -> bool
    ensures { result ≡ all_set (kind_in kind facts.now) (plain_targets parts.now) }
{
    for part in parts {
        if !sets_kind(facts, kind, part) {
            return false;
        }
    }
    true
}

fn is_bad_target(
    alloc: Global,
    names: &Scope,
    facts: &Facts,
    kind: Kind,
    target: &Target,
) -> Result<bool, NoMemory>
    ensures { IfOk result (λ bad. bad ≡ is_bad_target (names_of names.now) (kind_in kind facts.now) (plain_target target.now)) }
{
    if !sets_kind(facts, kind, target) {
        return Ok(true);
    }
    let target = Box::new(alloc, typed_or(typed_target(alloc, target, names))?)?;
    Ok(!is_settable(&target))
}

// Whether an expression has the form of a target, all names of which are of this kind.
#[cycle(forms)]
#[tactic(auto, using(rst_tree::proofs::Rows::rows))]
fn is_target_of(facts: &Facts, kind: Kind, expr: &Expr) -> bool
    ensures { result ≡ is_target_of (kind_in kind facts.now) (plain expr.now) }
{
    match expr {
        Expr::Name(name) | Expr::Bit(name, _) | Expr::Part(name, _, _) => {
            is_of_kind(facts, kind, name)
        }
        Expr::Join(parts) => are_targets_of(facts, kind, parts),
        _ => false,
    }
}

#[cycle(forms)]
fn are_targets_of(facts: &Facts, kind: Kind, parts: &[Expr]) -> bool
    ensures { result ≡ are_targets_of (kind_in kind facts.now) (plain_all parts.now) }
{
    for part in parts {
        if !is_target_of(facts, kind, part) {
            return false;
        }
    }
    true
}

fn is_bad_output(
    alloc: Global,
    names: &Scope,
    facts: &Facts,
    kind: Kind,
    value: &Expr,
) -> Result<bool, NoMemory>
    ensures { IfOk result (λ bad. bad ≡ is_bad_output (names_of names.now) (kind_in kind facts.now) (plain value.now)) }
{
    if !is_target_of(facts, kind, value) {
        return Ok(true);
    }
    let target = Box::new(alloc, typed_or(typed(alloc, value, names, 0))?)?;
    Ok(!is_settable(&target))
}

#[cycle(sets)]
#[tactic(auto, using(rst_tree::proofs::Rows::statement_rows))]
fn has_bad_set(
    alloc: Global,
    names: &Scope,
    facts: &Facts,
    kind: Kind,
    stmt: &Stmt,
) -> Result<bool, NoMemory>
    ensures { IfOk result (λ bad. bad ≡ has_bad_set (names_of names.now) (kind_in kind facts.now) (plain_stmt stmt.now)) }
{
    match stmt {
        Stmt::Block(parts) => have_bad_set(alloc, names, facts, kind, parts),
        Stmt::If(_, then, None) => has_bad_set(alloc, names, facts, kind, then),
        Stmt::If(_, then, Some(otherwise)) => {
            if has_bad_set(alloc, names, facts, kind, then)? {
                return Ok(true);
            }
            has_bad_set(alloc, names, facts, kind, otherwise)
        }
        Stmt::Case(case) => arms_have_bad_set(alloc, names, facts, kind, &case.arms),
        Stmt::Set(set) => is_bad_target(alloc, names, facts, kind, &set.target),
        Stmt::Empty => Ok(false),
    }
}

#[cycle(sets)]
fn have_bad_set(
    alloc: Global,
    names: &Scope,
    facts: &Facts,
    kind: Kind,
    parts: &[Stmt],
) -> Result<bool, NoMemory>
    ensures { IfOk result (λ bad. bad ≡ have_bad_set (names_of names.now) (kind_in kind facts.now) (plain_stmts parts.now)) }
{
    for part in parts {
        if has_bad_set(alloc, names, facts, kind, part)? {
            return Ok(true);
        }
    }
    Ok(false)
}

#[cycle(sets)]
fn arm_has_bad_set(
    alloc: Global,
    names: &Scope,
    facts: &Facts,
    kind: Kind,
    arm: &Arm,
) -> Result<bool, NoMemory>
    ensures { IfOk result (λ bad. bad ≡ arms_have_bad_set (names_of names.now) (kind_in kind facts.now) (plain_arm arm.now no_arm)) }
{
    match arm {
        Arm::Labels(_, body) => has_bad_set(alloc, names, facts, kind, body),
        Arm::Otherwise(body) => has_bad_set(alloc, names, facts, kind, body),
    }
}

#[cycle(sets)]
fn arms_have_bad_set(
    alloc: Global,
    names: &Scope,
    facts: &Facts,
    kind: Kind,
    arms: &[Arm],
) -> Result<bool, NoMemory>
    ensures { IfOk result (λ bad. bad ≡ arms_have_bad_set (names_of names.now) (kind_in kind facts.now) (plain_arms arms.now)) }
{
    for arm in arms {
        if arm_has_bad_set(alloc, names, facts, kind, arm)? {
            return Ok(true);
        }
    }
    Ok(false)
}

// A wire with a value is set as a whole.
fn is_bad_wire(alloc: Global, names: &Scope, facts: &Facts, net: &NetName) -> Result<bool, NoMemory>
    ensures { IfOk result (λ bad. bad ≡ (is_some (plain_net_name net.now).value && is_bad_target (names_of names.now) (kind_in Wire facts.now) (target.Whole net.now.name))) }
{
    if net.value.is_none() {
        return Ok(false);
    }
    let target = Box::new(alloc, Target::Whole(Name::new(alloc, net.name.as_slice())?))?;
    is_bad_target(alloc, names, facts, Kind::Wire, &target)
}

fn one_wire_bad(
    alloc: Global,
    names: &Scope,
    facts: &Facts,
    nets: &[NetName],
) -> Result<bool, NoMemory>
    ensures { IfOk result (λ bad. bad ≡ list_any (λ n. is_some n.value && is_bad_target (names_of names.now) (kind_in Wire facts.now) (target.Whole n.name)) (map plain_net_name nets.now)) }
{
    for net in nets {
        if is_bad_wire(alloc, names, facts, net)? {
            return Ok(true);
        }
    }
    Ok(false)
}

fn one_assign_bad(
    alloc: Global,
    names: &Scope,
    facts: &Facts,
    assigns: &[Assign],
) -> Result<bool, NoMemory>
    ensures { IfOk result (λ bad. bad ≡ list_any (λ a. is_bad_target (names_of names.now) (kind_in Wire facts.now) a.target) (map plain_assign assigns.now)) }
{
    for assign in assigns {
        if is_bad_target(alloc, names, facts, Kind::Wire, &assign.target)? {
            return Ok(true);
        }
    }
    Ok(false)
}

fn is_link_bad(alloc: Global, site: Site, inner: Site, link: Linked) -> Result<bool, NoMemory>
    ensures { IfOk result (λ bad. bad ≡ is_bad_link (seen_site site.entry) (seen_site inner.entry) (plain_linked link.entry)) }
{
    if inner.is_input(link.name) {
        return Ok(false);
    }
    is_bad_output(
        alloc,
        &site.located.names,
        site.facts,
        Kind::Wire,
        link.value,
    )
}

fn one_link_bad(alloc: Global, site: Site, inner: Site, links: &[Linked]) -> Result<bool, NoMemory>
    ensures { IfOk result (λ bad. bad ≡ list_any (is_bad_link (seen_site site.entry) (seen_site inner.entry)) (map plain_linked links.now)) }
{
    for link in links {
        if is_link_bad(alloc, site, inner, *link)? {
            return Ok(true);
        }
    }
    Ok(false)
}

fn is_copy_bad<'a>(
    alloc: Global,
    whole: &Whole<'_, 'a>,
    site: Site<'_, 'a>,
    copy: &'a Copied,
) -> Result<bool, NoMemory>
    ensures { IfOk result (λ bad. bad ≡ has_bad_link (seen_site site.entry) (plain_copied copy.now) (placed_in whole.now site.entry.located.now (plain_copied copy.now))) }
{
    let Some(inner) = whole.copy_of(alloc, site.located, copy)? else {
        return Ok(false);
    };
    let links = inner.links_of(alloc, copy)?;
    one_link_bad(alloc, site, inner, &links)
}

fn one_copy_bad<'a>(
    alloc: Global,
    whole: &Whole<'_, 'a>,
    site: Site<'_, 'a>,
    copies: &'a [Copied],
) -> Result<bool, NoMemory>
    ensures { IfOk result (λ bad. bad ≡ list_any (λ c. has_bad_link (seen_site site.entry) c (placed_in whole.now site.entry.located.now c)) (map plain_copied copies.now)) }
{
    for copy in copies {
        if is_copy_bad(alloc, whole, site, copy)? {
            return Ok(true);
        }
    }
    Ok(false)
}

fn is_item_bad<'a>(
    alloc: Global,
    whole: &Whole<'_, 'a>,
    site: Site<'_, 'a>,
    item: &'a Item,
) -> Result<bool, NoMemory>
    ensures { IfOk result (λ bad. bad ≡ has_bad_target (placed_in whole.now site.entry.located.now) (seen_site site.entry) (plain_item item.now)) }
{
    let names = &site.located.names;
    match item {
        Item::Net(d) => one_wire_bad(alloc, names, site.facts, &d.names),
        Item::Assign(assigns) => one_assign_bad(alloc, names, site.facts, assigns),
        Item::Always(always) => has_bad_set(alloc, names, site.facts, Kind::Reg, &always.body),
        Item::Instance(instance) => one_copy_bad(alloc, whole, site, &instance.copies),
        Item::Port(_) | Item::Params(_) => Ok(false),
    }
}

#[tactic(auto, using(rst_names::proofs::RowLemmas::rows))]
fn items_pass<'a>(
    alloc: Global,
    whole: &Whole<'_, 'a>,
    site: Site<'_, 'a>,
    items: &'a [Item],
) -> Result<(), ElabError>
    ensures passes { OnOk result (first (target_row (placed_in whole.now site.entry.located.now) (seen_site site.entry) (map plain_item items.now)) ≡ None) }
    ensures refused { IfErr result (λ e. Refuses e (target_row (placed_in whole.now site.entry.located.now) (seen_site site.entry) (map plain_item items.now))) }
{
    for (place, item) in items.iter().enumerate() {
        let number = number_of(place)?;
        if is_item_bad(alloc, whole, site, item)? {
            let path = site.located.place.path.as_slice();
            return Err(refusal(alloc, ElabCode::BadTarget, path, number));
        }
    }
    Ok(())
}

#[tactic(auto, using(rst_names::proofs::RowLemmas::rows))]
fn place_passes<'w, 'a>(
    alloc: Global,
    whole: &Whole<'w, 'a>,
    located: &'w Located<'a>,
) -> Result<(), ElabError>
    ensures passes { OnOk result (first (at_place target_row whole.now located.now) ≡ None) }
    ensures refused { IfErr result (λ e. Refuses e (at_place target_row whole.now located.now)) }
{
    match whole.site(located) {
        Some(site) => items_pass(alloc, whole, site, &site.facts.module.items),
        None => Ok(()),
    }
}

#[tactic(auto, using(rst_names::proofs::RowLemmas::rows))]
fn places_pass<'w, 'a>(
    alloc: Global,
    whole: &Whole<'w, 'a>,
    all: &'w [Located<'a>],
) -> Result<(), ElabError>
    ensures passes { OnOk result (first (flat_map (at_place target_row whole.now) all.now) ≡ None) }
    ensures refused { IfErr result (λ e. Refuses e (flat_map (at_place target_row whole.now) all.now)) }
{
    for located in all {
        place_passes(alloc, whole, located)?;
    }
    Ok(())
}

/// Each target can be set where it stands.
pub fn targets_pass(alloc: Global, whole: &Whole) -> Result<(), ElabError>
    ensures passes { (modules : List PlainModule) → IsWhole modules whole.now → OnOk result (first (rows_over target_row (located_in modules whole.now)) ≡ None) }
    ensures refused { (modules : List PlainModule) → IsWhole modules whole.now → IfErr result (λ e. Refuses e (rows_over target_row (located_in modules whole.now))) }
{
    places_pass(alloc, whole, whole.all)
}
