// The blocks of an instance.

ghost use Rattle.std.specs.Prelude.{◌≡◌, [], map, IfOk, OnOk, IfErr};
ghost use Rattle.std.specs.Option.{option_map};
ghost use Rattle.rst_tree.specs.Statements.{plain_stmt as plain_tree};
ghost use Rattle.rst_tree.specs.Modules.{plain_events, plain_always};
ghost use Rattle.rst_width.specs.Scopes.{names_of};
ghost use Rattle.rst_net.specs.Units.{plain_process};
ghost use Rattle.rst_instances.specs.Tables.{leads_to};
ghost use Rattle.rst_typing.specs.Typing.{stmt_faults};
ghost use Rattle.rst_typing.specs.Refusals.{IsFirst};
ghost use Rattle.rst_items.specs.Items.{number_at, listened, block_in, reset_of, clocked_body, clocked_in};
ghost use Rattle.rst_items.specs.Tables.{plain_form};

use rst_instances::Joined;
use rst_items::{ResetForm, Site, bare_stmt};
use rst_net::{Process, Reset};
use rst_outside::Name;
use rst_tree::{Always, Event, Events, Stmt};
use rst_typing::typed_stmt;
use rst_width::{Entry, Scope, WidthFault};
use std::alloc::{AllocError, Global};

/// The number of a signal, 0 for what is none.
pub fn number_at(names: &Scope, name: &Name) -> u32
    ensures { result ≡ number_at (names_of names.now) name.now }
{
    match names.entry(name) {
        Some(Entry::Signal(number, _)) => number,
        _ => 0,
    }
}

fn numbers(alloc: Global, names: &Scope, events: &[Event]) -> Result<Vec<u32>, AllocError>
    ensures { IfOk result (λ v. v.items ≡ map (λ e. number_at (names_of names.now) e.name) events.now) }
{
    let mut made = Vec::new(alloc);
    for event in events {
        made.push(number_at(names, &event.name))?;
    }
    Ok(made)
}

fn listened(alloc: Global, names: &Scope, events: &Events) -> Result<Option<Vec<u32>>, AllocError>
    ensures { IfOk result (λ o. option_map (λ v. v.items) o ≡ listened (names_of names.now) (plain_events events.now)) }
{
    match events {
        Events::Any => Ok(None),
        Events::List(events) => {
            let made = numbers(alloc, names, events)?;
            Ok(Some(made))
        }
    }
}

/// A combinational block.
pub fn block_at(
    alloc: Global,
    site: Site,
    item: u32,
    always: &Always,
) -> Result<Process, WidthFault>
    ensures exact { IfOk result (λ p. plain_process p ≡ block_in (names_of site.entry.located.now.names) site.entry.located.now.place.path item (plain_always always.now)) }
    ensures passes { OnOk result (stmt_faults (names_of site.entry.located.now.names) (plain_tree always.now.body) ≡ []) }
    ensures refused { IfErr result (λ e. IsFirst e (stmt_faults (names_of site.entry.located.now.names) (plain_tree always.now.body))) }
{
    let names = &site.located.names;
    let body = Box::new(alloc, typed_stmt(alloc, names, &always.body)?)?;
    let listens = listened(alloc, names, &always.events)?;
    let path = Name::new(alloc, site.located.place.path.as_slice())?;
    Ok(Process {
        body,
        listens,
        path,
        item,
        reset: None,
    })
}

fn reset_of(site: Site, form: Option<ResetForm>) -> Option<Reset>
    ensures { result ≡ reset_of (leads_to site.entry.located.now.place site.entry.facts.now) (option_map plain_form form.entry) }
{
    match form {
        Some(form) => reset_to(site, form),
        None => None,
    }
}

fn reset_to(site: Site, form: ResetForm) -> Option<Reset>
    ensures { result ≡ reset_of (leads_to site.entry.located.now.place site.entry.facts.now) (Some (plain_form form.entry)) }
{
    match site.located.place.joined(site.facts, form.reset) {
        Joined::ToInput(signal) => Some(Reset {
            signal,
            level: form.level,
        }),
        _ => None,
    }
}

// The statement of a clocked block.
fn clocked_body<'a>(form: Option<ResetForm>, body: &'a Stmt) -> &'a Stmt
    ensures { plain_tree result.now ≡ clocked_body (option_map plain_form form.entry) (plain_tree body.now) }
{
    match form {
        Some(_) => bare_stmt(body),
        None => body,
    }
}

/// A clocked block, which has this reset form.
pub fn clocked_at(
    alloc: Global,
    site: Site,
    item: u32,
    form: Option<ResetForm>,
    body: &Stmt,
) -> Result<Process, WidthFault>
    ensures exact { IfOk result (λ p. plain_process p ≡ clocked_in (names_of site.entry.located.now.names) (leads_to site.entry.located.now.place site.entry.facts.now) site.entry.located.now.place.path item (option_map plain_form form.entry) (plain_tree body.now)) }
    ensures passes { OnOk result (stmt_faults (names_of site.entry.located.now.names) (plain_tree body.now) ≡ []) }
    ensures refused { IfErr result (λ e. IsFirst e (stmt_faults (names_of site.entry.located.now.names) (plain_tree body.now))) }
{
    let names = &site.located.names;
    let body = Box::new(alloc, typed_stmt(alloc, names, clocked_body(form, body))?)?;
    let path = Name::new(alloc, site.located.place.path.as_slice())?;
    Ok(Process {
        body,
        listens: None,
        path,
        item,
        reset: reset_of(site, form),
    })
}
