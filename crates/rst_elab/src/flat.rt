// The signals of the flat design.

ghost use Rattle.std.specs.Prelude.{◌≡◌, ◌+◌, ◌++◌, map, length, slice_get, IfOk, OnOk};
ghost use Rattle.std.specs.List.{flat_map, enumerate_from, sum_by};
ghost use Rattle.std.specs.Option.{option_copied};
ghost use Rattle.rst_width.specs.Scopes.{extent_of};
ghost use Rattle.rst_net.specs.Units.{plain_signal};
ghost use Rattle.rst_names.specs.Tables.{plain_declared};
ghost use Rattle.rst_items.specs.Tables.{seen_site};
ghost use Rattle.rst_elab.specs.Flats.{is_top, role_of, outputs_in};
ghost use Rattle.rst_elab.specs.Tables.{driven_by, driven_in, extent_or, signal_by, signals_in};

use crate::clocks::is_clock_name;
use rst_drivers::Drive;
use rst_instances::{Located, flat_name};
use rst_items::{Site, Whole};
use rst_names::Declared;
use rst_net::{Role, Signal};
use rst_outside::{Name, NoMemory};
use rst_width::SignalShape;
use std::alloc::Global;

fn driven_role(drive: Option<&Drive>) -> Role
    ensures { result ≡ driven_by (option_copied drive.entry) }
{
    match drive {
        None => Role::Idle,
        Some(drive) => {
            if drive.by_clocked {
                Role::Register
            } else if drive.by_block {
                Role::Block
            } else if drive.assigned {
                Role::Wire
            } else {
                Role::Idle
            }
        }
    }
}

fn is_top(prefix: &Name) -> bool
    ensures { result ≡ is_top prefix.now }
{
    prefix.as_slice().is_empty()
}

// The role of the signal that is the number-th from `base` on, by what drives it.
fn driven_at(drives: &[Drive], base: u32, number: usize) -> Role
    ensures { result ≡ driven_in drives.now (base + number) }
{
    match (base as usize).checked_add(number) {
        Some(signal) => driven_role(drives.get(signal)),
        None => Role::Idle,
    }
}

fn role_of(site: Site, number: usize, d: &Declared, drives: &[Drive]) -> Role
    ensures { result ≡ role_of (driven_in drives.now) (seen_site site.entry) (site.entry.located.now.base + number) (plain_declared d.now) }
{
    let place = &site.located.place;
    if is_clock_name(place, site.facts, d.name) {
        Role::Clock
    } else if is_top(&place.prefix) && d.input {
        Role::Input
    } else {
        driven_at(drives, site.located.base, number)
    }
}

// The shape of a signal; a scalar's where there is none.
fn shape_at(shapes: &[SignalShape], number: usize) -> SignalShape
    ensures { extent_of result ≡ extent_or (slice_get shapes.now number) }
{
    match shapes.get(number) {
        Some(shape) => *shape,
        None => SignalShape {
            width: 1,
            low: 0,
            signed: false,
            ranged: false,
        },
    }
}

fn signal_of(
    alloc: Global,
    site: Site,
    number: usize,
    d: &Declared,
    drives: &[Drive],
) -> Result<Signal, NoMemory>
    ensures { IfOk result (λ s. plain_signal s ≡ signal_by drives.now site.entry.facts.now site.entry.located.now (number, plain_declared d.now)) }
{
    let name = flat_name(alloc, &site.located.place, d.name)?;
    Ok(Signal {
        name,
        shape: shape_at(&site.located.shapes, number),
        role: role_of(site, number, d, drives),
    })
}

fn push_signals(
    alloc: Global,
    site: Site,
    drives: &[Drive],
    made: &mut Vec<Signal>,
) -> Result<(), NoMemory>
    ensures { OnOk result (map plain_signal made.new.items ≡ map plain_signal made.old.items ++ map (signal_by drives.now site.entry.facts.now site.entry.located.now) (enumerate_from 0 (map plain_declared site.entry.facts.now.signals.items))) }
{
    for (number, d) in site.facts.signals.iter().enumerate() {
        let signal = signal_of(alloc, site, number, d, drives)?;
        made.push(signal)?;
    }
    Ok(())
}

fn push_place<'w, 'a>(
    alloc: Global,
    whole: &Whole<'w, 'a>,
    located: &'w Located<'a>,
    drives: &[Drive],
    made: &mut Vec<Signal>,
) -> Result<(), NoMemory>
    ensures { OnOk result (map plain_signal made.new.items ≡ map plain_signal made.old.items ++ signals_in drives.now whole.now located.now) }
{
    match whole.site(located) {
        Some(site) => push_signals(alloc, site, drives, made),
        None => Ok(()),
    }
}

fn push_places<'w, 'a>(
    alloc: Global,
    whole: &Whole<'w, 'a>,
    all: &'w [Located<'a>],
    drives: &[Drive],
    made: &mut Vec<Signal>,
) -> Result<(), NoMemory>
    ensures { OnOk result (map plain_signal made.new.items ≡ map plain_signal made.old.items ++ flat_map (signals_in drives.now whole.now) all.now) }
{
    for located in all {
        push_place(alloc, whole, located, drives, made)?;
    }
    Ok(())
}

/// All signals, in flat order.
pub fn signals_of(alloc: Global, whole: &Whole, drives: &[Drive]) -> Result<Vec<Signal>, NoMemory>
    ensures { IfOk result (λ made. map plain_signal made.items ≡ flat_map (signals_in drives.now whole.now) whole.now.all.now) }
{
    let mut made = Vec::new(alloc);
    push_places(alloc, whole, whole.all, drives, &mut made)?;
    Ok(made)
}

fn number_of(place: usize) -> Result<u32, NoMemory>
    ensures { IfOk result (λ number. number ≡ place) }
{
    if place <= 4_294_967_295 {
        Ok(place as u32)
    } else {
        Err(NoMemory)
    }
}

/// The numbers of the outputs among the signals of the top.
pub fn outputs_of(alloc: Global, signals: &[Declared]) -> Result<Vec<u32>, NoMemory>
    ensures { IfOk result (λ made. made.items ≡ outputs_in (map plain_declared signals.now)) }
{
    let mut made = Vec::new(alloc);
    for (number, d) in signals.iter().enumerate() {
        if d.output {
            made.push(number_of(number)?)?;
        }
    }
    Ok(made)
}

/// How many signals there are in all instances.
pub fn signal_count(all: &[Located]) -> Result<usize, NoMemory>
    ensures { IfOk result (λ count. count ≡ sum_by (λ l. length l.shapes.items) all.now) }
{
    let mut count = 0usize;
    for located in all {
        count = count.checked_add(located.shapes.len()).ok_or(NoMemory)?;
    }
    Ok(count)
}
