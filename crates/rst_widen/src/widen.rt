ghost use Rattle.std.specs.Prelude.{◌≡◌, ◌+◌, ◌<◌, ◌≤◌, Bool, List, length, map, IfOk, OnOk};
ghost use Rattle.std.specs.Option.{ForSome};
ghost use Rattle.std.specs.List.{AllZip};
ghost use Rattle.rst_value.specs.TernLaws.{Refines};
ghost use Rattle.rst_value.specs.Terns.{known};
ghost use Rattle.rst_pair.specs.Sides.{IsCube};
ghost use Rattle.rst_pair.specs.Hops.{blocked_aim, freed_aim, IsHop, IsRight, Passes, IsWidestHop};
ghost use Rattle.rst_pair.specs.Fronts.{IsFront};
ghost use Rattle.rst_widen.specs.Widening.{tried, plain_aim, AimFits, IsAt, IsWidened};

use crate::aim::{Aim, show};
use crate::cycle::cycle_into;
use crate::order::order_of;
use rst_gate::{Cube, Frame, known_cube};
use rst_outside::NoMemory;
use rst_pair::{Front, Hop, Pair};
use rst_sim::tern_cycle;
use rst_value::Tern;
use std::alloc::Global;
use std::mem::swap;

// A cube of pairs, the three-valued cycles of both sides from it, and what the next one is read into.
#[derive(Drop)]
struct Widening {
    cube: Vec<Tern>,
    left: Frame<Tern>,
    right: Frame<Tern>,
    nodes: Vec<Tern>,
    next: Frame<Tern>,
}

// Makes a place of the left side X where the cycles still show what is aimed at.
fn try_left(
    pair: &Pair,
    aim: Aim,
    input: &[Tern],
    now: &mut Widening,
    place: usize,
) -> Result<(), NoMemory>
    requires fits { AimFits (pair.now.left.states + pair.now.right.states) aim }
    requires input { length input.now ≡ pair.now.left.inputs }
    requires place { place < pair.now.left.states }
    requires at { IsAt pair.now input.now now.old }
    ensures tried { OnOk result ((bits : List Bool) → input.now ≡ map known bits → now.new.cube.items ≡ tried pair.now (plain_aim aim.entry) bits now.old.cube.items place) }
    ensures at { OnOk result (IsAt pair.now input.now now.new) }
{
    let left = pair.left;
    let count = left.states as usize;
    let before = now.cube[place];
    now.cube[place] = Tern::Unknown;
    cycle_into(
        left,
        &now.cube[..count],
        input,
        &mut now.nodes,
        &mut now.next,
    )?;
    if show(aim, &now.next, &now.right) {
        swap(&mut now.left, &mut now.next);
    } else {
        now.cube[place] = before;
    }
    Ok(())
}

// Makes a place of the right side X where the cycles still show what is aimed at.
fn try_right(
    pair: &Pair,
    aim: Aim,
    input: &[Tern],
    now: &mut Widening,
    place: usize,
) -> Result<(), NoMemory>
    requires fits { AimFits (pair.now.left.states + pair.now.right.states) aim }
    requires input { length input.now ≡ pair.now.left.inputs }
    requires left { pair.now.left.states ≤ place }
    requires place { place < length now.old.cube.items }
    requires at { IsAt pair.now input.now now.old }
    ensures tried { OnOk result ((bits : List Bool) → input.now ≡ map known bits → now.new.cube.items ≡ tried pair.now (plain_aim aim.entry) bits now.old.cube.items place) }
    ensures at { OnOk result (IsAt pair.now input.now now.new) }
{
    let left = pair.left;
    let right = pair.right;
    let count = left.states as usize;
    let before = now.cube[place];
    now.cube[place] = Tern::Unknown;
    cycle_into(
        right,
        &now.cube[count..],
        input,
        &mut now.nodes,
        &mut now.next,
    )?;
    if show(aim, &now.left, &now.next) {
        swap(&mut now.right, &mut now.next);
    } else {
        now.cube[place] = before;
    }
    Ok(())
}

// Makes a place X where the cycles still show what is aimed at.
fn try_place(
    pair: &Pair,
    aim: Aim,
    input: &[Tern],
    now: &mut Widening,
    place: usize,
) -> Result<(), NoMemory>
    requires fits { AimFits (pair.now.left.states + pair.now.right.states) aim }
    requires input { length input.now ≡ pair.now.left.inputs }
    requires place { place < length now.old.cube.items }
    requires at { IsAt pair.now input.now now.old }
    ensures tried { OnOk result ((bits : List Bool) → input.now ≡ map known bits → now.new.cube.items ≡ tried pair.now (plain_aim aim.entry) bits now.old.cube.items place) }
    ensures at { OnOk result (IsAt pair.now input.now now.new) }
{
    let left = pair.left;
    if now.cube[place] == Tern::Unknown {
        return Ok(());
    }
    if place < left.states as usize {
        try_left(pair, aim, input, now, place)
    } else {
        try_right(pair, aim, input, now, place)
    }
}

// Makes place after place X where the cube still passes.
fn widen(
    alloc: Global,
    pair: &Pair,
    aim: Aim,
    cube: &[Tern],
    input: &[bool],
) -> Result<Cube, NoMemory>
    requires fits { AimFits (pair.now.left.states + pair.now.right.states) aim }
    requires cube { IsCube pair.now cube.now }
    requires input { length input.now ≡ pair.now.left.inputs }
    ensures { IfOk result (λ c. IsWidened pair.now (plain_aim aim.entry) input.now cube.now c) }
{
    let left = pair.left;
    let right = pair.right;
    let count = left.states as usize;
    let order = order_of(alloc, left, right)?;
    let bits = known_cube(alloc, input)?;
    let known = bits.as_slice();
    let places = Vec::from_slice(alloc, cube)?;
    let left_frame = tern_cycle(alloc, left, &cube[..count], known)?;
    let right_frame = tern_cycle(alloc, right, &cube[count..], known)?;
    let mut now = Widening {
        cube: places,
        left: left_frame,
        right: right_frame,
        nodes: Vec::new(alloc),
        next: Frame {
            outs: Vec::new(alloc),
            nexts: Vec::new(alloc),
        },
    };
    for place in order.as_slice() {
        try_place(pair, aim, known, &mut now, *place)?;
    }
    Ok(Cube::from_vec(now.cube))
}

fn blocked_aim_of<'a>(front: &'a Front, next: Option<u32>) -> Aim<'a>
    requires { ForSome next (λ k. k < length front.now.blocked) }
    ensures { plain_aim result ≡ blocked_aim front.now.blocked next }
{
    match next {
        Some(next) => Aim::Inside(&front.blocked[next as usize].cube),
        None => Aim::Differ,
    }
}

fn freed_aim_of<'a>(front: &'a Front, next: Option<u32>) -> Aim<'a>
    requires { ForSome next (λ k. k < length front.now.freed) }
    ensures { plain_aim result ≡ freed_aim front.now.blocked front.now.freed next }
{
    match next {
        Some(next) => Aim::Inside(&front.freed[next as usize].cube),
        None => Aim::Outside(front.blocked.as_slice()),
    }
}

/// Makes the cube of a blocked hop wider, as far as one three-valued cycle from it still shows that
/// its input leads into the next hop's cube, or without one to different outputs.
///
/// The hop is to join the blocked ones. It is right for each pair of its cube, and so is the answer
/// (`right`), whose cube contains the given one (`contains`). Where the given hop passes the answer
/// does (`passes`), and no further known place of its cube can be made X (`widest`). At most one
/// three-valued cycle of one side is read for each place, in the order of the fewest readers. It is
/// refused for want of memory alone.
pub fn widen_blocked(
    alloc: Global,
    pair: &Pair,
    front: &Front,
    mut hop: Hop,
) -> Result<Hop, NoMemory>
    requires front { IsFront pair.now front.now }
    requires hop { IsHop pair.now (length front.now.blocked) hop }
    requires right { IsRight pair.now (blocked_aim front.now.blocked hop.next) hop }
    ensures right { IfOk result (λ h. IsRight pair.now (blocked_aim front.now.blocked hop.next) h) }
    ensures contains { IfOk result (λ h. AllZip Refines h.cube hop.cube) }
    ensures passes { IfOk result (λ h. Passes pair.now (blocked_aim front.now.blocked hop.next) hop → Passes pair.now (blocked_aim front.now.blocked hop.next) h) }
    ensures widest { IfOk result (λ h. IsWidestHop pair.now (blocked_aim front.now.blocked hop.next) h) }
    ensures input { IfOk result (λ h. h.input ≡ hop.input) }
    ensures next { IfOk result (λ h. h.next ≡ hop.next) }
{
    let aim = blocked_aim_of(front, hop.next);
    hop.cube = widen(alloc, pair, aim, hop.cube.as_slice(), hop.input.as_slice())?;
    Ok(hop)
}

/// Makes the cube of a freed hop wider, as far as one three-valued cycle from it still shows that
/// its input leads into the next hop's cube, or without one into no blocked cube.
///
/// It is as `widen_blocked`, for a hop that is to join the freed ones.
pub fn widen_freed(alloc: Global, pair: &Pair, front: &Front, mut hop: Hop) -> Result<Hop, NoMemory>
    requires front { IsFront pair.now front.now }
    requires hop { IsHop pair.now (length front.now.freed) hop }
    requires right { IsRight pair.now (freed_aim front.now.blocked front.now.freed hop.next) hop }
    ensures right { IfOk result (λ h. IsRight pair.now (freed_aim front.now.blocked front.now.freed hop.next) h) }
    ensures contains { IfOk result (λ h. AllZip Refines h.cube hop.cube) }
    ensures passes { IfOk result (λ h. Passes pair.now (freed_aim front.now.blocked front.now.freed hop.next) hop → Passes pair.now (freed_aim front.now.blocked front.now.freed hop.next) h) }
    ensures widest { IfOk result (λ h. IsWidestHop pair.now (freed_aim front.now.blocked front.now.freed hop.next) h) }
    ensures input { IfOk result (λ h. h.input ≡ hop.input) }
    ensures next { IfOk result (λ h. h.next ≡ hop.next) }
{
    let aim = freed_aim_of(front, hop.next);
    hop.cube = widen(alloc, pair, aim, hop.cube.as_slice(), hop.input.as_slice())?;
    Ok(hop)
}
