// From the flat design to the netlist, or the first row that refuses it.

ghost use Rattle.std.specs.Prelude.{◌≡◌, ℕ, ◌≤◌, ◌<◌, length, map, IfOk, IfErr, OnOk, MatchBool};
ghost use Rattle.rst_order.specs.Graphs.{graph_of};
ghost use Rattle.rst_net.specs.Units.{plain_signal, plain_driver, plain_process, plain_flat};
ghost use Rattle.rst_weight.specs.Weights.{weight};
ghost use Rattle.rst_flow.specs.Edges.{IsUnitOrder, IsFirstLooped};
ghost use Rattle.rst_flow.specs.Flows.{name_at, BlocksPass, Passes, IsRefusal};
ghost use Rattle.rst_flow.specs.Nets.{HasFewBits};
ghost use Rattle.rst_flow.specs.Results.{IsNet};
ghost use Rattle.rst_flow.specs.Tables.{IsOrderFault};
ghost use Rattle.rst_flow.specs.declared.flowing.FlowError.TheVariants.{NoMemory};
ghost use Rattle.rst_flow.specs.declared.flowing.OrderFault.TheVariants as order_fault;

use crate::drives::drives_of;
use crate::edges::predecessors_of;
use crate::loops::first_looped;
use crate::net::Net;
use crate::ordering::ordered;
use rst_blocks::{first_held, first_unlisted, wrong_set};
use rst_net::{Driver, Flat, Signal};
use rst_order::{OrderError, dependency_order};
use rst_outside::{Name, NoMemory};
use std::alloc::{AllocError, AllocFailed, Global};

/// The most that a design may weigh.
const WEIGHT: u64 = 16_384;

/// Why a flat design has no netlist.
#[derive(Drop)]
pub enum FlowError {
    /// A clocked block has a blocking set, or another block a nonblocking one: the first target of the first such set.
    Blocking(Name),
    /// A combinational block with an event list reads this signal, and neither sets nor lists it.
    Sensitivity(Name),
    /// A combinational block can end with a bit of this signal not set that it sets elsewhere, or read it before it is set.
    Latch(Name),
    /// A bit of this signal is driven by a unit that lies on a cycle of units.
    Loop(Name),
    /// The design weighs more than 16,384.
    Limit,
    /// Memory ran out.
    NoMemory,
}

impl From<AllocError> for FlowError {
    ghost from_gives = { λ _ e. e ≡ NoMemory };

    fn from(_: AllocError) -> FlowError {
        FlowError::NoMemory
    }
}

impl From<NoMemory> for FlowError {
    ghost from_gives = { λ _ e. e ≡ NoMemory };

    fn from(_: NoMemory) -> FlowError {
        FlowError::NoMemory
    }
}

/// Why units have no order.
pub enum OrderFault {
    /// A bit of this signal is driven by a unit that lies on a cycle of units.
    Loop(usize),
    NoMemory,
}

impl From<AllocError> for OrderFault {
    ghost from_gives = { λ _ e. e ≡ order_fault.NoMemory };

    fn from(_: AllocError) -> OrderFault {
        OrderFault::NoMemory
    }
}

/// The name of a signal.
fn name_of(alloc: Global, flat: &Flat, signal: usize) -> Result<Name, NoMemory>
    ensures { IfOk result (λ name. name ≡ name_at (plain_flat flat.now) signal) }
{
    match flat.signals.get(signal) {
        Some(signal) => Name::new(alloc, signal.name.as_slice()),
        None => Name::new(alloc, &[]),
    }
}

/// The rows on blocks.
fn blocks_pass(alloc: Global, flat: &Flat) -> Result<(), FlowError>
    ensures passes { OnOk result (BlocksPass (plain_flat flat.now)) }
    ensures refused { IfErr result (IsRefusal (plain_flat flat.now)) }
{
    if let Some(signal) = wrong_set(&flat.units, &flat.clocked) {
        return Err(FlowError::Blocking(name_of(alloc, flat, signal as usize)?));
    }
    if let Some(signal) = first_unlisted(alloc, &flat.units)? {
        return Err(FlowError::Sensitivity(name_of(alloc, flat, signal as usize)?));
    }
    if let Some(signal) = first_held(alloc, &flat.units)? {
        return Err(FlowError::Latch(name_of(alloc, flat, signal as usize)?));
    }
    Ok(())
}

/// The order of units: again and again the first in flat order whose predecessors all stand already.
fn order_of(alloc: Global, signals: usize, units: &[Driver]) -> Result<Vec<usize>, OrderFault>
    ensures order { IfOk result (λ order. IsUnitOrder signals (map plain_driver units.now) order.items) }
    ensures looped { IfErr result (IsOrderFault signals (map plain_driver units.now)) }
{
    let drives = drives_of(alloc, signals, units)?;
    let predecessors = predecessors_of(alloc, units, &drives)?;
    match dependency_order(alloc, &predecessors) {
        Ok(order) => Ok(order),
        Err(OrderError::NoMemory) => Err(OrderFault::NoMemory),
        Err(OrderError::Cycle) => match first_looped(alloc, &predecessors, &drives)? {
            Some(signal) => Err(OrderFault::Loop(signal)),
            None => unreachable!(),
        },
    }
}

/// Whether the design weighs too much.
fn is_heavy(alloc: Global, flat: &Flat) -> Result<bool, AllocError>
    ensures { IfOk result (λ heavy. MatchBool heavy (16384 < weight (plain_flat flat.now)) (weight (plain_flat flat.now) ≤ 16384)) }
{
    let all = rst_weight::weight(alloc, &flat.signals, &flat.units, &flat.clocked)?;
    Ok(all > WEIGHT)
}

/// The netlist of a design that passes.
fn net_of(alloc: Global, flat: Flat, order: &[usize]) -> Result<Net, AllocError>
    requires passes { Passes (plain_flat flat) order.now }
    requires few { HasFewBits (map plain_signal flat.signals.items) flat.outputs.items }
    ensures { IfOk result (IsNet (plain_flat flat)) }
{
    let Flat {
        signals,
        units,
        clocked,
        outputs,
    } = flat;
    let units = ordered(alloc, units, order)?;
    Ok(Net {
        signals,
        units,
        clocked,
        outputs,
    })
}

/// The netlist of a flat design: the same signals, clocked blocks and outputs, and the units in the order in which again and again
/// comes the first in flat order whose predecessors all stand already.
///
/// The design has few enough bits, as every answer of elaboration has.
///
/// An error comes exactly where its row holds and no earlier one does. Its name is that of the row's first signal.
pub fn flow(alloc: Global, flat: Flat) -> Result<Net, FlowError>
    requires few { HasFewBits (map plain_signal flat.signals.items) flat.outputs.items }
    ensures net { IfOk result (IsNet (plain_flat flat)) }
    ensures refused { IfErr result (IsRefusal (plain_flat flat)) }
{
    blocks_pass(alloc, &flat)?;
    match order_of(alloc, flat.signals.len(), &flat.units) {
        Err(OrderFault::NoMemory) => Err(FlowError::NoMemory),
        Err(OrderFault::Loop(signal)) => Err(FlowError::Loop(name_of(alloc, &flat, signal)?)),
        Ok(order) => {
            if is_heavy(alloc, &flat)? {
                return Err(FlowError::Limit);
            }
            Ok(net_of(alloc, flat, &order)?)
        }
    }
}
