// Which units precede which.

ghost use Rattle.std.specs.Prelude.{◌≡◌, ◌++◌, IfOk, OnOk, map};
ghost use Rattle.rst_order.specs.Graphs.{graph_of};
ghost use Rattle.rst_net.specs.Units.{plain_driver};
ghost use Rattle.rst_flow.specs.Tables.{table_of, row, overlap, is_own, is_feeding, feeding, feeding_all, own_of, graph_from};

use crate::drives::{Drive, drives_at};
use rst_blocks::read_by_unit;
use rst_net::{Driver, Slice};
use std::alloc::{AllocError, AllocFailed, Global};

/// Whether a drive and a slice of its signal have a bit in common.
fn overlap(drive: Drive, slice: Slice) -> bool
    ensures { result ≡ overlap drive slice }
{
    let first = (drive.low as u16).max(slice.low as u16);
    first < drive.low as u16 + drive.width as u16 && first < slice.low as u16 + slice.width as u16
}

fn is_own(own: Option<usize>, unit: usize) -> bool
    ensures { result ≡ is_own own unit }
{
    match own {
        None => false,
        Some(own) => own == unit,
    }
}

fn is_feeding(own: Option<usize>, slice: Slice, drive: Drive) -> bool
    ensures { result ≡ is_feeding own slice drive }
{
    !is_own(own, drive.unit) && overlap(drive, slice)
}

fn add_feeding(
    own: Option<usize>,
    slice: Slice,
    drives: &[Drive],
    found: &mut Vec<usize>,
) -> Result<(), AllocFailed<usize>>
    ensures { OnOk result (found.new.items ≡ found.old.items ++ feeding own slice drives.now) }
{
    for drive in drives {
        if is_feeding(own, slice, *drive) {
            found.push(drive.unit)?;
        }
    }
    Ok(())
}

fn add_all(
    drives: &[Vec<Drive>],
    own: Option<usize>,
    slices: &[Slice],
    found: &mut Vec<usize>,
) -> Result<(), AllocFailed<usize>>
    ensures { OnOk result (found.new.items ≡ found.old.items ++ feeding_all (table_of drives.now) own slices.now) }
{
    for slice in slices {
        add_feeding(own, *slice, drives_at(drives, slice.signal as usize), found)?;
    }
    Ok(())
}

fn own_of(unit: usize, driver: &Driver) -> Option<usize>
    ensures { result ≡ own_of unit (plain_driver driver.now) }
{
    match driver {
        Driver::Assign(_) => None,
        Driver::Process(_) => Some(unit),
    }
}

/// For each unit those that drive a bit that it reads; a block's own bits don't count for itself.
pub fn predecessors_of(
    alloc: Global,
    units: &[Driver],
    drives: &[Vec<Drive>],
) -> Result<Vec<Vec<usize>>, AllocError>
    ensures { IfOk result (λ graph. graph_of graph.items ≡ graph_from (table_of drives.now) 0 (map plain_driver units.now)) }
{
    let mut predecessors = Vec::with_capacity(alloc, units.len())?;
    for unit in 0..units.len() {
        let slices = read_by_unit(alloc, &units[unit])?;
        let mut found = Vec::new(alloc);
        add_all(drives, own_of(unit, &units[unit]), &slices, &mut found)?;
        predecessors.push(found)?;
    }
    Ok(predecessors)
}
