// What drives each signal.

ghost use Rattle.std.specs.Prelude.{◌≡◌, ℕ, ◌<◌, ◌∷◌, ◌++◌, [], length, IfOk, OnOk, map};
ghost use Rattle.rst_net.specs.Units.{plain_driver};
ghost use Rattle.rst_flow.specs.Tables.{table_of, row, picked, IsTable};

use rst_blocks::driven_by;
use rst_net::{Driver, Slice};
use std::alloc::{AllocError, AllocFailed, Global};

/// Bits of a signal that a unit drives: the unit's number, the place of the lowest bit, and how many.
#[derive(Clone, Copy)]
pub struct Drive {
    pub unit: usize,
    pub low: u8,
    pub width: u8,
}

fn add_drive(
    drives: &mut Vec<Vec<Drive>>,
    signal: usize,
    drive: Drive,
) -> Result<(), AllocFailed<Drive>>
    ensures same_length { length drives.new.items ≡ length drives.old.items }
    ensures added { OnOk result (signal < length drives.old.items → row (table_of drives.new.items) signal ≡ row (table_of drives.old.items) signal ++ drive ∷ []) }
    ensures others { OnOk result ((i : ℕ) → (i ≡ signal → ⊥) → row (table_of drives.new.items) i ≡ row (table_of drives.old.items) i) }
{
    if signal < drives.len() {
        let list = &mut drives[signal];
        list.push(drive)?;
    }
    Ok(())
}

fn add_drives(
    drives: &mut Vec<Vec<Drive>>,
    unit: usize,
    slices: &[Slice],
) -> Result<(), AllocFailed<Drive>>
    ensures same_length { length drives.new.items ≡ length drives.old.items }
    ensures added { OnOk result ((i : ℕ) → i < length drives.old.items → row (table_of drives.new.items) i ≡ row (table_of drives.old.items) i ++ picked i unit slices.now) }
{
    for slice in slices {
        let drive = Drive {
            unit,
            low: slice.low,
            width: slice.width,
        };
        add_drive(drives, slice.signal as usize, drive)?;
    }
    Ok(())
}

fn no_drives(alloc: Global, signals: usize) -> Result<Vec<Vec<Drive>>, AllocError>
    ensures same_length { IfOk result (λ drives. length drives.items ≡ signals) }
    ensures none { IfOk result (λ drives. (i : ℕ) → row (table_of drives.items) i ≡ []) }
{
    let mut drives = Vec::with_capacity(alloc, signals)?;
    for _ in 0..signals {
        drives.push(Vec::new(alloc))?;
    }
    Ok(drives)
}

/// What drives each signal.
pub fn drives_of(
    alloc: Global,
    signals: usize,
    units: &[Driver],
) -> Result<Vec<Vec<Drive>>, AllocError>
    ensures { IfOk result (λ drives. IsTable signals (map plain_driver units.now) (table_of drives.items)) }
{
    let mut drives = no_drives(alloc, signals)?;
    for unit in 0..units.len() {
        let slices = driven_by(alloc, &units[unit])?;
        add_drives(&mut drives, unit, &slices)?;
    }
    Ok(drives)
}

/// What drives a signal.
pub fn drives_at<'a>(drives: &'a [Vec<Drive>], signal: usize) -> &'a [Drive]
    ensures { result.now ≡ row (table_of drives.now) signal }
{
    if signal < drives.len() {
        &drives[signal]
    } else {
        &[]
    }
}
