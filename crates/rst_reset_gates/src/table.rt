// The resets of the registers' bits.
ghost use Rattle.std.specs.Prelude.{◌≡◌, replicate, map, slice_index_or, slice_set, Some, None, IfOk};
ghost use Rattle.rst_net.specs.Units.{plain_signal};
ghost use Rattle.rst_reset_gates.specs.Tables.{row_of, row_width, no_resets};

use rst_net::{Role, Signal};
use rst_outside::NoMemory;
use std::alloc::Global;
use std::marker::Model;

/// An asynchronous reset of one bit: its signal, the level at which it holds, and the value that it forces.
#[derive(Clone, Copy, Debug, PartialEq, Eq)]
pub struct BitReset {
    pub signal: u32,
    pub level: bool,
    pub value: bool,
}

/// The reset of each bit of a register, lowest bit first, by the signal's number. Other signals have no bits.
#[derive(Drop)]
pub struct ResetTable {
    rows: Vec<Vec<Option<BitReset>>>,
}

impl Model for ResetTable {
    ghost use Rattle.std.specs.Prelude.{List, map, Option};
    ghost use Rattle.std.specs.declared.vec.Vec.{Vec};
    ghost use Rattle.std.specs.declared.alloc.Global.{Global};
    ghost use Rattle.rst_reset_gates.specs.declared.table.BitReset.{BitReset};

    ghost Value = { List (List (Option BitReset)) };

    ghost view = { λ t. map (λ (v : Vec (Option BitReset) Global). v.items) t.rows.items };
}

// How many bits the row of a signal has.
fn row_width(signal: &Signal) -> u8
    ensures { result ≡ row_width signal.now.role signal.now.shape.width }
{
    match signal.role {
        Role::Register => signal.shape.width,
        Role::Clock | Role::Input | Role::Block | Role::Wire | Role::Idle => 0,
    }
}

// So many bits without a reset.
fn no_reset(alloc: Global, width: u8) -> Result<Vec<Option<BitReset>>, NoMemory>
    ensures { IfOk result (λ r. r.items ≡ replicate width None) }
{
    let mut row = Vec::new(alloc);
    for _ in 0..width {
        row.push(None)?;
    }
    Ok(row)
}

impl ResetTable {
    /// No bit has a reset.
    pub fn new(alloc: Global, signals: &[Signal]) -> Result<ResetTable, NoMemory>
        ensures { IfOk result (λ table. table ≡ no_resets (map plain_signal signals.now)) }
    {
        let mut rows = Vec::new(alloc);
        for signal in signals {
            let row = no_reset(alloc, row_width(signal))?;
            rows.push(row)?;
        }
        Ok(ResetTable { rows })
    }

    /// The reset of a bit.
    pub fn at(&self, signal: usize, place: usize) -> Option<BitReset>
        ensures { result ≡ slice_index_or (row_of self.now signal) place None }
    {
        if signal < self.rows.len() {
            let row = self.rows[signal].as_slice();
            if place < row.len() {
                return row[place];
            }
        }
        None
    }

    /// Gives a bit of a register its reset.
    pub fn put(&mut self, signal: u32, place: u8, reset: BitReset)
        ensures { self.new ≡ slice_set self.old signal (slice_set (row_of self.old signal) place (Some reset)) }
    {
        let signal = signal as usize;
        if signal < self.rows.len() {
            let row = &mut self.rows[signal];
            if (place as usize) < row.len() {
                row[place as usize] = Some(reset);
            }
        }
    }
}
