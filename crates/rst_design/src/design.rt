// From modules to the flat design, and from it to the netlist.

ghost use Rattle.std.specs.Prelude.{◌≡◌, ◌≤◌, length, map, Ok, IfOk, IfErr};
ghost use Rattle.std.specs.List.{All};
ghost use Rattle.std.specs.Option.{option_copied};
ghost use Rattle.rst_tree.specs.WellFormed.{WellFormed};
ghost use Rattle.rst_net.specs.Units.{plain_signal, plain_flat};
ghost use Rattle.rst_hierarchy.specs.Tables.{modules_in};
ghost use Rattle.rst_flow.specs.Nets.{HasFewBits};
ghost use Rattle.rst_flow.specs.Results.{IsNet};
ghost use Rattle.rst_reject.specs.Rejects.{IfRejected};
ghost use Rattle.rst_reject.specs.Steps.{StopsBy};
ghost use Rattle.rst_design.specs.Texts.{texts_of, IsShort};
ghost use Rattle.rst_design.specs.Netlists.{IsNetlistOf};
ghost use Rattle.rst_design.specs.Answers.{ElaborationGives, FlowGives, IsRefused};

use crate::texts::sources_of;
use rst_causes::{elaboration_stop, flow_stop};
use rst_elab::{ElabError, elaborate};
use rst_flow::{Net, flow};
use rst_net::Flat;
use rst_reject::Stop;
use rst_tree::Source;
use std::alloc::Global;

// The flat design of modules below a top. The trees are let go of behind it.
fn flat_of(
    alloc: Global,
    sources: Vec<Source>,
    top: &[u8],
    clock: Option<&[u8]>,
) -> Result<Flat, Stop>
    requires formed { All WellFormed (modules_in sources.items) }
    ensures flat { IfOk result (λ flat. ElaborationGives (modules_in sources.items) top.now (option_copied clock.entry) (Ok (plain_flat flat))) }
    ensures refused { IfErr result (λ stop. StopsBy (ElaborationGives (modules_in sources.items) top.now (option_copied clock.entry)) stop) }
{
    match elaborate(alloc, &sources, top, clock) {
        Ok(flat) => Ok(flat),
        Err(ElabError::Fault(fault)) => Err(elaboration_stop(fault)),
        Err(ElabError::NoMemory) => Err(Stop::NoMemory),
    }
}

// The netlist of a flat design.
fn net_of(alloc: Global, flat: Flat) -> Result<Net, Stop>
    requires few { HasFewBits (map plain_signal flat.signals.items) flat.outputs.items }
    ensures net { IfOk result (λ net. IsNet (plain_flat flat) net) }
    ensures refused { IfErr result (λ stop. StopsBy (FlowGives (plain_flat flat)) stop) }
{
    match flow(alloc, flat) {
        Ok(net) => Ok(net),
        Err(error) => Err(flow_stop(alloc, error)),
    }
}

/// The netlist of the design that the texts of these files spell, below the module `top`, with `clock` as its clock.
///
/// `Rejected` has the first refusal: each file in turn is lexed and right behind that parsed, then all modules are elaborated, then the
/// units are brought into their order. A refusal of a file has its number, counted from 0, and the line, counted from 1; that of a
/// token which is not read has the token's text, too. A refusal of the design has the name and the number of its row (docs/LANGUAGE.md).
/// `NoMemory` comes only where memory runs out.
pub fn read_design(
    alloc: Global,
    files: &[Vec<u8>],
    top: &[u8],
    clock: Option<&[u8]>,
) -> Result<Net, Stop>
    requires short { All IsShort files.now }
    requires few { length files.now ≤ 64 }
    ensures accepted { IfOk result (λ net. IsNetlistOf (texts_of files.now) top.now (option_copied clock.entry) net) }
    ensures refused { IfErr result (λ stop. IfRejected stop (λ r. IsRefused (texts_of files.now) top.now (option_copied clock.entry) r)) }
{
    let sources = sources_of(alloc, files)?;
    let flat = flat_of(alloc, sources, top, clock)?;
    net_of(alloc, flat)
}
