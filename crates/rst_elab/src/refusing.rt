// Refusals at signals.

ghost use Rattle.rst_names.specs.Faults.{Tells};
ghost use Rattle.rst_items.specs.Tables.{seen_site};
ghost use Rattle.rst_elab.specs.ClockRows.{at_signal};

use rst_instances::flat_name;
use rst_items::Site;
use rst_names::{ElabCode, ElabError, refusal};
use rst_outside::{Name, NoMemory};
use std::alloc::Global;

/// The refusal at a signal of an instance, unless memory runs out.
pub fn at_signal(alloc: Global, code: ElabCode, site: Site, name: &Name) -> ElabError
    ensures { Tells result (at_signal code (seen_site site.entry) name.now) }
{
    match flat_name(alloc, &site.located.place, name) {
        Ok(name) => refusal(alloc, code, name.as_slice(), 0),
        Err(NoMemory) => ElabError::NoMemory,
    }
}
