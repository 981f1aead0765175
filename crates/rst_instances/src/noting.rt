// Tables in which the first entry of a name counts.

ghost use Rattle.std.specs.Prelude.{◌≡◌, nat_eq, cond, Some, None, OnOk};
ghost use Rattle.std.specs.Option.{option_or};
ghost use Rattle.std.specs.Cmp.Lexicographic.{pointwise};
ghost use Rattle.indexmap.specs.IndexMap.{get};
ghost use Rattle.rst_tree.specs.Trees.{Text};
ghost use Rattle.rst_names.specs.Names.{same_text};

use indexmap::IndexMap;
use rst_outside::{Name, NoMemory};
use std::alloc::Global;

// Notes a value under a name, unless the name has one.
pub fn note<V: Copy + Drop>(
    alloc: Global,
    table: &mut IndexMap<Name, V>,
    name: &Name,
    value: V,
) -> Result<(), NoMemory>
    ensures { OnOk result ((key : Text) → get (pointwise nat_eq) table.new key ≡ option_or (get (pointwise nat_eq) table.old key) (cond (same_text name.now key) (Some value) None)) }
{
    if table.contains_key(name) {
        return Ok(());
    }
    let key = Name::new(alloc, name.as_slice())?;
    table.insert(key, value)?;
    Ok(())
}
