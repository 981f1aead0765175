// Instances beside the tables of their modules, and the links to them.

ghost use Rattle.std.specs.Prelude.{◌≡◌, ◌≤◌, nat_eq, map, position, slice_get, IfOk, OnOk, IfSome};
ghost use Rattle.std.specs.Option.{option_map};
ghost use Rattle.std.specs.Cmp.Lexicographic.{pointwise};
ghost use Rattle.indexmap.specs.IndexMap.{get};
ghost use Rattle.rst_tree.specs.Trees.{Text};
ghost use Rattle.rst_tree.specs.Modules.{plain_links, plain_copied};
ghost use Rattle.rst_names.specs.Names.{same_text};
ghost use Rattle.rst_names.specs.Tables.{or_here};
ghost use Rattle.rst_instances.specs.Parameters.{links_to};
ghost use Rattle.rst_instances.specs.Tables.{plain_linked};
ghost use Rattle.rst_items.specs.Tables.{seen_site, facts_at, seen_at, placed_in, width_or};

use indexmap::IndexMap;
use rst_instances::{Design, Linked, Located, links_to, prefix_of};
use rst_names::Facts;
use rst_outside::{Name, NoMemory};
use rst_tree::Copied;
use std::alloc::Global;

// A place for a prefix that has none yet.
#[tactic(auto, using(rst_names::proofs::TableLemmas::tables))]
fn put_prefix(
    alloc: Global,
    prefix: &Name,
    place: usize,
    made: &mut IndexMap<Name, usize>,
) -> Result<(), NoMemory>
    ensures { OnOk result ((q : Text) → get (pointwise nat_eq) made.new q ≡ or_here (get (pointwise nat_eq) made.old q) (same_text prefix.now q) place) }
{
    if made.contains_key(prefix) {
        return Ok(());
    }
    made.insert(Name::new(alloc, prefix.as_slice())?, place)?;
    Ok(())
}

/// The instances by what their names begin with.
pub fn by_prefix(alloc: Global, all: &[Located]) -> Result<IndexMap<Name, usize>, NoMemory>
    ensures { IfOk result (λ made. (prefix : Text) → get (pointwise nat_eq) made prefix ≡ position (λ l. same_text l.place.prefix prefix) all.now) }
{
    let mut made: IndexMap<Name, usize> = IndexMap::new(alloc);
    for (place, located) in all.iter().enumerate() {
        put_prefix(alloc, &located.place.prefix, place, &mut made)?;
    }
    Ok(made)
}

/// The instances of a design, by number and by what their names begin with.
#[derive(Clone, Copy)]
pub struct Whole<'w, 'a> {
    pub design: &'w Design<'a, 'w>,
    pub all: &'w [Located<'a>],
    pub prefixes: &'w IndexMap<Name, usize>,
}

/// An instance beside the tables of its module.
#[derive(Clone, Copy)]
pub struct Site<'w, 'a> {
    pub located: &'w Located<'a>,
    pub facts: &'w Facts<'a>,
}

impl<'w, 'a> Whole<'w, 'a> {
    /// An instance beside the tables of its module, if its module has some.
    pub fn site(&self, located: &'w Located<'a>) -> Option<Site<'w, 'a>>
        ensures tables { option_map (λ s. s.facts.now) result ≡ facts_at self.now located.now }
        ensures instance { IfSome result (λ s. s.located.now ≡ located.now) }
    {
        match self.design.facts.get(located.place.of) {
            Some(facts) => Some(Site { located, facts }),
            None => None,
        }
    }

    fn site_at(&self, place: usize) -> Option<Site<'w, 'a>>
        ensures { option_map seen_site result ≡ seen_at self.now place }
    {
        match self.all.get(place) {
            Some(located) => self.site(located),
            None => None,
        }
    }

    /// The instance that a copy places.
    pub fn copy_of(
        &self,
        alloc: Global,
        located: &Located,
        copy: &Copied,
    ) -> Result<Option<Site<'w, 'a>>, NoMemory>
        ensures { IfOk result (λ o. option_map seen_site o ≡ placed_in self.now located.now (plain_copied copy.now)) }
    {
        let prefix = prefix_of(alloc, &located.place, &copy.name)?;
        match self.prefixes.get(&prefix) {
            Some(place) => Ok(self.site_at(*place)),
            None => Ok(None),
        }
    }
}

impl<'a> Site<'_, 'a> {
    /// The links with a value of a copy that is this instance.
    pub fn links_of(&self, alloc: Global, copy: &'a Copied) -> Result<Vec<Linked<'a>>, NoMemory>
        ensures { IfOk result (λ v. map plain_linked v.items ≡ links_to (seen_site self.now).port_names (plain_links copy.now.ports)) }
    {
        Ok(links_to(alloc, &self.facts.ports, &copy.ports)?)
    }

    /// Whether a name is an input.
    pub fn is_input(&self, name: &Name) -> bool
        ensures { result ≡ ((seen_site self.now).total name.now).input }
    {
        self.facts.summary(name).input
    }

    /// The width of a signal, 1 where there is none of this name.
    pub fn width_of(&self, name: &Name) -> u8
        ensures exact { result ≡ (seen_site self.now).width name.now }
        ensures few { result ≤ 64 }
    {
        match self.facts.signal_places.get(name) {
            Some(place) => self.width_at(*place),
            None => 1,
        }
    }

    fn width_at(&self, place: usize) -> u8
        ensures exact { result ≡ width_or (slice_get self.now.located.now.shapes.items place) }
        ensures few { result ≤ 64 }
    {
        match self.located.shapes.get(place) {
            Some(shape) => shape.width,
            None => 1,
        }
    }
}
