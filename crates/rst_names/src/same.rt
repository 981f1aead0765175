// Whether two ranges are the same tree.

ghost use Rattle.std.specs.Prelude.{◌≡◌, ◌↔◌, IsTrue};
ghost use Rattle.std.specs.Option.{option_map};
ghost use Rattle.rst_tree.specs.Modules.{plain_range};
ghost use Rattle.rst_names.specs.SameTrees.{same_range};

use rst_tree::{Range, same_expr};

fn same_ends(a: &Range, b: &Range) -> bool
    ensures { IsTrue result ↔ (plain_range a.now ≡ plain_range b.now) }
{
    same_expr(&a.high, &b.high) && same_expr(&a.low, &b.low)
}

// Whether two declarations have the same range, or both none.
fn is_one(a: Option<&Range>, b: Option<&Range>) -> bool
    ensures { IsTrue result ↔ (option_map (λ r. plain_range r.now) a.entry ≡ option_map (λ r. plain_range r.now) b.entry) }
{
    match (a, b) {
        (None, None) => true,
        (Some(a), Some(b)) => same_ends(a, b),
        _ => false,
    }
}

/// Whether two declarations have the same range, or both none (IEEE 1364-2001, clause 12.3.3): the test of the definitions, which
/// tells equality.
#[tactic(auto, using(crate::proofs::SameLemmas::same_from))]
pub fn same_range(a: Option<&Range>, b: Option<&Range>) -> bool
    ensures same { result ≡ same_range (option_map (λ r. plain_range r.now) a.entry) (option_map (λ r. plain_range r.now) b.entry) }
    ensures decides { IsTrue result ↔ (option_map (λ r. plain_range r.now) a.entry ≡ option_map (λ r. plain_range r.now) b.entry) }
{
    is_one(a, b)
}
