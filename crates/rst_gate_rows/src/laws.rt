// Laws over any relation, at one.
use rst_gate::{inductive_relations, pairs_kept_apart};
use std::marker::Brand;
use std::test::Fail;

#[test]
fn laws_over_relations(_rt: HostRuntime) -> Result<(), Fail> {
    inductive_relations::<Brand>();
    pairs_kept_apart::<Brand>();
    Ok(())
}
