// Prints clauses in the DIMACS format, for another solver.
use rst_clause::{ClauseStore, Clauses};
use std::io;

// Prints the clauses of a list, each ended by 0.
fn print_list<R: Print>(rt: &R, list: &ClauseStore) -> io::Result<()> {
    for i in 0..list.len() {
        for lit in list.get(i) {
            print!(rt; "{} ", lit.number())?;
        }
        println!(rt; "0")?;
    }
    Ok(())
}

/// Prints the clauses.
pub(crate) fn print_clauses<R: Print>(rt: &R, clauses: &Clauses) -> io::Result<()> {
    let count = clauses.fixed.len().saturating_add(clauses.required.len());
    println!(rt; "p cnf {} {count}", clauses.vars)?;
    print_list(rt, &clauses.fixed)?;
    print_list(rt, &clauses.required)
}
