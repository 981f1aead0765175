// Logs over two free bits of which both the exclusive or and the conjunction are required, or the
// first alone, worked by hand. The variable 4 is the exclusive or, 5 the conjunction.
use rst_check::{Hints, refutes, refutes_by};
use rst_clause::{Clause, ClauseDomain, Clauses, Lit, Log};
use rst_outside::NoMemory;
use rst_query_text::read;
use rst_value::Domain;
use std::alloc::Global;
use std::test::Fail;

fn query(alloc: Global, both: bool) -> Result<Clauses, NoMemory> {
    let mut domain = ClauseDomain::new(alloc, 2)?;
    let x = domain.free_bit(0);
    let y = domain.free_bit(1);
    let differ = domain.xor(x, y)?;
    let meet = domain.and(x, y)?;
    domain.require(&[differ])?;
    if both {
        domain.require(&[meet])?;
    }
    Ok(domain.finish())
}

// A log of the lines of one literal each, and the empty line where it is to end so.
fn log_of(alloc: Global, numbers: &[i32], ends: bool) -> Result<Log, NoMemory> {
    let mut log = Log::new(alloc);
    for number in numbers {
        if *number != 0 {
            log.push(Clause::from_slice(alloc, &[Lit::new(*number)])?)?;
        }
    }
    if ends {
        log.push(Clause::new(alloc))?;
    }
    Ok(log)
}

// Whether the log of these lines refutes the query.
fn verdict(alloc: Global, both: bool, numbers: &[i32], ends: bool) -> Result<bool, NoMemory> {
    let clauses = query(alloc, both)?;
    let log = log_of(alloc, numbers, ends)?;
    let yes = refutes(alloc, &clauses, &log)?;
    Ok(yes)
}

#[test]
fn logs_refute_or_not(rt: HostRuntime) -> Result<(), Fail> {
    // A number 0 stands for no line.
    let rows = [
        (true, [0, 0], true, true),
        (true, [1, -3], true, true),
        (true, [0, 0], false, false),
        (true, [1, 0], false, false),
        (true, [9, 0], true, false),
        (true, [2147483647, 0], true, false),
        (true, [-2147483648, 0], true, false),
        (false, [0, 0], true, false),
        (false, [1, 0], true, false),
    ];
    for (i, (both, numbers, ends, want)) in rows.iter().enumerate() {
        let yes = verdict(rt.alloc(), *both, numbers, *ends)?;
        assert_eq!(rt; yes, *want, "row {i}");
    }
    Ok(())
}

// A log of lines of up to two literals each; a number 0 stands for no literal.
fn log_of_lines(alloc: Global, lines: &[[i32; 2]]) -> Result<Log, NoMemory> {
    let mut log = Log::new(alloc);
    for numbers in lines {
        let mut line = Clause::new(alloc);
        for number in numbers {
            if *number != 0 {
                line.push(Lit::new(*number))?;
            }
        }
        log.push(line)?;
    }
    Ok(log)
}

// Hints of a log's first line.
fn hints_of(alloc: Global, numbers: &[u32]) -> Result<Hints, NoMemory> {
    let mut hints = Hints::new(alloc);
    for number in numbers {
        hints.push(*number)?;
    }
    hints.end()?;
    Ok(hints)
}

// All four clauses of the two free bits, one of them with a literal twice. Clause 0 is the constant's,
// and the lines come behind clause 4. Hints change no answer: in order, turned, of clauses that say
// nothing, of the line itself and of none.
#[test]
fn lines_with_opposites_and_repeats(rt: HostRuntime) -> Result<(), Fail> {
    let alloc = rt.alloc();
    let text = b"free 2\nrequire 1 2 2\nrequire 1 -2\nrequire -1 2\nrequire -1 -2\n";
    let clauses = read(alloc, text)?;
    let rows = [
        ([[1, 0], [0, 0]], true),
        ([[1, 1], [0, 0]], true),
        ([[1, 2], [0, 0]], false),
        ([[1, -1], [0, 0]], false),
        ([[-2, 0], [0, 0]], true),
        ([[0, 0], [0, 0]], false),
        ([[1, 2147483647], [0, 0]], false),
        ([[1, -2147483648], [0, 0]], false),
    ];
    for (i, (lines, want)) in rows.iter().enumerate() {
        let log = log_of_lines(alloc, lines)?;
        assert_eq!(rt; refutes(alloc, &clauses, &log)?, *want, "row {i}");
        for numbers in &[[1, 2], [2, 1], [0, 4], [5, 6], [7, 4_294_967_295]] {
            let hints = hints_of(alloc, numbers)?;
            let yes = refutes_by(alloc, &clauses, &log, &hints)?;
            assert_eq!(rt; yes, *want, "row {i}, hints {numbers:?}");
        }
    }
    Ok(())
}
