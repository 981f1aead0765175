// Lines that are longer than most of the format.
use crate::reading::{SIZES, fault_in_pieces, fault_of, reads_back};
use rst_cert_reader::CertFault;
use rst_outside::NoMemory;
use std::alloc::Global;
use std::test::Fail;

// How often a part is repeated, so that the line has more than 4,096 bytes.
const TIMES: usize = 3_000;

// How often a part of two bytes or more is repeated, so that the line has more than 100,000 bytes.
const MANY_TIMES: usize = 60_000;

const SIZES_AND_KIND: &[u8] =
    b"registers 1\ninputs 1\noutputs 1\nrelation\nsequence 0\nequal =0\nblocked 0\n";

// A text with one part of it repeated so often.
fn with_times(
    alloc: Global,
    times: usize,
    front: &[u8],
    part: &[u8],
    behind: &[u8],
) -> Result<Vec<u8>, NoMemory> {
    let mut text = Vec::from_slice(alloc, front)?;
    for _ in 0..times {
        text.extend_from_slice(part)?;
    }
    text.extend_from_slice(behind)?;
    Ok(text)
}

// A text with one part of it repeated.
fn repeated(alloc: Global, front: &[u8], part: &[u8], behind: &[u8]) -> Result<Vec<u8>, NoMemory> {
    with_times(alloc, TIMES, front, part, behind)
}

// What stands in front of the logs of a certificate of kind `relation`, and these bytes.
fn relation_front(alloc: Global, opening: &[u8]) -> Result<Vec<u8>, NoMemory> {
    let mut front = Vec::from_slice(alloc, b"reset-certificate 2\nform 2\nnoclock\n")?;
    front.extend_from_slice(SIZES_AND_KIND)?;
    front.extend_from_slice(opening)?;
    Ok(front)
}

// A certificate of kind `relation` behind the lines of its first part.
fn relation(
    alloc: Global,
    opening: &[u8],
    part: &[u8],
    behind: &[u8],
) -> Result<Vec<u8>, NoMemory> {
    let front = relation_front(alloc, opening)?;
    repeated(alloc, front.as_slice(), part, behind)
}

// Such a certificate, with many more of the part.
fn large_relation(
    alloc: Global,
    opening: &[u8],
    part: &[u8],
    behind: &[u8],
) -> Result<Vec<u8>, NoMemory> {
    let front = relation_front(alloc, opening)?;
    with_times(alloc, MANY_TIMES, front.as_slice(), part, behind)
}

// The fault of such a certificate.
fn fault_with(
    alloc: Global,
    opening: &[u8],
    part: &[u8],
    behind: &[u8],
) -> Result<Option<CertFault>, NoMemory> {
    let text = relation(alloc, opening, part, behind)?;
    Ok(fault_of(alloc, text.as_slice()))
}

#[test]
fn clauses_of_any_length_are_read_back(rt: HostRuntime) -> Result<(), Fail> {
    let alloc = rt.alloc();
    let text = relation(
        alloc,
        b"log split 1\nclause ",
        b"-12 7 ",
        b"0\nlog land 0\nend\n",
    )?;
    for size in SIZES {
        assert!(rt; reads_back(alloc, text.as_slice(), size)?, "{size}");
    }
    Ok(())
}

#[test]
fn clocks_of_any_length_are_read_back(rt: HostRuntime) -> Result<(), Fail> {
    let alloc = rt.alloc();
    let text = repeated(
        alloc,
        b"reset-certificate 2\nform 2\nclock ",
        b"clk",
        b"\nregisters 1\ninputs 1\noutputs 1\nknown\nsequence 0\nend\n",
    )?;
    for size in SIZES {
        assert!(rt; reads_back(alloc, text.as_slice(), size)?, "{size}");
    }
    Ok(())
}

#[test]
fn long_lines_break(rt: HostRuntime) -> Result<(), Fail> {
    let alloc = rt.alloc();
    let clause = b"\nclause 0\nend\n";
    assert_eq!(rt;
        fault_with(
            alloc,
            b"log split 1\nclause ",
            b"11",
            b" 0\nlog land 0\nend\n"
        )?,
        Some(CertFault::BadLine(12))
    );
    assert_eq!(rt;
        fault_with(alloc, b"log split 1\n", b"11", clause)?,
        Some(CertFault::BadLine(12))
    );
    assert_eq!(rt;
        fault_with(alloc, b"log split ", b"99", clause)?,
        Some(CertFault::BadLine(13))
    );
    assert_eq!(rt;
        fault_with(alloc, b"log split ", b"00", clause)?,
        Some(CertFault::BadLine(11))
    );
    assert_eq!(rt;
        fault_with(alloc, b"log split 0\nlog land 0\n", b"end", b"\nend\n")?,
        Some(CertFault::BadLine(13))
    );
    assert_eq!(rt;
        fault_with(alloc, b"log split 0\nlog land 0\nend\n", b"end", b"\nend\n")?,
        Some(CertFault::BadLine(14))
    );
    Ok(())
}

#[test]
fn large_lines_are_read_in_small_pieces(rt: HostRuntime) -> Result<(), Fail> {
    let alloc = rt.alloc();
    let clause = large_relation(
        alloc,
        b"log split 1\nclause ",
        b"3 -4 ",
        b"0\nlog land 0\nend\n",
    )?;
    assert!(rt; reads_back(alloc, clause.as_slice(), 7)?);
    let number = large_relation(alloc, b"log split ", b"99", b"\nclause 5 0\nend\n")?;
    assert_eq!(rt;
        fault_in_pieces(alloc, number.as_slice(), 7),
        Some(CertFault::BadLine(13))
    );
    Ok(())
}

#[test]
fn long_clauses_break_at_any_literal(rt: HostRuntime) -> Result<(), Fail> {
    let alloc = rt.alloc();
    let broken = Some(CertFault::BadLine(12));
    for behind in [
        b"2147483648 0\nlog land 0\nend\n".as_slice(),
        b"05 0\nlog land 0\nend\n",
        b" 0\nlog land 0\nend\n",
        b"0 0\nlog land 0\nend\n",
        b"5\nlog land 0\nend\n",
        b"\nlog land 0\nend\n",
        b"00\nlog land 0\nend\n",
    ] {
        assert_eq!(rt;
            fault_with(alloc, b"log split 1\nclause ", b"-12 7 ", behind)?,
            broken
        );
    }
    assert_eq!(rt;
        fault_with(
            alloc,
            b"log split 1\nclauses ",
            b"-12 7 ",
            b"0\nlog land 0\nend\n"
        )?,
        broken
    );
    Ok(())
}

#[test]
fn a_log_without_an_end_takes_long_clauses(rt: HostRuntime) -> Result<(), Fail> {
    let alloc = rt.alloc();
    assert_eq!(rt;
        fault_with(
            alloc,
            b"log split 18446744073709551616\nclause ",
            b"-12 7 ",
            b"0\nclause 0\nend\n"
        )?,
        Some(CertFault::BadLine(14))
    );
    assert_eq!(rt;
        fault_with(
            alloc,
            b"log split 18446744073709551616\nclause ",
            b"-12 7 ",
            b"00\nclause 0\nend\n"
        )?,
        Some(CertFault::BadLine(12))
    );
    assert_eq!(rt;
        fault_with(alloc, b"log split ", b"99", b" \nclause 0\nend\n")?,
        Some(CertFault::BadLine(11))
    );
    Ok(())
}

#[test]
fn long_clocks_break(rt: HostRuntime) -> Result<(), Fail> {
    let alloc = rt.alloc();
    for (front, part, behind) in [
        (
            b"clock ".as_slice(),
            b"clk".as_slice(),
            b" \nend\n".as_slice(),
        ),
        (b"clock ", b"clk", b"-k\nend\n"),
        (b"clock 1", b"clk", b"\nend\n"),
        (b"clocks ", b"clk", b"\nend\n"),
        (b"clock ", b" ", b"\nend\n"),
    ] {
        let mut opening = Vec::from_slice(alloc, b"reset-certificate 2\nform 2\n")?;
        opening.extend_from_slice(front)?;
        let text = repeated(alloc, opening.as_slice(), part, behind)?;
        assert_eq!(rt;
            fault_of(alloc, text.as_slice()),
            Some(CertFault::BadHeader)
        );
    }
    Ok(())
}

#[test]
fn the_first_fault_stands_before_long_lines(rt: HostRuntime) -> Result<(), Fail> {
    let alloc = rt.alloc();
    assert_eq!(rt;
        fault_with(alloc, b"log split 1\nclause\n", b"end", b"\nend\n")?,
        Some(CertFault::BadLine(12))
    );
    let heading = repeated(alloc, b"reset-certificate 2\nform ", b"11", b"\nend\n")?;
    assert_eq!(rt;
        fault_of(alloc, heading.as_slice()),
        Some(CertFault::BadHeader)
    );
    let step = repeated(
        alloc,
        b"reset-certificate 2\nform 2\nnoclock\nregisters 1\ninputs 1\noutputs 1\nknown\nsequence 1\nstep =",
        b"11",
        b"\nend\n",
    )?;
    assert_eq!(rt;
        fault_of(alloc, step.as_slice()),
        Some(CertFault::BadLine(9))
    );
    Ok(())
}

#[test]
fn a_text_that_ends_in_a_long_line_is_cut(rt: HostRuntime) -> Result<(), Fail> {
    let alloc = rt.alloc();
    let cut = Some(CertFault::Cut);
    assert_eq!(rt; fault_with(alloc, b"log split 1\n", b"11", b"")?, cut);
    assert_eq!(rt;
        fault_with(alloc, b"log split 0\nlog land 0\nend\n", b"end", b"")?,
        cut
    );
    assert_eq!(rt;
        fault_with(alloc, b"log split 0\nlog land 0\nend\n", b"end", b"\n")?,
        cut
    );
    Ok(())
}
