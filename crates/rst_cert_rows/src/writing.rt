// The text of each kind, whole and in pieces.
ghost use Rattle.std.specs.Prelude.{◌≡◌};

use crate::bench::{bits, boxed, cert, cube, hop, hops, log, long_log, no_work, pattern, word};
use rst_certificate::{CertWriter, cert_text};
use rst_outside::NoMemory;
use rst_pair::{Entry, Journal, Kind};
use rst_verdict::{Cert, Verdict};
use std::alloc::Global;
use std::test::Fail;

// The pieces of a certificate's text, one behind the other, where each has 1 to 65,536 bytes.
fn joined(alloc: Global, cert: &Cert) -> Result<Vec<u8>, NoMemory>
    requires { cert.now.version ≡ 2 }
{
    let mut text = Vec::new(alloc);
    let mut writer = CertWriter::new(alloc, cert)?;
    while let Some(piece) = writer.next() {
        if piece.len() <= 65_536 {
            text.extend_from_slice(piece)?;
        }
    }
    Ok(text)
}

// How many pieces a certificate's text has.
fn pieces(alloc: Global, cert: &Cert) -> Result<u32, NoMemory>
    requires { cert.now.version ≡ 2 }
{
    let mut count: u32 = 0;
    let mut writer = CertWriter::new(alloc, cert)?;
    while let Some(_) = writer.next() {
        count = count.saturating_add(1);
    }
    Ok(count)
}

// Whether both the whole text and its pieces are these bytes.
fn is_written(alloc: Global, cert: &Cert, text: &[u8]) -> Result<bool, NoMemory>
    requires { cert.now.version ≡ 2 }
{
    let whole = cert_text(alloc, cert)?;
    let pieces = joined(alloc, cert)?;
    Ok(whole.as_slice() == text && pieces.as_slice() == text)
}

// Whether the certificate of the verdict has these lines behind the header's first three.
fn shows(alloc: Global, registers: u32, verdict: Verdict, lines: &[u8]) -> Result<bool, NoMemory> {
    let cert = cert(alloc, registers, verdict)?;
    let mut text = Vec::from_slice(alloc, b"reset-certificate 2\nform 2\nclock clk\n")?;
    text.extend_from_slice(lines)?;
    is_written(alloc, &cert, text.as_slice())
}

#[test]
fn known(rt: HostRuntime) -> Result<(), Fail> {
    let alloc = rt.alloc();
    let seq = pattern(alloc, &["1", "-", "0"])?;
    let lines =
        b"registers 1\ninputs 1\noutputs 1\nknown\nsequence 3\nstep =1\nstep =-\nstep =0\nend\n";
    assert!(rt; shows(alloc, 1, Verdict::SignedKnown { seq }, lines)?);
    Ok(())
}

#[test]
fn known_without_cycles(rt: HostRuntime) -> Result<(), Fail> {
    let alloc = rt.alloc();
    let seq = pattern(alloc, &[])?;
    let lines = b"registers 0\ninputs 1\noutputs 1\nknown\nsequence 0\nend\n";
    assert!(rt; shows(alloc, 0, Verdict::SignedKnown { seq }, lines)?);
    Ok(())
}

#[test]
fn first_version_without_a_clock(rt: HostRuntime) -> Result<(), Fail> {
    let alloc = rt.alloc();
    let seq = word(alloc, &["", ""])?;
    let a = bits(alloc, "")?;
    let b = bits(alloc, "")?;
    let word = word(alloc, &[])?;
    let cert = boxed(
        alloc,
        Cert {
            version: 1,
            form: 4_294_967_295,
            clock: None,
            registers: 0,
            inputs: 0,
            outputs: 3,
            verdict: Verdict::Refuted { seq, a, b, word },
        },
    )?;
    let text =
        b"reset-certificate 1\nform 4294967295\nnoclock\nregisters 0\ninputs 0\noutputs 3\nrefuted\nsequence 2\nstep =\nstep =\na =\nb =\nword 0\nend\n";
    let whole = cert_text(alloc, &cert)?;
    assert!(rt; whole.as_slice() == text.as_slice());
    Ok(())
}

fn relation(alloc: Global) -> Result<Verdict, NoMemory> {
    Ok(Verdict::SignedRelation {
        seq: pattern(alloc, &["-"])?,
        equal: bits(alloc, "10")?,
        blocked: hops(alloc, &[("0--1", "1", None), ("----", "0", Some(0))])?,
        split: log(alloc, &[&[1, -2, 2_147_483_647], &[]])?,
        land: log(alloc, &[])?,
    })
}

#[test]
fn relations(rt: HostRuntime) -> Result<(), Fail> {
    let alloc = rt.alloc();
    let lines =
        b"registers 2\ninputs 1\noutputs 1\nrelation\nsequence 1\nstep =-\nequal =10\nblocked 2\ncube =0--1 via =1 out\ncube =---- via =0 to 0\nlog split 2\nclause 1 -2 2147483647 0\nclause 0\nlog land 0\nend\n";
    assert!(rt; shows(alloc, 2, relation(alloc)?, lines)?);
    Ok(())
}

fn never(alloc: Global) -> Result<Verdict, NoMemory> {
    Ok(Verdict::Never {
        a: bits(alloc, "0")?,
        b: bits(alloc, "1")?,
        blocked: hops(alloc, &[("01", "1", None)])?,
        freed: hops(alloc, &[("0-", "0", None), ("-1", "1", Some(0))])?,
        escape: log(alloc, &[&[-2_147_483_648]])?,
    })
}

#[test]
fn pairs_that_never_align(rt: HostRuntime) -> Result<(), Fail> {
    let alloc = rt.alloc();
    let lines =
        b"registers 1\ninputs 1\noutputs 1\nnever\na =0\nb =1\nblocked 1\ncube =01 via =1 out\nfreed 2\ncube =0- via =0 in\ncube =-1 via =1 to 0\nlog escape 1\nclause -2147483648 0\nend\n";
    assert!(rt; shows(alloc, 1, never(alloc)?, lines)?);
    Ok(())
}

fn alignable(alloc: Global) -> Result<Verdict, NoMemory> {
    Ok(Verdict::Alignable {
        seq: word(alloc, &["0"])?,
        a: bits(alloc, "0")?,
        b: bits(alloc, "1")?,
        word: word(alloc, &["1", "1"])?,
        blocked: hops(alloc, &[])?,
        freed: hops(alloc, &[])?,
        split: log(alloc, &[&[3]])?,
        stuck: log(alloc, &[&[-3]])?,
    })
}

#[test]
fn alignable_pairs(rt: HostRuntime) -> Result<(), Fail> {
    let alloc = rt.alloc();
    let lines =
        b"registers 1\ninputs 1\noutputs 1\nalignable\nsequence 1\nstep =0\na =0\nb =1\nword 2\nstep =1\nstep =1\nblocked 0\nfreed 0\nlog split 1\nclause 3 0\nlog stuck 1\nclause -3 0\nend\n";
    assert!(rt; shows(alloc, 1, alignable(alloc)?, lines)?);
    Ok(())
}

fn conflicts(alloc: Global, journal: &mut Journal) -> Result<(), NoMemory> {
    journal.push(Entry::Conflict(Kind::Split, cube(alloc, "-01")?))?;
    journal.push(Entry::Conflict(Kind::Land, cube(alloc, "1-")?))?;
    journal.push(Entry::Conflict(Kind::Escape, cube(alloc, "000")?))?;
    journal.push(Entry::Conflict(Kind::Stuck, cube(alloc, "--")?))
}

fn work(alloc: Global) -> Result<Journal, NoMemory> {
    let mut journal = no_work(alloc);
    journal.push(Entry::Candidate(0, true))?;
    journal.push(Entry::Candidate(70_000, false))?;
    conflicts(alloc, &mut journal)?;
    journal.push(Entry::Blocked(hop(alloc, ("0-", "1", None))?, bits(alloc, "01")?))?;
    journal.push(Entry::Freed(hop(alloc, ("-1", "0", Some(7)))?, bits(alloc, "11")?))?;
    journal.push(Entry::Built(bits(alloc, "0")?, bits(alloc, "1")?))?;
    Ok(journal)
}

#[test]
fn unknown_with_its_work(rt: HostRuntime) -> Result<(), Fail> {
    let alloc = rt.alloc();
    let equal = bits(alloc, "0")?;
    let journal = work(alloc)?;
    let lines =
        b"registers 1\ninputs 1\noutputs 1\nunknown\nequal =0\njournal 9\ncandidate 0 1\ncandidate 70000 0\nconflict split =-01\nconflict land =1-\nconflict escape =000\nconflict stuck =--\nblocked =0- via =1 out pair =01\nfreed =-1 via =0 to 7 pair =11\nbuilt =0 =1\nend\n";
    assert!(rt; shows(alloc, 1, Verdict::Unknown { equal, journal }, lines)?);
    Ok(())
}

#[test]
fn long_texts_have_several_pieces(rt: HostRuntime) -> Result<(), Fail> {
    let alloc = rt.alloc();
    let verdict = Verdict::SignedRelation {
        seq: pattern(alloc, &[])?,
        equal: bits(alloc, "1")?,
        blocked: hops(alloc, &[])?,
        split: long_log(alloc, 20_000)?,
        land: log(alloc, &[])?,
    };
    let cert = cert(alloc, 1, verdict)?;
    let whole = cert_text(alloc, &cert)?;
    let text = joined(alloc, &cert)?;
    assert!(rt; whole.as_slice() == text.as_slice());
    assert!(rt; text.len() > 220_000);
    assert_eq!(rt; pieces(alloc, &cert)?, 4);
    Ok(())
}
