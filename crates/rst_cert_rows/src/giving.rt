// Certificates that are given to a desk.
ghost use Rattle.std.specs.Prelude.{◌≡◌, IfOk, IsTrue};
ghost use Rattle.rst_outside.specs.Files.{names_differ};

use crate::bench::{bits, cert, hops, log, long_log, pattern};
use rst_certificate::{CertWriter, cert_text, give_cert};
use rst_outside::{Bytes, Desk, DeskFile, MemoryDesk, Name, NoMemory, SureDesk};
use rst_verdict::{Cert, Verdict};
use std::alloc::Global;
use std::test::Fail;

// One file of three bytes.
fn one_file(alloc: Global) -> Result<Vec<DeskFile>, NoMemory>
    ensures { IfOk result (λ files. IsTrue (names_differ files.items)) }
{
    let mut files = Vec::new(alloc);
    files.push(DeskFile {
        name: Name::new(alloc, b"other")?,
        bytes: Bytes::new(alloc, b"abc")?,
    })?;
    Ok(files)
}

// A certificate whose split log has so many clauses.
fn long_cert(alloc: Global, clauses: u32) -> Result<Box<Cert>, NoMemory>
    ensures { IfOk result (λ cert. cert.value.version ≡ 2) }
{
    let verdict = Verdict::SignedRelation {
        seq: pattern(alloc, &[])?,
        equal: bits(alloc, "1")?,
        blocked: hops(alloc, &[])?,
        split: long_log(alloc, clauses)?,
        land: log(alloc, &[])?,
    };
    cert(alloc, 1, verdict)
}

// Whether the certificate is given to the desk.
fn is_given<K: Desk>(alloc: Global, desk: &mut K, cert: &Cert) -> Result<bool, NoMemory>
    requires { cert.now.version ≡ 2 }
{
    let mut writer = CertWriter::new(alloc, cert)?;
    Ok(give_cert(desk, "c", &mut writer).is_ok())
}

#[test]
fn the_text_stands_under_the_name(rt: HostRuntime) -> Result<(), Fail> {
    let alloc = rt.alloc();
    let cert = long_cert(alloc, 20_000)?;
    let text = cert_text(alloc, &cert)?;
    let mut desk = SureDesk::new(alloc, one_file(alloc)?);
    desk.reserve("c", text.as_slice().len() as u64)?;
    assert!(rt; is_given(alloc, &mut desk, &cert)?);
    assert!(rt; desk.file("c") == Some(text.as_slice()));
    assert!(rt; desk.file("other") == Some(b"abc".as_slice()));
    Ok(())
}

#[test]
fn it_takes_the_place_of_an_older_one(rt: HostRuntime) -> Result<(), Fail> {
    let alloc = rt.alloc();
    let cert = long_cert(alloc, 1)?;
    let text = cert_text(alloc, &cert)?;
    let mut desk = SureDesk::new(alloc, one_file(alloc)?);
    desk.reserve("c", 1_000)?;
    assert!(rt; desk.save_piece("c", true, b"older").is_ok());
    assert!(rt; is_given(alloc, &mut desk, &cert)?);
    assert!(rt; desk.file("c") == Some(text.as_slice()));
    Ok(())
}

#[test]
fn a_save_that_fails_fails_it(rt: HostRuntime) -> Result<(), Fail> {
    let alloc = rt.alloc();
    let cert = long_cert(alloc, 100_000)?;
    let text = cert_text(alloc, &cert)?;
    let mut failing = Vec::new(alloc);
    failing.push(1)?;
    let mut desk = MemoryDesk::new(alloc, one_file(alloc)?, failing);
    desk.reserve("c", text.as_slice().len() as u64)?;
    assert!(rt; !is_given(alloc, &mut desk, &cert)?);
    assert!(rt; desk.file("other") == Some(b"abc".as_slice()));
    Ok(())
}

#[test]
fn it_fails_without_room(rt: HostRuntime) -> Result<(), Fail> {
    let alloc = rt.alloc();
    let cert = long_cert(alloc, 1)?;
    let text = cert_text(alloc, &cert)?;
    let mut desk = SureDesk::new(alloc, one_file(alloc)?);
    desk.reserve("c", 10)?;
    assert!(rt; text.as_slice().len() > 10);
    assert!(rt; !is_given(alloc, &mut desk, &cert)?);
    assert!(rt; desk.file("other") == Some(b"abc".as_slice()));
    Ok(())
}
