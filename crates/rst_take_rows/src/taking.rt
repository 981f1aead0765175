// Certificates that are taken from desks, and why a file gives none.
ghost use Rattle.std.specs.Prelude.{◌≡◌, IfOk, IsTrue};
ghost use Rattle.rst_outside.specs.Files.{names_differ};

use crate::small_pieces::SmallPieces;
use rst_cert_reader::CertFault;
use rst_certificate::cert_text;
use rst_outside::{Bytes, Desk, DeskFile, LoadError, MemoryDesk, Name, NoMemory, SureDesk};
use rst_take::{TakeFault, take_cert};
use rst_verdict::Cert;
use std::alloc::Global;
use std::test::Fail;

const SIZES: [usize; 3] = [1, 7, 65_536];

const TOGGLE: &[u8] =
    b"reset-certificate 1\nform 2\nclock clk\nregisters 1\ninputs 1\noutputs 1\nknown\nsequence 1\nstep =1\nend\n";

const LONG: &[u8] =
    b"reset-certificate 2\nform 2\nclock clk\nregisters 1\ninputs 1\noutputs 1\nnever\na =0\nb =1\nblocked 1\ncube =01 via =1 out\nfreed 2\ncube =0- via =0 in\ncube =-1 via =1 to 0\nlog escape 1\nclause -2147483648 0\nend\n";

// The one file `c`.
fn one_file(alloc: Global, text: &[u8]) -> Result<Vec<DeskFile>, NoMemory>
    ensures { IfOk result (λ files. IsTrue (names_differ files.items)) }
{
    let mut files = Vec::new(alloc);
    files.push(DeskFile {
        name: Name::new(alloc, b"c")?,
        bytes: Bytes::new(alloc, text)?,
    })?;
    Ok(files)
}

fn desk_of(alloc: Global, text: &[u8], most: usize) -> Result<SmallPieces, NoMemory> {
    Ok(SmallPieces {
        desk: SureDesk::new(alloc, one_file(alloc, text)?),
        most,
    })
}

// Whether the certificate, of version 1 without a free bit or of version 2, has this text.
fn is_text_of(alloc: Global, cert: &Cert, text: &[u8]) -> Result<bool, NoMemory> {
    if cert.version != 2 {
        return Ok(false);
    }
    let written = cert_text(alloc, cert)?;
    Ok(written.as_slice() == text)
}

// Whether a file of this text is taken whole within the limit, and its certificate is written as the text.
fn is_taken(alloc: Global, text: &[u8], most: usize, limit: u32) -> Result<bool, NoMemory> {
    let mut desk = desk_of(alloc, text, most)?;
    match take_cert(alloc, &mut desk, "c", u64::from(limit)) {
        Ok(cert) => {
            let same = is_text_of(alloc, &cert, text);
            drop(cert);
            same
        }
        Err(_) => Ok(false),
    }
}

// The fault of taking a file, if there is one.
fn fault_of<K: Desk>(alloc: Global, desk: &mut K, name: &str, limit: u32) -> Option<TakeFault> {
    match take_cert(alloc, desk, name, u64::from(limit)) {
        Ok(cert) => {
            drop(cert);
            None
        }
        Err(fault) => Some(fault),
    }
}

// The fault of taking a file of this text in pieces of at most so many bytes.
fn fault_in(
    alloc: Global,
    text: &[u8],
    most: usize,
    limit: u32,
) -> Result<Option<TakeFault>, NoMemory> {
    let mut desk = desk_of(alloc, text, most)?;
    Ok(fault_of(alloc, &mut desk, "c", limit))
}

const LONG_BYTES: u32 = LONG.len() as u32;

#[test]
fn a_file_is_taken_in_pieces_of_any_length(rt: HostRuntime) -> Result<(), Fail> {
    let alloc = rt.alloc();
    for most in SIZES {
        assert!(rt; is_taken(alloc, LONG, most, 1_000)?, "{most}");
        assert!(rt; is_taken(alloc, LONG, most, LONG_BYTES)?, "{most}");
        assert_eq!(rt; fault_in(alloc, TOGGLE, most, 1_000)?, None, "{most}");
    }
    Ok(())
}

#[test]
fn a_file_past_the_limit_is_too_long_whatever_it_holds(rt: HostRuntime) -> Result<(), Fail> {
    let alloc = rt.alloc();
    let too_long = Some(TakeFault::Load(LoadError::TooLong));
    for most in SIZES {
        assert_eq!(rt; fault_in(alloc, TOGGLE, most, 10)?, too_long, "{most}");
        assert_eq!(rt;
            fault_in(alloc, LONG, most, LONG_BYTES - 1)?,
            too_long,
            "{most}"
        );
        assert_eq!(rt;
            fault_in(alloc, b"no certificate\nend\nmore", most, 10)?,
            too_long,
            "{most}"
        );
    }
    assert_eq!(rt; fault_in(alloc, b"e", 1, 0)?, too_long);
    Ok(())
}

#[test]
fn every_proper_front_is_cut(rt: HostRuntime) -> Result<(), Fail> {
    let alloc = rt.alloc();
    let cut = Some(TakeFault::Text(CertFault::Cut));
    for count in 0..TOGGLE.len() {
        assert_eq!(rt;
            fault_in(alloc, &TOGGLE[..count], 7, 1_000)?,
            cut,
            "{count}"
        );
    }
    Ok(())
}

#[test]
fn a_text_is_read_to_its_end_before_its_fault_is_told(rt: HostRuntime) -> Result<(), Fail> {
    let alloc = rt.alloc();
    let header = Some(TakeFault::Text(CertFault::BadHeader));
    let cut = Some(TakeFault::Text(CertFault::Cut));
    let line = Some(TakeFault::Text(CertFault::BadLine(8)));
    assert_eq!(rt;
        fault_in(alloc, b"no certificate\nend\n", 1, 1_000)?,
        header
    );
    assert_eq!(rt; fault_in(alloc, b"no certificate\nen", 1, 1_000)?, cut);
    assert_eq!(rt;
        fault_in(
            alloc,
            b"reset-certificate 1\nform 2\nnoclock\nregisters 1\ninputs 1\noutputs 1\nknown\nsequence 129\nend\n",
            1,
            1_000
        )?,
        line
    );
    Ok(())
}

#[test]
fn a_load_that_fails_fails_it(rt: HostRuntime) -> Result<(), Fail> {
    let alloc = rt.alloc();
    let failed = Some(TakeFault::Load(LoadError::Failed));
    let mut desk = desk_of(alloc, TOGGLE, 7)?;
    assert_eq!(rt; fault_of(alloc, &mut desk, "absent", 1_000), failed);
    for call in 0..2u32 {
        let mut failing = Vec::new(alloc);
        failing.push(call)?;
        let mut desk = MemoryDesk::new(alloc, one_file(alloc, TOGGLE)?, failing);
        assert_eq!(rt; fault_of(alloc, &mut desk, "c", 1_000), failed, "{call}");
    }
    let mut desk = MemoryDesk::new(alloc, one_file(alloc, TOGGLE)?, Vec::new(alloc));
    assert_eq!(rt; fault_of(alloc, &mut desk, "c", 1_000), None);
    Ok(())
}
