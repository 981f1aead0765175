// Certificates, read back in pieces, and what breaks them.
use rst_cert_reader::{CertFault, CertReader, read_cert};
use rst_certificate::cert_text;
use rst_outside::NoMemory;
use rst_verdict::Cert;
use std::alloc::Global;
use std::test::Fail;

pub(crate) const SIZES: [usize; 3] = [1, 7, 65_536];

const KNOWN: &[u8] =
    b"reset-certificate 2\nform 2\nclock clk\nregisters 1\ninputs 1\noutputs 1\nknown\nsequence 3\nstep =1\nstep =-\nstep =0\nend\n";

const RELATION: &[u8] =
    b"reset-certificate 2\nform 2\nnoclock\nregisters 2\ninputs 1\noutputs 1\nrelation\nsequence 1\nstep =-\nequal =10\nblocked 2\ncube =0--1 via =1 out\ncube =---- via =0 to 0\nlog split 2\nclause 1 -2 2147483647 0\nclause 0\nlog land 0\nend\n";

const REFUTED: &[u8] =
    b"reset-certificate 2\nform 2\nclock clk\nregisters 1\ninputs 2\noutputs 1\nrefuted\nsequence 1\nstep =10\na =0\nb =1\nword 2\nstep =00\nstep =01\nend\n";

const NEVER: &[u8] =
    b"reset-certificate 2\nform 2\nclock clk\nregisters 1\ninputs 1\noutputs 1\nnever\na =0\nb =1\nblocked 1\ncube =01 via =1 out\nfreed 2\ncube =0- via =0 in\ncube =-1 via =1 to 0\nlog escape 1\nclause -2147483648 0\nend\n";

const ALIGNABLE: &[u8] =
    b"reset-certificate 2\nform 2\nclock clk\nregisters 1\ninputs 1\noutputs 1\nalignable\nsequence 1\nstep =0\na =0\nb =1\nword 2\nstep =1\nstep =1\nblocked 0\nfreed 0\nlog split 1\nclause 3 0\nlog stuck 1\nclause -3 0\nend\n";

const UNKNOWN: &[u8] =
    b"reset-certificate 2\nform 2\nclock clk\nregisters 1\ninputs 1\noutputs 1\nunknown\nequal =0\njournal 9\ncandidate 0 1\ncandidate 70000 0\nconflict split =-01\nconflict land =1-\nconflict escape =000\nconflict stuck =--\nblocked =0- via =1 out pair =01\nfreed =-1 via =0 in pair =11\nbuilt =0 =1\nend\n";

// The certificate of a text that comes in pieces of so many bytes.
fn read_in_pieces(alloc: Global, text: &[u8], size: usize) -> Result<Cert, CertFault> {
    match CertReader::new(alloc) {
        Ok(reader) => feed_in_pieces(reader, text, size),
        Err(NoMemory) => Err(CertFault::NoMemory),
    }
}

fn feed_in_pieces(mut reader: CertReader, text: &[u8], size: usize) -> Result<Cert, CertFault> {
    for piece in text.chunks(size.max(1)) {
        if reader.feed(piece).is_err() {
            drop(reader);
            return Err(CertFault::NoMemory);
        }
    }
    reader.finish()
}

// Whether the certificate has version 2 and this text.
fn is_text_of(alloc: Global, cert: &Cert, text: &[u8]) -> Result<bool, NoMemory> {
    if cert.version != 2 {
        return Ok(false);
    }
    let written = cert_text(alloc, cert)?;
    Ok(written.as_slice() == text)
}

// Whether the text is read, and what was read is written as that text.
pub(crate) fn reads_back(alloc: Global, text: &[u8], size: usize) -> Result<bool, NoMemory> {
    match read_in_pieces(alloc, text, size) {
        Ok(cert) => {
            let same = is_text_of(alloc, &cert, text);
            drop(cert);
            same
        }
        Err(_) => Ok(false),
    }
}

// The fault that was found, if one was.
fn fault_in(read: Result<Cert, CertFault>) -> Option<CertFault> {
    match read {
        Ok(cert) => {
            drop(cert);
            None
        }
        Err(fault) => Some(fault),
    }
}

// The fault of a text, if it has one.
pub(crate) fn fault_of(alloc: Global, text: &[u8]) -> Option<CertFault> {
    fault_in(read_cert(alloc, text))
}

// The fault of a text that comes in pieces of so many bytes, if it has one.
pub(crate) fn fault_in_pieces(alloc: Global, text: &[u8], size: usize) -> Option<CertFault> {
    fault_in(read_in_pieces(alloc, text, size))
}

#[test]
fn each_kind_is_read_back(rt: HostRuntime) -> Result<(), Fail> {
    let alloc = rt.alloc();
    for size in SIZES {
        for text in [KNOWN, RELATION, REFUTED, NEVER, ALIGNABLE, UNKNOWN] {
            assert!(rt; reads_back(alloc, text, size)?, "{size}");
        }
    }
    Ok(())
}

#[test]
fn every_front_is_cut(rt: HostRuntime) -> Result<(), Fail> {
    let alloc = rt.alloc();
    for count in 0..KNOWN.len() {
        assert_eq!(rt;
            fault_of(alloc, &KNOWN[..count]),
            Some(CertFault::Cut),
            "{count}"
        );
    }
    Ok(())
}

// The text with one part of it replaced, where it stands first.
fn replaced(alloc: Global, text: &[u8], old: &[u8], new: &[u8]) -> Result<Vec<u8>, NoMemory> {
    let mut made = Vec::new(alloc);
    for at in 0..text.len() {
        if text[at..].starts_with(old) {
            made.extend_from_slice(&text[..at])?;
            made.extend_from_slice(new)?;
            made.extend_from_slice(&text[at + old.len()..])?;
            return Ok(made);
        }
    }
    Ok(made)
}

fn fault_with(
    alloc: Global,
    text: &[u8],
    old: &[u8],
    new: &[u8],
) -> Result<Option<CertFault>, NoMemory> {
    let text = replaced(alloc, text, old, new)?;
    Ok(fault_of(alloc, text.as_slice()))
}

// A part of a certificate, and what takes its place.
type Change = (&'static [u8], &'static [u8]);

const HEADERS: [Change; 13] = [
    (b"certificate 2", b"certificate 3"),
    (b"certificate 2", b"certificate 02"),
    (b"certificate 2", b"certificate  2"),
    (b"form 2", b"form 4294967296"),
    (b"clock clk", b"clock end"),
    (b"clock clk", b"clock 1"),
    (b"clock clk\n", b""),
    (b"registers 1", b"registers 513"),
    (b"registers 1", b"registers 18446744073709551617"),
    (b"registers 1", b"registers 99999999999999999999"),
    (b"inputs 1", b"inputs 257"),
    (b"outputs 1", b"outputs 257"),
    (b"known", b"unknown "),
];

#[test]
fn headers_break(rt: HostRuntime) -> Result<(), Fail> {
    let alloc = rt.alloc();
    for (old, new) in HEADERS {
        assert_eq!(rt;
            fault_with(alloc, KNOWN, old, new)?,
            Some(CertFault::BadHeader)
        );
    }
    assert_eq!(rt; fault_of(alloc, b"end\n"), Some(CertFault::BadHeader));
    assert_eq!(rt;
        fault_with(alloc, KNOWN, b"form 2", b"form 4294967295")?,
        None
    );
    Ok(())
}

// A part of a certificate, what takes its place, and the line that is then at fault.
type LineChange = (&'static [u8], &'static [u8], u32);

const KNOWN_LINES: [LineChange; 10] = [
    (b"sequence 3", b"sequence 129", 8),
    (b"sequence 3", b"sequence 03", 8),
    (b"sequence 3", b"word 3", 8),
    (b"sequence 3", b"sequence 2", 11),
    (b"sequence 3", b"sequence 4", 12),
    (b"step =1", b"step =11", 9),
    (b"step =1", b"step =", 9),
    (b"step =0", b"step =2", 11),
    (b"step =0", b"step =0 ", 11),
    (b"end\n", b"end\nend\n", 13),
];

const RELATION_LINES: [LineChange; 10] = [
    (b"equal =10", b"equal =1-", 10),
    (b"blocked 2", b"blocked 100001", 11),
    (b"via =0 to 0", b"via =0 to 1", 13),
    (b"via =1 out", b"via =1 in", 12),
    (b"-2 2147483647", b"-0 2147483647", 15),
    (b"-2 2147483647", b"-2 2147483648", 15),
    (b"log split 2", b"log split 99999", 17),
    (b"log split 2", b"log split 18446744073709551615", 17),
    (b"log split 2", b"log split 18446744073709551616", 17),
    (b"log split 2", b"log split 018446744073709551616", 14),
];

#[test]
fn lines_break(rt: HostRuntime) -> Result<(), Fail> {
    let alloc = rt.alloc();
    for (old, new, line) in KNOWN_LINES {
        assert_eq!(rt;
            fault_with(alloc, KNOWN, old, new)?,
            Some(CertFault::BadLine(line))
        );
    }
    for (old, new, line) in RELATION_LINES {
        assert_eq!(rt;
            fault_with(alloc, RELATION, old, new)?,
            Some(CertFault::BadLine(line))
        );
    }
    Ok(())
}

const WORK_LINES: [LineChange; 6] = [
    (b"candidate 70000", b"candidate 4294967296", 11),
    (b"split =-01", b"split =-0", 12),
    (b"stuck =--", b"stuck =---", 15),
    (b"out pair =01", b"to 0 pair =01", 16),
    (b"in pair =11", b"in pair =1", 17),
    (b"built =0 =1", b"built =0 =", 18),
];

#[test]
fn units_of_work_break(rt: HostRuntime) -> Result<(), Fail> {
    let alloc = rt.alloc();
    for (old, new, line) in WORK_LINES {
        assert_eq!(rt;
            fault_with(alloc, UNKNOWN, old, new)?,
            Some(CertFault::BadLine(line))
        );
    }
    assert_eq!(rt;
        fault_with(alloc, UNKNOWN, b"land =1-", b"land =1---")?,
        None
    );
    Ok(())
}

#[test]
fn no_bit_is_free_in_version_1(rt: HostRuntime) -> Result<(), Fail> {
    let alloc = rt.alloc();
    let first = replaced(alloc, KNOWN, b"certificate 2", b"certificate 1")?;
    assert_eq!(rt;
        fault_of(alloc, first.as_slice()),
        Some(CertFault::BadLine(10))
    );
    assert_eq!(rt;
        fault_with(alloc, first.as_slice(), b"step =-", b"step =1")?,
        None
    );
    Ok(())
}
