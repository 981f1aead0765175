// Certificates in files.
ghost use Rattle.std.specs.Prelude.{◌≡◌};

use crate::made::relation;
use rst_certificate::{CertWriter, give_cert};
use rst_outside::{FileDesk, NoMemory};
use rst_take::take_cert;
use rst_verdict::Cert;
use std::alloc::Global;
use std::rt::Files;

// The most bytes that a desk's file may have: 2^62.
const LIMIT: u64 = 4_611_686_018_427_387_904;

/// Makes a certificate of so many wide hops and so many clauses, and says whether it has version 2.
pub(crate) fn make(alloc: Global, hops: u32, clauses: u32) -> Result<bool, NoMemory> {
    let cert = relation(alloc, hops, clauses)?;
    Ok(cert.version == 2)
}

// Writes the certificate into the file, and says whether it stands there.
fn is_written<R: Files>(alloc: Global, rt: &R, name: &str, cert: &Cert) -> Result<bool, NoMemory>
    requires { cert.now.version ≡ 2 }
{
    let mut writer = CertWriter::new(alloc, cert)?;
    let mut desk = FileDesk::new(rt);
    Ok(give_cert(&mut desk, name, &mut writer).is_ok())
}

/// Makes such a certificate and writes it into the file, and says whether it stands there.
pub(crate) fn write<R: Files>(
    alloc: Global,
    rt: &R,
    name: &str,
    hops: u32,
    clauses: u32,
) -> Result<bool, NoMemory> {
    let cert = relation(alloc, hops, clauses)?;
    is_written(alloc, rt, name, &cert)
}

/// Reads the certificate in the file, and says whether there is one.
pub(crate) fn read<R: Files>(alloc: Global, rt: &R, name: &str) -> bool {
    let mut desk = FileDesk::new(rt);
    match take_cert(alloc, &mut desk, name, LIMIT) {
        Ok(cert) => {
            drop(cert);
            true
        }
        Err(_) => false,
    }
}
