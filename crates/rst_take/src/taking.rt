// Certificates, taken piece by piece.
ghost use Rattle.std.specs.Prelude.{◌≡◌, ◌≢◌, ◌≤◌, ◌<◌, ◌+◌, ◌^◌, ◌++◌, ℕ, List, [], None, Ok, Err, length, take, replicate, IfOk, OnOk, IfErr, IsErrOf, IsErr, IfSome, IsTrue};
ghost use Rattle.rst_outside.specs.Causes.{Rose, HasCause};
ghost use Rattle.rst_outside.specs.Files.{bytes_under, IsLongUnder, IsPieceUnder};
ghost use Rattle.rst_certificate.specs.CertText.{cert_text};
ghost use Rattle.rst_cert_reader.specs.Readings.{cert_of};
ghost use Rattle.rst_cert_reader.specs.Kept.{StandsFor};
ghost use Rattle.rst_take.specs.Takes.{IsReadUnder, Takes};
ghost use Rattle.rst_take.specs.Fronts.{HasRead, HasReadAll};

use crate::fault::TakeFault;
use rst_cert_reader::{CertFault, CertReader};
use rst_outside::{Desk, Failed, LoadError, NoMemory};
use rst_verdict::Cert;
use std::alloc::Global;

// How many bytes a piece has at most.
const PIECE_BYTES: usize = 65_536;

// Room for a piece.
fn piece_room(alloc: Global) -> Result<Vec<u8>, NoMemory>
    ensures { IfOk result (λ room. length room.items ≡ 65536) }
{
    Ok(vec![in alloc; 0u8; PIECE_BYTES]?)
}

// Loads a piece of at most so many bytes into the front of the room.
fn load_front<K: Desk>(
    desk: &mut K,
    name: &str,
    from: u64,
    most: usize,
    room: &mut [u8],
) -> Result<u32, Failed>
    requires some { 0 < most }
    requires at_most { most ≤ length room.old }
    requires long { length room.old ≡ 65536 }
    ensures room { length room.new ≡ 65536 }
    ensures within { IfOk result (λ count. count ≤ most) }
    ensures piece { IfOk result (λ count. IfSome (K.files desk.old) (IsPieceUnder name.now from count room.new)) }
    ensures cause { HasCause (K.load_faults desk.old) (K.load_faults desk.new) (IsErr result) }
    ensures sure { IsTrue (K.sure_loads desk.old) → IsErr result → IfSome (K.files desk.old) (λ held. bytes_under name.now held ≡ None) }
    ensures kept { K.files desk.new ≡ K.files desk.old }
    ensures saves { K.save_faults desk.new ≡ K.save_faults desk.old }
    ensures as_sure { K.sure_loads desk.new ≡ K.sure_loads desk.old }
    ensures sure_room { K.sure_room desk.new ≡ K.sure_room desk.old }
{
    desk.load_piece(name, from, &mut room[..most])
}

// Feeds the reader so many bytes.
fn feed_front(reader: &mut CertReader, room: &[u8], count: u32) -> Result<(), NoMemory>
    requires { count ≤ length room.now }
    ensures { OnOk result ((text : List ℕ) → StandsFor reader.old text → StandsFor reader.new (text ++ take count room.now)) }
{
    reader.feed(&room[..count as usize])
}

// Feeds the reader the next piece of a file, from a place on, and answers how many bytes it has. At most
// one byte past the limit is read.
fn take_piece<K: Desk>(
    desk: &mut K,
    name: &str,
    limit: u64,
    from: u64,
    reader: &mut CertReader,
    room: &mut [u8],
) -> Result<u32, LoadError>
    requires limit { limit ≤ 2 ^ 62 }
    requires from { from ≤ limit }
    requires room { length room.old ≡ 65536 }
    ensures room { length room.new ≡ 65536 }
    ensures fed { IfOk result (λ count. HasRead name.now (K.files desk.old) from reader.old → HasRead name.now (K.files desk.old) (from + count) reader.new) }
    ensures end { result ≡ Ok 0 → HasRead name.now (K.files desk.old) from reader.old → HasReadAll name.now limit (K.files desk.old) reader.new }
    ensures within { IfOk result (λ count. from + count ≤ limit) }
    ensures long { IsErrOf result LoadError.TooLong → IfSome (K.files desk.old) (IsLongUnder name.now limit) }
    ensures cause { IsErrOf result LoadError.Failed → Rose (K.load_faults desk.old) (K.load_faults desk.new) }
    ensures later { K.load_faults desk.old ≤ K.load_faults desk.new }
    ensures sure { IsTrue (K.sure_loads desk.old) → IsErrOf result LoadError.Failed → IfSome (K.files desk.old) (λ held. bytes_under name.now held ≡ None) }
    ensures kept { K.files desk.new ≡ K.files desk.old }
    ensures saves { K.save_faults desk.new ≡ K.save_faults desk.old }
    ensures as_sure { K.sure_loads desk.new ≡ K.sure_loads desk.old }
    ensures sure_room { K.sure_room desk.new ≡ K.sure_room desk.old }
{
    let left = limit - from;
    let most = if left < PIECE_BYTES as u64 {
        left as usize + 1
    } else {
        PIECE_BYTES
    };
    let Ok(count) = load_front(desk, name, from, most, room) else {
        return Err(LoadError::Failed);
    };
    if u64::from(count) > left {
        return Err(LoadError::TooLong);
    }
    match feed_front(reader, room, count) {
        Ok(()) => Ok(count),
        Err(NoMemory) => Err(LoadError::NoMemory),
    }
}

// Feeds the reader the whole file, where it has at most `limit` bytes.
fn take_pieces<K: Desk>(
    desk: &mut K,
    name: &str,
    limit: u64,
    reader: &mut CertReader,
    room: &mut [u8],
) -> Result<(), LoadError>
    requires limit { limit ≤ 2 ^ 62 }
    requires room { length room.old ≡ 65536 }
    requires reader { StandsFor reader.old [] }
    ensures all { OnOk result (HasReadAll name.now limit (K.files desk.old) reader.new) }
    ensures long { IsErrOf result LoadError.TooLong → IfSome (K.files desk.old) (IsLongUnder name.now limit) }
    ensures cause { IsErrOf result LoadError.Failed → Rose (K.load_faults desk.old) (K.load_faults desk.new) }
    ensures later { K.load_faults desk.old ≤ K.load_faults desk.new }
    ensures sure { IsTrue (K.sure_loads desk.old) → IsErrOf result LoadError.Failed → IfSome (K.files desk.old) (λ held. bytes_under name.now held ≡ None) }
    ensures kept { K.files desk.new ≡ K.files desk.old }
    ensures saves { K.save_faults desk.new ≡ K.save_faults desk.old }
    ensures as_sure { K.sure_loads desk.new ≡ K.sure_loads desk.old }
    ensures sure_room { K.sure_room desk.new ≡ K.sure_room desk.old }
{
    let mut from: u64 = 0;
    loop {
        let count = take_piece(desk, name, limit, from, reader, room)?;
        if count == 0 {
            return Ok(());
        }
        from += u64::from(count);
    }
}

// What the bytes are that the reader has read. Want of memory is a load's fault.
fn taken(reader: CertReader) -> Result<Cert, TakeFault>
    ensures { (text : List ℕ) → StandsFor reader text → Takes (cert_of text) result }
{
    match reader.finish() {
        Ok(cert) => Ok(cert),
        Err(CertFault::NoMemory) => Err(TakeFault::Load(LoadError::NoMemory)),
        Err(fault) => Err(TakeFault::Text(fault)),
    }
}

/// Takes the certificate that the file under the name holds, where it has at most `limit` bytes, piece by
/// piece, so that its text is held nowhere whole.
///
/// A file of more bytes is `Load(TooLong)`, whatever its text is, and of it one byte past the limit is read.
/// Other files are read to the end before their text's fault is told. Want of memory is `Load(NoMemory)`
/// and never `Text(NoMemory)`. No file changes.
pub fn take_cert<K: Desk>(
    alloc: Global,
    desk: &mut K,
    name: &str,
    limit: u64,
) -> Result<Cert, TakeFault>
    requires { limit ≤ 2 ^ 62 }
    ensures cert { IfOk result (λ cert. IfSome (K.files desk.old) (IsReadUnder name.now limit (Ok cert))) }
    ensures written { IfOk result (λ cert. cert_of (cert_text cert) ≡ Ok cert) }
    ensures short { IfOk result (λ cert. length (cert_text cert) ≤ limit) }
    ensures text { (fault : CertFault) → IsErrOf result (TakeFault.Text fault) → IfSome (K.files desk.old) (IsReadUnder name.now limit (Err fault)) }
    ensures memory { IsErrOf result (TakeFault.Text CertFault.NoMemory) → ⊥ }
    ensures long { IsErrOf result (TakeFault.Load LoadError.TooLong) → IfSome (K.files desk.old) (IsLongUnder name.now limit) }
    ensures cause { IsErrOf result (TakeFault.Load LoadError.Failed) → Rose (K.load_faults desk.old) (K.load_faults desk.new) }
    ensures later { K.load_faults desk.old ≤ K.load_faults desk.new }
    ensures sure { IsTrue (K.sure_loads desk.old) → IsErrOf result (TakeFault.Load LoadError.Failed) → IfSome (K.files desk.old) (λ held. bytes_under name.now held ≡ None) }
    ensures kept { K.files desk.new ≡ K.files desk.old }
    ensures saves { K.save_faults desk.new ≡ K.save_faults desk.old }
    ensures as_sure { K.sure_loads desk.new ≡ K.sure_loads desk.old }
    ensures sure_room { K.sure_room desk.new ≡ K.sure_room desk.old }
{
    let mut room = piece_room(alloc)?;
    let mut reader = CertReader::new(alloc)?;
    match take_pieces(desk, name, limit, &mut reader, room.as_mut_slice()) {
        Ok(()) => taken(reader),
        Err(fault) => {
            drop(reader);
            Err(TakeFault::Load(fault))
        }
    }
}
