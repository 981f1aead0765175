ghost use Rattle.std.specs.Prelude.{◌≡◌, ◌≤◌, ◌-◌, true, length, Some, IfSome, OnOk, IsOk, IsErr};
ghost use Rattle.rst_outside.specs.Files.{SavesPiece, ChangesOnly};
ghost use Rattle.rst_outside.specs.Causes.{HasCause};
ghost use Rattle.rst_certificate.specs.CertText.{cert_text};

use crate::writer::CertWriter;
use rst_outside::{Desk, Failed};

/// Saves the text of a certificate under the name, piece by piece, from a writer that has given nothing.
/// It takes no memory.
///
/// It fails only where a save failed (`cause`), and the file under the name is then not told. Where the
/// desk has sure room for the text under that name, it doesn't fail (`fits`). All other files stay.
pub fn give_cert<K: Desk>(desk: &mut K, name: &str, writer: &mut CertWriter) -> Result<(), Failed>
    requires { writer.old.given ≡ 0 }
    ensures saved { OnOk result (SavesPiece name.now true (cert_text writer.old.cert) (K.files desk.old) (K.files desk.new)) }
    ensures others { ChangesOnly name.now (K.files desk.old) (K.files desk.new) }
    ensures cause { HasCause (K.save_faults desk.old) (K.save_faults desk.new) (IsErr result) }
    ensures loads { K.load_faults desk.new ≡ K.load_faults desk.old }
    ensures as_sure { K.sure_loads desk.new ≡ K.sure_loads desk.old }
    ensures fits { IfSome (K.sure_room desk.old) (λ room. room.name ≡ name.now → length (cert_text writer.old.cert) ≤ room.left
        → IsOk result × (K.sure_room desk.new ≡ Some (record room { left = room.left - length (cert_text writer.old.cert) }))) }
{
    let mut first = true;
    while let Some(piece) = writer.next() {
        desk.save_piece(name, first, piece)?;
        first = false;
    }
    Ok(())
}
