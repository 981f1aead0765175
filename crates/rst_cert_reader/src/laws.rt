//! What holds of the definitions alone.
ghost use Rattle.std.specs.Prelude.{◌≡◌, ℕ, List, Ok};
ghost use Rattle.rst_verdict.specs.declared.cert.Cert.{Cert};
ghost use Rattle.rst_certificate.specs.CertText.{cert_text};
ghost use Rattle.rst_cert_reader.specs.Readings.{cert_of};

/// A text that is read as a certificate is the text of that certificate, to the byte.
#[tactic(auto, using(crate::proofs::Found::found))]
pub fn what_is_read_is_written()
    ensures { (text : List ℕ) (cert : Cert) → cert_of text ≡ Ok cert → text ≡ cert_text cert }
{}
