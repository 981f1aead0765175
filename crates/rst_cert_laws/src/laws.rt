//! What holds of the definitions alone.
ghost use Rattle.std.specs.Prelude.{◌≡◌, Ok};
ghost use Rattle.rst_verdict.specs.declared.cert.Cert.{Cert};
ghost use Rattle.rst_certificate.specs.CertText.{cert_text};
ghost use Rattle.rst_cert_reader.specs.Readings.{cert_of};
ghost use Rattle.rst_cert_laws.specs.Limits.{CertFits};

/// The text of a certificate within the format's limits is read back as that certificate.
#[tactic(auto, using(crate::proofs::Whole::read_back))]
pub fn what_is_written_is_read()
    ensures { (cert : Cert) → CertFits cert → cert_of (cert_text cert) ≡ Ok cert }
{}
