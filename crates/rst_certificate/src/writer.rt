ghost use Rattle.std.specs.Prelude.{◌≡◌, [], ◌++◌, length, drop, IfOk};
ghost use Rattle.std.specs.Option.{option_copied};
ghost use Rattle.std.specs.Borrow.{sem};
ghost use Rattle.std.specs.Io.BufRead.{Rests};
ghost use mir.Syntax.{named};
ghost use Rattle.rst_certificate.specs.CertText.{cert_text, VersionFits};
ghost use Rattle.rst_certificate.specs.Writing.{left_of, IsNext, behind};

use crate::piece::Piece;
use crate::plan::plan;
use crate::unwritten::Unwritten;
use rst_outside::{Bytes, NoMemory};
use rst_verdict::Cert;
use std::alloc::Global;
use std::marker::Model;

/// Gives the text of a certificate piece by piece, so that the whole text is held nowhere.
///
/// Contracts see the certificate and how many bytes were given.
#[derive(Drop)]
pub struct CertWriter<'a> {
    cert: &'a Cert,
    unwritten: Unwritten<'a>,
    piece: Piece,
}

impl<'a> Model for CertWriter<'a> {
    ghost use Rattle.std.specs.Prelude.{◌-◌, length};
    ghost use Rattle.rst_certificate.specs.CertText.{cert_text};
    ghost use Rattle.rst_certificate.specs.Writing.{Writing};
    ghost use Rattle.rst_certificate.specs.Sections.{EndsIn};

    ghost Value = { Writing };

    ghost view = { λ w. record { cert = w.cert.now; given = length (cert_text w.cert.now) - length w.unwritten.text } };

    ghost invariant = { λ w. EndsIn (cert_text w.cert.now) w.unwritten.text };
}

impl<'a> CertWriter<'a> {
    ghost use Rattle.rst_certificate.specs.contracts.writer.CertWriter.{the_row};

    /// A writer of the certificate's text that has given nothing. A certificate of version 1 has no free
    /// bit.
    pub fn new(alloc: Global, cert: &'a Cert) -> Result<CertWriter<'a>, NoMemory>
        requires { VersionFits cert.now }
        ensures { IfOk result (λ writer. writer ≡ record { cert = cert.now; given = 0 }) }
    {
        let sections = plan(alloc, cert)?;
        let unwritten = Unwritten::new(alloc, sections)?;
        let piece = Piece::new(alloc)?;
        Ok(CertWriter {
            cert,
            unwritten,
            piece,
        })
    }

    /// The next piece of the text, of 1 to 65,536 bytes, or None behind the last. It takes no memory.
    pub fn next(&mut self) -> Option<&[u8]>
        ensures next { IsNext self.old (option_copied result) }
        ensures* after { sem 𝓛 (Rests (the_row (record { mir = named 1; lft = [] })) self.entry (λ new. new ≡ behind self.old (option_copied result))) }
    {
        self.unwritten.fill(&mut self.piece);
        if self.piece.as_slice().is_empty() {
            None
        } else {
            Some(self.piece.as_slice())
        }
    }
}

/// The whole text of a certificate: a header of seven lines, the evidence of its verdict, and the line
/// `end`. A certificate of version 1 has no free bit.
pub fn cert_text(alloc: Global, cert: &Cert) -> Result<Bytes, NoMemory>
    requires { VersionFits cert.now }
    ensures { IfOk result (λ bytes. bytes ≡ cert_text cert.now) }
{
    let mut writer = CertWriter::new(alloc, cert)?;
    let mut text = Vec::new(alloc);
    while let Some(piece) = writer.next() {
        text.extend_from_slice(piece)?;
    }
    Ok(Bytes::new(alloc, text.as_slice())?)
}
