// What is due, ready to be written.
ghost use Rattle.std.specs.Prelude.{◌≡◌, ◌++◌, OnOk, IfOk, Some, None, map, string_bytes};
ghost use Rattle.std.specs.Option.{option_copied};
ghost use Rattle.rst_reject.specs.Lines.{file_part};
ghost use Rattle.rst_answer.specs.Answers.{usage_line, unread_line, file_word, plain_due, usage_due, unread_due, refused_due, CertFits};

use crate::answer::Answer;
use rst_outside::{Bytes, NoMemory};
use rst_reject::{Reject, reject_line};
use rst_verdict::Cert;
use std::alloc::Global;

/// What is due, with the text to put, ready to be written.
#[derive(Drop)]
pub enum Ready {
    /// Only the text is put.
    Put { answer: Box<Answer>, text: Bytes },
    /// The verdict of the certificate, which is saved before the text is put.
    Save { cert: Box<Cert>, text: Bytes },
}

// The word at a place, if there is one.
fn word_at(words: &[String], place: u16) -> Option<&[u8]>
    ensures { option_copied result ≡ file_word (map string_bytes words.now) (Some place) }
{
    match words.get(place as usize) {
        Some(word) => Some(word.as_bytes()),
        None => None,
    }
}

// The word of a refusal's file, if it has one.
fn word_of(words: &[String], file: Option<u16>) -> Option<&[u8]>
    ensures { option_copied result ≡ file_word (map string_bytes words.now) file }
{
    match file {
        Some(place) => word_at(words, place),
        None => None,
    }
}

/// The usage line.
pub fn usage() -> &'static [u8]
    ensures { result.now ≡ usage_line }
{
    b"usage: resetsign check TOP SCRIPT CERT FILE.. | known TOP SCRIPT FILE.. | demo N\n"
}

fn put_word(text: &mut Vec<u8>, word: Option<&[u8]>) -> Result<(), NoMemory>
    ensures { OnOk result (text.new.items ≡ text.old.items ++ file_part (option_copied word.entry)) }
{
    if let Some(word) = word {
        text.push(b' ')?;
        text.extend_from_slice(word)?;
    }
    Ok(())
}

// `read fault` and the word at the place.
fn unread_text(alloc: Global, words: &[String], place: u16) -> Result<Bytes, NoMemory>
    ensures { IfOk result (λ text. text ≡ unread_line (file_word (map string_bytes words.now) (Some place))) }
{
    let mut text = Vec::new(alloc);
    text.extend_from_slice(b"read fault")?;
    put_word(&mut text, word_at(words, place))?;
    text.push(b'\n')?;
    Bytes::new(alloc, &text)
}

/// A text alone, with its answer.
pub fn put_only(alloc: Global, answer: Answer, text: Bytes) -> Result<Ready, NoMemory>
    ensures fits { IfOk result CertFits }
    ensures due { IfOk result (λ ready. plain_due ready ≡ record { answer = answer; text = text; cert = None }) }
{
    Ok(Ready::Put {
        answer: Box::new(alloc, answer)?,
        text,
    })
}

/// What is due where the load of the word at the place failed.
pub fn unread(alloc: Global, words: &[String], place: u16) -> Result<Ready, NoMemory>
    ensures fits { IfOk result CertFits }
    ensures due { IfOk result (λ ready. plain_due ready ≡ unread_due (map string_bytes words.now) place) }
{
    let text = unread_text(alloc, words, place)?;
    put_only(alloc, Answer::Unread(place), text)
}

/// What is due where the input is refused.
pub fn refused(alloc: Global, words: &[String], reject: Reject) -> Result<Ready, NoMemory>
    ensures fits { IfOk result CertFits }
    ensures due { IfOk result (λ ready. plain_due ready ≡ refused_due (map string_bytes words.now) reject) }
{
    let text = reject_line(alloc, &reject, word_of(words, reject.file))?;
    put_only(alloc, Answer::Refused(reject), text)
}
