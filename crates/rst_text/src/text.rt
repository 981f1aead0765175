// A text under way.
ghost use Rattle.std.specs.Prelude.{◌≡◌, ℕ, [], ◌∷◌, ◌++◌, OnOk, IfOk};
ghost use Rattle.std.specs.Fmt.{decimal};
ghost use Rattle.rst_text.specs.Lines.{line, counted};

use rst_outside::{Bytes, NoMemory};
use std::alloc::Global;
use std::marker::Model;

/// A text that is written piece by piece. Contracts see it as its bytes so far.
#[derive(Drop)]
pub struct Text {
    alloc: Global,
    bytes: Vec<u8>,
}

impl Model for Text {
    ghost use Rattle.std.specs.Prelude.{List, ℕ};

    ghost Value = { List ℕ };

    ghost view = { λ text. text.bytes.items };
}

impl Text {
    /// The empty text. It takes no memory.
    pub fn new(alloc: Global) -> Text
        ensures { result ≡ [] }
    {
        Text {
            alloc,
            bytes: Vec::new(alloc),
        }
    }

    /// Adds one byte at the end.
    pub fn put_byte(&mut self, byte: u8) -> Result<(), NoMemory>
        ensures { OnOk result (self.new ≡ self.old ++ byte ∷ []) }
    {
        self.bytes.push(byte)?;
        Ok(())
    }

    /// Adds these bytes at the end.
    pub fn put(&mut self, bytes: &[u8]) -> Result<(), NoMemory>
        ensures { OnOk result (self.new ≡ self.old ++ bytes.now) }
    {
        self.bytes.extend_from_slice(bytes)?;
        Ok(())
    }

    /// Adds the number in decimal digits, without leading zeros.
    pub fn put_number(&mut self, number: u64) -> Result<(), NoMemory>
        ensures { OnOk result (self.new ≡ self.old ++ decimal number) }
    {
        let digits = number.to_string(self.alloc)?;
        self.bytes.extend_from_slice(digits.as_bytes())?;
        Ok(())
    }

    /// Adds the word, a space and the number.
    pub fn put_counted(&mut self, word: &[u8], number: u64) -> Result<(), NoMemory>
        ensures { OnOk result (self.new ≡ self.old ++ counted word.now number) }
    {
        self.put(word)?;
        self.put_byte(b' ')?;
        self.put_number(number)?;
        Ok(())
    }

    /// Ends the line.
    pub fn end_line(&mut self) -> Result<(), NoMemory>
        ensures { OnOk result (self.new ≡ self.old ++ 10 ∷ []) }
    {
        self.put_byte(b'\n')?;
        Ok(())
    }

    /// Adds a line with these bytes.
    pub fn put_line(&mut self, bytes: &[u8]) -> Result<(), NoMemory>
        ensures { OnOk result (self.new ≡ self.old ++ line bytes.now) }
    {
        self.put(bytes)?;
        self.end_line()?;
        Ok(())
    }

    /// Adds a line with the word, a space and the number.
    pub fn put_count_line(&mut self, word: &[u8], number: u64) -> Result<(), NoMemory>
        ensures { OnOk result (self.new ≡ self.old ++ line (counted word.now number)) }
    {
        self.put_counted(word, number)?;
        self.end_line()?;
        Ok(())
    }

    /// The text's bytes.
    pub fn finish(&self) -> Result<Bytes, NoMemory>
        ensures { IfOk result (λ bytes. bytes ≡ self.now) }
    {
        Ok(Bytes::new(self.alloc, self.bytes.as_slice())?)
    }
}
