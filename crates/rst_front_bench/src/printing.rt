// What several answers print: names, refusals and columns.
use rst_reject::Stop;
use rst_value::Tern;
use std::{io, str};

/// A text of bytes, with ? for what is no text.
pub(crate) fn shown(bytes: &[u8]) -> &str {
    str::from_utf8(bytes).unwrap_or("?")
}

/// Prints a refusal.
pub(crate) fn print_stop<R: Print>(rt: &R, stop: &Stop) -> io::Result<()> {
    match stop {
        Stop::Rejected(reject) => {
            let name = shown(reject.name.as_slice());
            let name = if name.is_empty() { "-" } else { name };
            println!(rt; "refused {} {name} {}", reject.code.name(), reject.number)
        }
        Stop::NoMemory => println!(rt; "out of memory or no reading"),
    }
}

/// Prints a column of places, behind a `=` so that none is empty.
pub(crate) fn print_places<R: Print>(rt: &R, places: &[Tern], unknown: &str) -> io::Result<()> {
    print!(rt; "=")?;
    for place in places {
        let one = match place {
            Tern::Zero => "0",
            Tern::One => "1",
            Tern::Unknown => unknown,
        };
        print!(rt; "{one}")?;
    }
    Ok(())
}

/// Prints a column of bits.
pub(crate) fn print_bits<R: Print>(rt: &R, bits: &[bool]) -> io::Result<()> {
    print!(rt; "=")?;
    for bit in bits {
        let one = if *bit { "1" } else { "0" };
        print!(rt; "{one}")?;
    }
    Ok(())
}
