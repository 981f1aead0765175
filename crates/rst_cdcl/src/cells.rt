// Cells of vectors, read and written under a check of the place: what lies outside reads as a
// fallback, and is not written.

/// The number at the place, or 0 outside.
#[inline(always)]
pub fn word(cells: &[u32], at: u32) -> u32 {
    let i = at as usize;
    if i < cells.len() { cells[i] } else { 0 }
}

/// Writes the number at the place.
#[inline(always)]
pub fn set_word(cells: &mut [u32], at: u32, to: u32) {
    let i = at as usize;
    if i < cells.len() {
        cells[i] = to;
    }
}

/// The byte at the place, or 0 outside.
#[inline(always)]
pub fn byte(cells: &[u8], at: u32) -> u8 {
    let i = at as usize;
    if i < cells.len() { cells[i] } else { 0 }
}

/// Writes the byte at the place.
#[inline(always)]
pub fn set_byte(cells: &mut [u8], at: u32, to: u8) {
    let i = at as usize;
    if i < cells.len() {
        cells[i] = to;
    }
}

/// The activity at the place, or 0 outside.
#[inline(always)]
pub fn long(cells: &[u64], at: u32) -> u64 {
    let i = at as usize;
    if i < cells.len() { cells[i] } else { 0 }
}

/// Writes the activity at the place.
#[inline(always)]
pub fn set_long(cells: &mut [u64], at: u32, to: u64) {
    let i = at as usize;
    if i < cells.len() {
        cells[i] = to;
    }
}

/// The number as 32 bits, or the greatest of those where it does not fit.
#[inline(always)]
pub fn narrow(number: usize) -> u32 {
    if number < 0xFFFF_FFFF {
        number as u32
    } else {
        0xFFFF_FFFF
    }
}

/// The code of the literal: twice its variable, from 0, and 1 more for a negation.
#[inline(always)]
pub fn code(number: i32) -> u32 {
    let sign = if number < 0 { 1u32 } else { 0u32 };
    (number.unsigned_abs().wrapping_sub(1) << 1) | sign
}

/// The literal of the code.
pub fn number(code: u32) -> i32 {
    let variable = ((code >> 1) & 0x3FFF_FFFF) as i32 + 1;
    if code & 1 == 0 { variable } else { -variable }
}
