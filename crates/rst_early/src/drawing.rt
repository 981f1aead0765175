// What is drawn at random: states, fillings and words. Nothing is promised of it.
ghost use Rattle.std.specs.Prelude.{◌<◌, ◌^◌};

use crate::Apart;
use rst_gate::{Bits, Cube, Gates, Pattern, Sequence};
use rst_outside::NoMemory;
use rst_value::Tern;
use std::alloc::Global;

// A linear congruential source of bits.
#[derive(Drop)]
pub(crate) struct Source {
    now: u32,
    ghost small: { now < 2 ^ 31 },
}

impl Source {
    pub(crate) fn new() -> Source {
        Source { now: 1 }
    }

    fn bit(&mut self) -> bool {
        let product = u64::from(self.now) * 1_103_515_245 + 12_345;
        let next = (product % 2_147_483_648) as u32;
        self.now = next;
        next >= 1_073_741_824
    }

    // One of so many places.
    fn place(&mut self, count: u32) -> u32 {
        let _first = self.bit();
        if count == 0 {
            0
        } else {
            self.now / 256 % count
        }
    }

    fn bits(&mut self, alloc: Global, count: u32) -> Result<Bits, NoMemory> {
        let mut bits = Bits::new(alloc);
        for _ in 0..count {
            bits.push(self.bit())?;
        }
        Ok(bits)
    }

    // The state with one bit or two turned.
    fn near(&mut self, alloc: Global, bits: &[bool], count: u32) -> Result<Bits, NoMemory> {
        let first = self.place(count);
        let second = self.place(count);
        let mut near = Bits::new(alloc);
        for i in 0..bits.len() {
            let chosen = i == first as usize || i == second as usize;
            near.push(bits[i] != chosen)?;
        }
        Ok(near)
    }

    fn place_of(&mut self, place: Tern) -> bool {
        match place {
            Tern::Zero => false,
            Tern::One => true,
            Tern::Unknown => self.bit(),
        }
    }

    fn input_of(&mut self, alloc: Global, cube: &Cube) -> Result<Bits, NoMemory> {
        let mut input = Bits::new(alloc);
        for place in cube.as_slice() {
            input.push(self.place_of(*place))?;
        }
        Ok(input)
    }

    // A filling of the pattern.
    fn filling(&mut self, alloc: Global, pattern: &Pattern) -> Result<Sequence, NoMemory> {
        let mut word = Sequence::new(alloc);
        for cube in pattern.as_slice() {
            word.push(self.input_of(alloc, cube)?)?;
        }
        Ok(word)
    }

    // An input whose bits are the held ones, but for those that are free.
    fn moved(&mut self, alloc: Global, free: &[bool], held: &[bool]) -> Result<Bits, NoMemory> {
        let mut input = Bits::new(alloc);
        for i in 0..held.len() {
            let drawn = self.bit();
            let stays = i >= free.len() || !free[i];
            input.push(if stays { held[i] } else { drawn })?;
        }
        Ok(input)
    }

    // A word of so many inputs. Some of the inputs are free, others are held for the whole word.
    fn word(&mut self, alloc: Global, inputs: u32, cycles: u32) -> Result<Sequence, NoMemory> {
        let free = self.bits(alloc, inputs)?;
        let held = self.bits(alloc, inputs)?;
        let mut word = Sequence::new(alloc);
        for _ in 0..cycles {
            word.push(self.moved(alloc, free.as_slice(), held.as_slice())?)?;
        }
        Ok(word)
    }

    // States, a filling of the pattern and a word of so many inputs.
    pub(crate) fn apart(
        &mut self,
        alloc: Global,
        gates: &Gates,
        pattern: &Pattern,
        cycles: u32,
    ) -> Result<Apart, NoMemory> {
        let close = self.bit();
        let seq = self.filling(alloc, pattern)?;
        let a = self.bits(alloc, gates.states)?;
        let b = if close {
            self.near(alloc, a.as_slice(), gates.states)?
        } else {
            self.bits(alloc, gates.states)?
        };
        let word = self.word(alloc, gates.inputs, cycles)?;
        Ok(Apart { seq, a, b, word })
    }
}
