// The copy buffer by words: half of it as a pattern, and pixels read into it. It stays where they do not all lie inside VRAM.
ghost use Rattle.std.specs.Prelude.{◌≡◌, cond, ◌++◌, ℕ, ◌+◌, ◌*◌, ◌/◌, ◌%◌, ◌≤◌, leb, length, get_or, take, drop};
ghost use Rattle.raster.specs.Pixel.{bit};
ghost use Rattle.span.specs.Fragments.{listed};
ghost use Rattle.span.specs.Strokes.{pattern_byte};

use crate::memory;

// Half of the copy buffer as a pattern: the half that byte `at` is in. Four lines: of an array made by `from_fn` no value was proved.
pub fn half(buffer: &[u8; 64], at: usize) -> [u64; 4]
    ensures { (j : ℕ) → pattern_byte result j ≡ get_or buffer.now (at / 32 % 2 * 32 + j % 32) 0 }
{
    let start = at / 32 % 2 * 32;
    let a = memory::load(buffer, start);
    let b = memory::load(buffer, start + 8);
    let c = memory::load(buffer, start + 16);
    let d = memory::load(buffer, start + 24);
    [a, b, c, d]
}

// Copy mode's source, eight pixels at a time: pixel i where bit i is set, else 0.
pub fn source(vram: &[u8], address: u32, bits: u32, buffer: &mut [u8; 64])
    ensures { buffer.new ≡ cond (leb (address + 32) (length vram.now))
        (listed 32 (λ i. cond (bit bits i) (get_or vram.now (address + i) 0) 0) ++ drop 32 buffer.old) buffer.old }
{
    let at = address as usize;
    if vram.len() < at + 32 {
        return;
    }
    let enabled = bits.to_le_bytes();
    for k in 0..4 {
        memory::store(
            buffer,
            8 * k,
            memory::load(vram, at + 8 * k) & words::widen(enabled[k]),
        );
    }
}

// The 64-byte copy's source.
pub fn load(vram: &[u8], address: u32, buffer: &mut [u8; 64])
    ensures { buffer.new ≡ cond (leb (address + 64) (length vram.now)) (take 64 (drop address vram.now)) buffer.old }
{
    let at = address as usize;
    if at + 64 <= vram.len() {
        *buffer = <[u8; 64]>::try_from(&vram[at..at + 64]).unwrap();
    }
}
