// Eight pixels at a time, as a word of 64 bits whose byte k is pixel k.
#![tactic(auto)]

ghost use Rattle.std.specs.Prelude.{◌≡◌, cond, not, [], ◌∷◌, ℕ, ◌+◌, ◌/◌, ◌%◌, ◌≤◌, ◌<◌, eqb, get_or};
ghost use Rattle.raster.specs.Pixel.{bit, number, value};
ghost use Rattle.span.specs.Fragments.{byte};
ghost use Rattle.words.specs.Words.{Marks};

// Bits 6:0 of each byte, and bit 7.
const LOW: u64 = 0x7F7F_7F7F_7F7F_7F7F;

const HIGH: u64 = 0x8080_8080_8080_8080;

// Two registers as one word, `low` first.
pub fn pair(low: u32, high: u32) -> u64
    ensures { (k : ℕ) → k < 8 → byte result k ≡ byte (get_or (low ∷ high ∷ []) (k / 4) 0) (k % 4) }
{
    (high as u64) << 32 | low as u64
}

// The word as the pixels from n on take it, where pixel 0 takes byte 0, pixel 8 too.
pub fn turned(w: u64, n: usize) -> u64
    ensures { (k : ℕ) → k < 8 → byte result k ≡ byte w ((n + k) % 8) }
{
    w.rotate_right((n % 8 * 8) as u32)
}

// Byte k is 255 where bit k is set, else 0.
pub fn widen(bits: u8) -> u64
    ensures { (k : ℕ) → k < 8 → byte result k ≡ cond (bit bits k) 255 0 }
{
    let apart = bits as u64 * 0x0101_0101_0101_0101 & 0x8040_2010_0804_0201;
    ((apart + LOW) / 0x80 & 0x0101_0101_0101_0101) * 0xFF
}

// Each bit of a where c has a one, else of b.
pub fn select(c: u64, a: u64, b: u64) -> u64
    ensures { result ≡ number 64 (λ k. cond (bit c k) (bit a k) (bit b k)) }
{
    b ^ (c & (a ^ b))
}

// ---- Pixels that are not the same.

// One where two bytes are not the same, else 0. The compiler makes it no branch.
pub fn differ(a: u8, b: u8) -> u8
    ensures { (result ≡ value (not (eqb b a))) × (result ≤ 1) }
{
    (a != b) as u8
}

// The same in each byte of two words. A byte of their exclusive-or has bit 7, or a lower bit, which 7Fh added to bits 6:0 carries there.
pub fn differing(a: u64, b: u64) -> u64
    ensures { Marks (λ k. not (eqb (byte b k) (byte a k))) result }
{
    let x = a ^ b;
    (((x & LOW) + LOW | x) & HIGH) / 0x80
}
