// One pixel and the composites of the raster operations, beside the scope paper's "How one pixel is made".
ghost use Rattle.std.specs.Prelude.{◌≤◌};

use crate::score::Score;
use composing::compose;

// The new bit for source bit s and old bit d: bit (3 - 2s - d) of the operation.
fn new_bit(op: u8, s: u8, d: u8) -> u8
    requires { (s ≤ 1) × (d ≤ 1) }
    ensures { result ≤ 1 }
{
    (op >> (3 - 2 * s - d)) % 2
}

// The bits that an operation gives for source and old bit 11, 10, 01 and 00, from bit 3 of the answer down.
fn four_bits(op: u8) -> u8
    ensures { result ≤ 15 }
{
    8 * new_bit(op, 1, 1) + 4 * new_bit(op, 1, 0) + 2 * new_bit(op, 0, 1) + new_bit(op, 0, 0)
}

// A pixel under every operation. Bits 7:4 of the pixel drawn, then bits 3:0: all eight cases of mask, source and old bit. It changes where those four bits do.
pub(crate) fn one_pixel() -> usize {
    let mut score = Score::new();
    for op in 0..16u8 {
        let bits = four_bits(op);
        let changes = bits != 0x0A;
        let high = pixels::make(op, 0xF0, 0xCC, 0xAA);
        let low = pixels::make(op, 0x0F, 0xCC, 0xAA);
        score.add(high.byte == 16 * bits + 0x0A);
        score.add(high.changed == changes);
        score.add(low.byte == 0xA0 + bits);
        score.add(low.changed == changes);
    }
    score.right
}

// The composite of a then b, bit by bit.
fn composed(a: u8, b: u8) -> u8 {
    8 * new_bit(b, 0, new_bit(a, 0, 0))
        + 4 * new_bit(b, 0, new_bit(a, 0, 1))
        + 2 * new_bit(b, 1, new_bit(a, 1, 0))
        + new_bit(b, 1, new_bit(a, 1, 1))
}

// Two operations and their composite, as S9 has them.
const S9: [(u8, u8, u8); 4] = [(6, 6, 5), (3, 6, 0), (1, 7, 3), (6, 1, 2)];

pub(crate) fn s9() -> usize {
    S9.iter().filter(|(a, b, c)| compose(*a, *b) == *c).count()
}

// All sixteen rows of sixteen.
pub(crate) fn by_the_rule() -> usize {
    let mut score = Score::new();
    for a in 0..16u8 {
        for b in 0..16u8 {
            score.add(compose(a, b) == composed(a, b));
        }
    }
    score.right
}

// No operation is neutral on either side.
pub(crate) fn with_five() -> usize {
    let mut score = Score::new();
    for a in 0..16u8 {
        score.add(compose(a, 5) == a);
        score.add(compose(5, a) == a);
    }
    score.right
}

// Every a, b and c: composing is associative.
pub(crate) fn of_three() -> usize {
    let mut score = Score::new();
    for a in 0..16u8 {
        for b in 0..16u8 {
            for c in 0..16u8 {
                let left = compose(compose(a, b), c);
                score.add(compose(a, compose(b, c)) == left);
            }
        }
    }
    score.right
}
