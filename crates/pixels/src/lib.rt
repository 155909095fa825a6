// The rule of one pixel, which is one byte here, for eight pixels at once: a word of 64 bits has eight.
#![tactic(auto)]

ghost use Rattle.std.specs.Prelude.{◌≡◌, ◌-◌, ◌^◌};
ghost use Rattle.std.specs.Int.Bits.{bit_xor};
ghost use Rattle.raster.specs.Pixel.{bit, number, made};
ghost use Rattle.span.specs.Fragments.{paint, alters};

// A raster operation reduced, as X servers call it, to one source word and one mask: an old word becomes (old & and) ^ xor.
#[derive(Clone, Copy)]
pub struct Reduced {
    pub and: u64,
    pub xor: u64,
}

// All ones where n is odd, else 0.
fn spread(n: u8) -> u64
    ensures { result ≡ number 64 (λ k. bit n 0) }
{
    (n % 2) as u64 * u64::MAX
}

// The two words that settle every old word: what an old word of zeros becomes, and the bits in which one of ones comes out otherwise.
pub fn reduce(op: u8, mask: u64, source: u64) -> Reduced
    ensures { (result.xor ≡ made 64 op mask source 0)
        × (result.and ≡ bit_xor (made 64 op mask source 0) (made 64 op mask source (2 ^ 64 - 1))) }
{
    let of_zeros = words::select(source, spread(op / 2), spread(op / 8));
    let of_ones = words::select(source, spread(op), spread(op / 4));
    let zeros = words::select(mask, of_zeros, 0);
    let ones = words::select(mask, of_ones, u64::MAX);
    Reduced {
        and: zeros ^ ones,
        xor: zeros,
    }
}

// One pixel made, and whether it is another than the old one. No Option: a pixel that comes out the same is stored too, with no branch.
#[derive(Clone, Copy)]
pub struct Made {
    pub byte: u8,
    pub changed: bool,
}

// One pixel. Of the operation only bits 3:0 count, as in the raster-operation register.
pub fn make(op: u8, mask: u8, source: u8, old: u8) -> Made
    ensures { (result.byte ≡ made 8 op mask source old) × (result.changed ≡ alters op (paint mask source) old) }
{
    let r = reduce(op, mask as u64, source as u64);
    let byte = (((old as u64 & r.and) ^ r.xor) % 256) as u8;
    Made {
        byte,
        changed: byte != old,
    }
}
