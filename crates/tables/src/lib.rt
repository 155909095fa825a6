// The table of a pattern of strokes, made once before any pixel is drawn. What it holds stands in specs/Reduced.antt.
#![tactic(auto)]

ghost use Rattle.std.specs.Prelude.{◌≡◌, cond, [], ◌∷◌, ℕ, ◌<◌};
ghost use Rattle.raster.specs.Pixel.{bit};
ghost use Rattle.span.specs.Fragments.{stays, paint, byte};
ghost use Rattle.span.specs.Strokes.{stroke};
ghost use Rattle.tables.specs.Reduced.{keeps, flips, Makes};

use pixels::Reduced;
use span::Strokes;

// The pattern digested, eight pixels a word: an old word becomes (old & and) ^ xor. Two arrays, and not four of `Reduced`: whole patterns take each as 32 bytes.
#[derive(Clone, Copy)]
pub struct Table {
    pub and: [u64; 4],
    pub xor: [u64; 4],
}

// Eight pixels, of which those are drawn whose bit is set. The others are drawn under the mask 0, which changes nothing: no branch.
fn masked(op: u8, mask: u64, bits: u8, source: u64) -> Reduced
    ensures { (k : ℕ) → k < 8
        → (byte result.and k ≡ keeps op (cond (bit bits k) (paint (byte mask k) (byte source k)) stays))
        × (byte result.xor k ≡ flips op (cond (bit bits k) (paint (byte mask k) (byte source k)) stays)) }
{
    pixels::reduce(op, mask & words::widen(bits), source)
}

// Four reduced words as a table.
fn of_four(a: Reduced, b: Reduced, c: Reduced, d: Reduced) -> Table
    ensures { (result.and ≡ a.and ∷ b.and ∷ c.and ∷ d.and ∷ []) × (result.xor ≡ a.xor ∷ b.xor ∷ c.xor ∷ d.xor ∷ []) }
{
    Table {
        and: [a.and, b.and, c.and, d.and],
        xor: [a.xor, b.xor, c.xor, d.xor],
    }
}

// The table of the strokes. Four lines, a word each: a chain over bits and sources is no plainer.
#[inline(always)]
pub fn digest(s: Strokes) -> Table
    ensures { Makes result s.op (stroke s) }
{
    let [a, b, c, d] = s.enable.to_le_bytes();
    of_four(
        masked(s.op, s.mask, a, s.source[0]),
        masked(s.op, s.mask, b, s.source[1]),
        masked(s.op, s.mask, c, s.source[2]),
        masked(s.op, s.mask, d, s.source[3]),
    )
}

// The same under operation 3, whatever their own is. `digest` is built in, and the compiler finds that nothing is left to choose.
pub fn copied(s: Strokes) -> Table
    ensures { Makes result 3 (stroke s) }
{
    digest(Strokes { op: 3, ..s })
}
