// What a plan draws, as strokes for the span routine. Masks are made of the plane mask and the held planes, and of no card: text gives a plane mask of its own.
ghost use Rattle.std.specs.Prelude.{◌≡◌, true, false, ℕ, ◌%◌, ◌≤◌};
ghost use Rattle.span.specs.Spans.{piece};
ghost use Rattle.span.specs.Strokes.{pattern_byte, Draws};
ghost use Rattle.rules.specs.Modes.{effective};
ghost use Rattle.plan.specs.Plan.{is_whole, taken_by, planned};

use card::Card;
use plan::{Paint, Plan};
use span::Strokes;

// The four words whose byte j mod 32 pixel j takes. The whole copy buffer is drawn in halves.
fn sources(p: &Paint, buffer: &[u8; 64]) -> [u64; 4]
    ensures { is_whole p.now ≡ false → (j : ℕ) → pattern_byte result j ≡ taken_by p.now buffer.now j }
{
    match *p {
        Paint::Stippled {
            bits,
            foreground,
            background,
            at,
        } => patterns::stippled(bits, foreground, background, at),
        Paint::Tiled { low, high, at } => patterns::tiled(low, high, at),
        Paint::Half => strokes::buffer::half(buffer, 0),
        Paint::Whole => [0u64; 4],
    }
}

// The strokes of a plan.
pub(crate) fn strokes(p: &Plan, card: &Card) -> Strokes
    requires { is_whole p.now.paint ≡ false }
    ensures { Draws result p.now.op (effective card.now) (planned p.now card.now) }
{
    let source = sources(&p.paint, &card.copier.buffer);
    let mask = patterns::masks(card.registers.plane, card.held, p.first);
    Strokes {
        op: p.op,
        enable: p.enable,
        source,
        mask,
        width: p.width,
    }
}

// The strokes of half of the copy buffer: the half that starts at byte k, which is 0 or 32. One function over both has three callers, and took 20
// instructions a write more.
pub(crate) fn half_strokes(p: &Plan, card: &Card, k: usize) -> Strokes
    requires { (is_whole p.now.paint ≡ true) × (k % 32 ≡ 0) × (k ≤ 32) }
    ensures { Draws result p.now.op (effective card.now) (piece k 32 (planned p.now card.now)) }
{
    let source = strokes::buffer::half(&card.copier.buffer, k);
    let mask = patterns::masks(card.registers.plane, card.held, p.first);
    Strokes {
        op: p.op,
        enable: p.enable,
        source,
        mask,
        width: 32,
    }
}
