// What an accepted write draws, into the lent VRAM.
#![tactic(auto)]

ghost use Rattle.std.specs.Prelude.{◌≡◌, true, ◌+◌, ◌≤◌, length};
ghost use Rattle.plan.specs.Plan.{is_whole, drawable as drawable_in};
ghost use Rattle.drawing.specs.Contract.{CarriedOut, Tried};

use bounds::past_end;
use card::Card;
use plan::{Paint, Plan};
use span::Tally;

mod brush;

// The pixels of the whole copy buffer.
const WHOLE: u32 = 64;

// Whether a plan can be drawn in n bytes.
#[tactic(auto, unfolding(plan::specs::Plan::drawable))]
fn drawable(p: &Plan, n: usize) -> bool
    ensures { result ≡ drawable_in p.now n }
{
    !past_end(p.first, p.width, n) && (!matches!(p.paint, Paint::Whole) || p.width == WHOLE)
}

// The span of a plan, where it can be drawn. Plan, card and VRAM stand apart here and below: two are read, and one is changed.
pub fn draw(p: &Plan, card: &Card, vram: &mut [u8]) -> Tally
    ensures { Tried p.now card.now vram.old result vram.new }
{
    if drawable(p, vram.len()) {
        planned(p, card, vram)
    } else {
        Tally::NONE
    }
}

// A plan that can be drawn. Where it enables no pixel, its span is not gone through.
fn planned(p: &Plan, card: &Card, vram: &mut [u8]) -> Tally
    requires { (p.now.first + p.now.width ≤ length vram.old) × (is_whole p.now.paint ≡ true → p.now.width ≡ 64) }
    ensures { CarriedOut p.now card.now vram.old result vram.new }
{
    if p.enable == 0 {
        return Tally::NONE;
    }
    match p.paint {
        Paint::Whole => halves(p, card, vram),
        _ => {
            let s = brush::strokes(p, card);
            strokes::draw_at(vram, p.first, s)
        }
    }
}

// The whole copy buffer, in two halves.
fn halves(p: &Plan, card: &Card, vram: &mut [u8]) -> Tally
    requires { (p.now.first + p.now.width ≤ length vram.old) × (is_whole p.now.paint ≡ true) × (p.now.width ≡ 64) }
    ensures { CarriedOut p.now card.now vram.old result vram.new }
{
    let first = p.first;
    let low = brush::half_strokes(p, card, 0);
    let high = brush::half_strokes(p, card, 32);
    let lower = strokes::draw_at(vram, first, low);
    let upper = strokes::draw_at(vram, first + 32, high);
    let enabled = lower.enabled + upper.enabled;
    let changed = lower.changed + upper.changed;
    Tally { enabled, changed }
}
