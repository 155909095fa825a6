// What becomes of the card: the effect of an accepted write, carried out.
#![tactic(auto)]

ghost use Rattle.std.specs.Prelude.{◌≡◌};
ghost use Rattle.plan.specs.Plan.{left as left_by};
ghost use Rattle.rules.specs.Writes.{used_up};

use card::{CLEAR, Card, ONES, SET, Write};
use plan::Effect;
use strokes::buffer;

// What an accepted frame write in any mode but copy leaves: a one-shot pixel mask is used up.
pub fn mask_used(card: &mut Card)
    ensures { card.new ≡ record card.old { mask = used_up card.old.mask } }
{
    if card.mask.marked != CLEAR {
        card.mask.bits = ONES;
        card.mask.marked = CLEAR;
    }
}

// An effect, carried out on the card.
#[tactic(auto, unfolding(plan::specs::Plan::left, plan::specs::Plan::reads, plan::specs::Plan::loads, rules::specs::Writes::sourced))]
pub fn left(effect: Effect, card: &mut Card, w: Write, vram: &[u8])
    ensures { card.new ≡ left_by effect card.old w vram.now }
{
    match effect {
        Effect::UsesMask => mask_used(card),
        Effect::ReadsSource => {
            mask_used(card);
            buffer::source(vram, w.address, w.data, &mut card.copier.buffer);
            card.copier.loaded = CLEAR;
            card.copier.writing = SET;
        }
        Effect::DrawsDestination => {
            mask_used(card);
            card.copier.writing = CLEAR;
        }
        Effect::Stores { register, value } => storing::store(card, register, value),
        Effect::Loads => {
            buffer::load(vram, w.data, &mut card.copier.buffer);
            card.copier.loaded = SET;
        }
        Effect::Unloads => card.copier.loaded = CLEAR,
    }
}
