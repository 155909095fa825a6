// The engine: one write at a time, with the card's state and a lent video memory.
// What a write means stands in the crate `rules`; what is promised here stands in specs/.
#![tactic(auto)]

ghost use Rattle.std.specs.Prelude.{◌≡◌, true, false, Ok, length, OnErr};
ghost use Rattle.rules.specs.Refusal.{refusal};
ghost use Rattle.rules.specs.Lines.{walks};
ghost use Rattle.plan.specs.Plan.{plan_of, judged};
ghost use Rattle.engine.specs.Contract.{Written};
ghost use Rattle.engine.specs.Text.{is_text, keeps};

use card::{Card, ONES, REGISTERS, Write};
use plan::{COPY, Plan};
use rules::Refusal;
use span::{Strokes, Tally};

// The offset of continue, a number: a register write asks the register table once, in its plan.
const CONTINUE: u32 = 0x004C;

// The mode register in opaque stipple mode, a number as the definition `is_text` has it: the mode is not decoded for it.
const OPAQUE_STIPPLE: u32 = 0x01;

// The plan of any write. A frame write never looks at the register table, a register write once.
#[tactic(auto, unfolding(plan::specs::Plan::plan_of))]
fn plan_of(card: &Card, w: Write) -> Plan
    ensures { result ≡ plan_of card.now w }
{
    if w.space == REGISTERS {
        registers::plan(card, w)
    } else {
        frames::plan(card, w)
    }
}

// ---- The ways of a write whose plan has nothing at fault, under one contract. Each changes the card in place. The card, the write and VRAM stand
// apart in each: drawing only reads the card and changes VRAM, an effect the other way round.

// Any write but a line or a continue: the drawing and then the effect of its plan. An effect that reads the picture draws nothing.
fn by_plan(p: &Plan, card: &mut Card, w: Write, vram: &mut [u8]) -> Tally
    requires { (p.now ≡ plan_of card.old w) × (walks card.old w ≡ false) × (refusal card.old w (length vram.old) ≡ 0) }
    ensures { Written card.old w vram.old (Ok result) card.new vram.new }
{
    let tally = drawing::draw(p, card, vram);
    effects::left(p.effect, card, w, vram);
    tally
}

// Text, the shorter way (Ask 3): it goes by no operation, no plane mask and no plan. The held planes are kept as ever, by the mask.
fn text(card: &mut Card, w: Write, vram: &mut [u8]) -> Tally
    requires { (is_text card.old w ≡ true) × (refusal card.old w (length vram.old) ≡ 0) }
    ensures { Written card.old w vram.old (Ok result) card.new vram.new }
{
    let foreground = card.registers.foreground;
    let background = card.registers.background;
    let pixels = card.mask.bits;
    let bits = w.data;
    let source = patterns::stippled(bits, foreground, background, 0);
    let mask = patterns::masks(ONES, card.held, 0);
    let s = Strokes {
        op: COPY,
        enable: pixels,
        source,
        mask,
        width: 32,
    };
    let changed = strokes::text_at(vram, w.address, s);
    let enabled = pixels.count_ones();
    effects::mask_used(card);
    Tally { enabled, changed }
}

// Whether it is a line or a continue.
#[tactic(auto, using(crate::proofs::Walking::is_continue), unfolding(rules::specs::Lines::walks))]
fn is_walk(card: &Card, w: Write) -> bool
    ensures { result ≡ walks card.now w }
{
    if w.space == REGISTERS {
        return w.address == CONTINUE;
    }
    modes::is_line(modes::mode_of(card.registers.mode))
}

// A line or a continue (Ask 5): its walk, which may still be refused. A line, as every accepted frame write, uses a one-shot pixel mask up; a continue is
// a register write, and does not.
fn by_walk(card: &mut Card, w: Write, vram: &mut [u8]) -> Result<Tally, Refusal>
    requires { (walks card.old w ≡ true) × (judged (plan_of card.old w) w (length vram.old) ≡ 0) }
    ensures { Written card.old w vram.old result card.new vram.new }
{
    let tally = walks::draw(card, w, vram)?;
    if w.space == REGISTERS {
        return Ok(tally);
    }
    effects::mask_used(card);
    Ok(tally)
}

// Whether a write is text: an opaque stipple with operation 3 and a full plane mask. What seldom changes is asked first.
#[tactic(auto, unfolding(crate::specs::Text::is_text))]
fn is_text(card: &Card, w: Write) -> bool
    ensures { result ≡ is_text card.now w }
{
    card.registers.raster == COPY as u32
        && card.registers.plane == ONES
        && card.registers.mode == OPAQUE_STIPPLE
        && w.space != REGISTERS
}

// ---- One write.

// On a card that is lent: what was drawn, and the card changed in place. A refused write leaves the card and every byte of VRAM, and text all of
// the card but its pixel mask.
pub fn write_to(card: &mut Card, w: Write, vram: &mut [u8]) -> Result<Tally, Refusal>
    ensures wrote { Written card.old w vram.old result card.new vram.new }
    ensures refused { OnErr result ((card.new ≡ card.old) × (vram.new ≡ vram.old)) }
    ensures kept { keeps card.old w (length vram.old) ≡ true → card.new ≡ record card.old { mask = card.new.mask } }
{
    let p = plan_of(card, w);
    refusal::refuse(&p, w, vram.len())?;
    if is_text(card, w) {
        return Ok(text(card, w, vram));
    }
    if is_walk(card, w) {
        return by_walk(card, w, vram);
    }
    Ok(by_plan(&p, card, w, vram))
}

// What a write to a card by value answers: what was drawn, or why it was refused, and the next card.
#[derive(Clone, Copy)]
pub struct Answer {
    pub drawn: Result<Tally, Refusal>,
    pub card: Card,
}

// On a card by value.
pub fn write(card: Card, w: Write, vram: &mut [u8]) -> Answer
    ensures wrote { Written card w vram.old result.drawn result.card vram.new }
    ensures refused { OnErr result.drawn ((result.card ≡ card) × (vram.new ≡ vram.old)) }
    ensures kept { keeps card w (length vram.old) ≡ true → result.card ≡ record card { mask = result.card.mask } }
{
    let mut card = card;
    let drawn = write_to(&mut card, w, vram);
    Answer { drawn, card }
}
