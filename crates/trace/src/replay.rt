// Running a part of a trace.
ghost use Rattle.std.specs.Prelude.{◌≡◌};
ghost use Rattle.trace.specs.Run.{run as run_of, outcome_of};

use crate::Ran;
use bounds::bad_length;
use card::Card;
use checking::well_formed;
use entries::entry_at;
use format::ENTRY;
use rules::Refusal;

// The entries of the part, one after the other, until the budget or the part ends or one is refused. The card is changed in place.
pub fn run(part: &[u8], card: &mut Card, vram: &mut [u8], budget: u32) -> Ran
    ensures { outcome_of result card.new vram.new ≡ run_of part.now budget card.old vram.old }
{
    if !well_formed(part) {
        return Ran::nothing(Some(Refusal::Malformed));
    }
    if bad_length(vram.len()) {
        return Ran::nothing(Some(Refusal::Length));
    }
    let count = (part.len() / ENTRY) as u32;
    let mut ran = Ran::nothing(None);
    for i in 0..count.min(budget) {
        let w = entry_at(part, ENTRY * i as usize);
        match engine::write_to(card, w, vram) {
            Ok(tally) => {
                ran.applied += 1;
                ran.pixels += tally.enabled;
                ran.changed += tally.changed;
            }
            Err(refusal) => {
                return Ran {
                    refused: Some(refusal),
                    ..ran
                };
            }
        }
    }
    ran
}
