// A run, as a C program asks for it: the card stands in the program's memory, and is changed there. What it means stands in the crate `answers`.
// It stands apart from the other entries for C (crates `host` and `host_serial`) since each of these crates is compiled by itself. In this one a run alone
// calls the engine's write, and a function with one caller is built into it.
#![tactic(auto)]

ghost use Rattle.answers.specs.Answers.{Replayed};

use answers::Ran;
use card::Card;

// The entries of a part of a trace, until the budget or the part ends or one is refused.
#[unsafe(no_mangle)]
pub extern "C" fn zevkholtai_run(card: &mut Card, part: &[u8], vram: &mut [u8], budget: u32) -> Ran
    ensures { Replayed part.now budget card.old vram.old result card.new vram.new }
{
    answers::run_on(card, part, vram, budget)
}
