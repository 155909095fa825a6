// Recorded traces, run: the writes of a part made one after the other, and the part that is left unread.
// What each function means stands in specs/, under the headings of the scope paper.
#![tactic(auto)]

ghost use Rattle.std.specs.Prelude.{◌≡◌};
ghost use Rattle.rules.specs.Numbers.{told_by};

use rules::Refusal;

mod reading;
mod replay;

pub use reading::unread;
pub use replay::run;

// What a run answers: why it was refused, where it was, the entries applied, the total pixels, and those changed.
#[derive(Clone, Copy)]
pub struct Ran {
    pub refused: Option<Refusal>,
    pub applied: u32,
    pub pixels: u32,
    pub changed: u32,
}

impl Ran {
    // No entry applied: how a run begins, and what is answered of a part that is not run.
    pub(crate) fn nothing(refused: Option<Refusal>) -> Ran
        ensures { result ≡ record { refused = refused; applied = 0; pixels = 0; changed = 0 } }
    {
        Ran {
            refused,
            applied: 0,
            pixels: 0,
            changed: 0,
        }
    }

    // Its number, 0 where nothing was refused.
    pub fn number(&self) -> u32
        ensures { result ≡ told_by self.now.refused }
    {
        self.refused.map_or(0, u32::from)
    }
}
