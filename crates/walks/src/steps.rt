// The steps of a walk, and the whole of it judged before the first pixel is drawn.
ghost use Rattle.std.specs.Prelude.{◌≡◌, [], ◌∷◌, not, ◌^◌, ◌≤◌, IfOk};
ghost use Rattle.rules.specs.Lines.{within, in_sixteen_bits, stepped, visits as visits_from, walked, strays, wild};
ghost use Rattle.rules.specs.Numbers.{told};
ghost use Rattle.rules.specs.Refusal.{first_holding};
ghost use Rattle.walks.specs.Reach.{Near};

use crate::wholes::{minus, plus, signed};
use rules::{Refusal, Visit, Whole};

// Half of all numbers of 16 bits: from there on a field is below 0.
const HALF_OF_16: u64 = 1 << 15;

// A walk: the words of the increments, how many visits it has and where it starts.
#[derive(Clone, Copy)]
pub(crate) struct Walk {
    pub bresenham1: u32,
    pub bresenham2: u32,
    pub visits: u32,
    pub start: Visit,
    // no sum on its way wraps
    ghost near: { Near (2 ^ 33) start },
    ghost few: { visits ≤ 16 },
}

// A place outside n bytes.
fn outside(x: Whole, n: usize) -> bool
    requires { x.less ≤ 2 ^ 40 }
    ensures { result ≡ not (within n x) }
{
    x.more < x.less || n as u64 <= x.more - x.less
}

// An error outside 16 bits.
fn too_far(x: Whole) -> bool
    requires { (x.more ≤ 2 ^ 40) × (x.less ≤ 2 ^ 40) }
    ensures { result ≡ not (in_sixteen_bits x) }
{
    x.more + HALF_OF_16 < x.less || x.less + HALF_OF_16 <= x.more
}

impl Walk {
    // After each visit. The error is tested as it came to the visit.
    #[tactic(auto, unfolding(rules::specs::Lines::stepped))]
    pub(crate) fn step(&self, s: Visit) -> Visit
        requires { Near (2 ^ 40) s }
        ensures { result ≡ stepped self.now.bresenham1 self.now.bresenham2 s }
    {
        let place = s.place;
        let error = s.error;
        if error.more < error.less {
            return Visit {
                place: plus(place, signed(16, 16, self.bresenham1)),
                error: plus(error, signed(16, 0, self.bresenham1)),
            };
        }
        Visit {
            place: plus(place, signed(16, 16, self.bresenham2)),
            error: minus(error, signed(16, 0, self.bresenham2)),
        }
    }

    // All visits, against a VRAM of n bytes: refused for a place anywhere on the walk before it is for an error; or what is left after the last step.
    pub(crate) fn judge(&self, n: usize) -> Result<Visit, Refusal>
        ensures number { told result
            ≡ first_holding
            ((8, strays n (visits_from self.now.bresenham1 self.now.bresenham2 self.now.visits self.now.start))
            ∷ (12, wild self.now.bresenham1 self.now.bresenham2 (visits_from self.now.bresenham1 self.now.bresenham2 self.now.visits self.now.start))
            ∷ []) }
        ensures end { IfOk result (λ end. end ≡ walked self.now.bresenham1 self.now.bresenham2 self.now.visits self.now.start) }
    {
        let mut at = self.start;
        let mut strays = false;
        let mut wild = false;
        for i in 0..self.visits {
            let next = self.step(at);
            strays |= outside(at.place, n);
            wild |= too_far(at.error) | too_far(next.error);
            at = next;
        }
        if strays {
            return Err(Refusal::Outside);
        }
        if wild {
            return Err(Refusal::Wild);
        }
        Ok(at)
    }
}
