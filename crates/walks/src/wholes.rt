// Whole numbers, also below 0, as a walk reckons with them: what was added less what was taken away. Functions, and no `From`, `Add` or `Sub`, which could not
// ask that nothing wraps.
ghost use Rattle.std.specs.Prelude.{◌≡◌, ◌≤◌, ◌<◌};
ghost use Rattle.rules.specs.Lines.{natural as natural_of, signed as signed_of, word as word_of, plus as sum, minus as difference};
ghost use Rattle.walks.specs.Reach.{Fit};

use rules::Whole;

// One more than the largest word.
const WORD: u64 = 1 << 32;

pub(crate) fn natural(n: u64) -> Whole
    ensures { result ≡ natural_of n }
{
    Whole { more: n, less: 0 }
}

// `width` bits of a word, from bit `from` on, of which the last is the sign.
pub(crate) fn signed(width: u32, from: u32, word: u32) -> Whole
    requires { (0 < width) × (width ≤ 32) × (from < 32) }
    ensures { result ≡ signed_of width from word }
{
    let all = 1u64 << width;
    let field = (word >> from) as u64 % all;
    if field < 1u64 << (width - 1) {
        Whole {
            more: field,
            less: 0,
        }
    } else {
        Whole {
            more: field,
            less: all,
        }
    }
}

// The word that holds one, in two's complement.
pub(crate) fn word(x: Whole) -> u32
    ensures { result ≡ word_of x }
{
    let more = (x.more % WORD) as u32;
    let less = (x.less % WORD) as u32;
    more.wrapping_sub(less)
}

pub(crate) fn plus(x: Whole, y: Whole) -> Whole
    requires { Fit x × Fit y }
    ensures { result ≡ sum x y }
{
    Whole {
        more: x.more + y.more,
        less: x.less + y.less,
    }
}

pub(crate) fn minus(x: Whole, y: Whole) -> Whole
    requires { Fit x × Fit y }
    ensures { result ≡ difference x y }
{
    Whole {
        more: x.more + y.less,
        less: x.less + y.more,
    }
}
