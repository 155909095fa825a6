// The tests of number 1, which traces and read-back use too, of 2, which appending does, and of 8, which drawing does.
#![tactic(auto)]

ghost use Rattle.std.specs.Prelude.{◌≡◌, ◌+◌, ltb};
ghost use Rattle.rules.specs.Refusal.{bad_length, bad_space};

use card::{ALL_LANES, REGISTERS, Write};

// The largest VRAM, in bytes.
pub const LARGEST_VRAM: usize = 2_097_152;

// 1
#[tactic(auto, unfolding(rules::specs::Refusal::bad_length))]
pub fn bad_length(n: usize) -> bool
    ensures { result ≡ bad_length n }
{
    n == 0 || n % 64 != 0 || LARGEST_VRAM < n
}

// 2
#[tactic(auto, unfolding(rules::specs::Refusal::bad_space))]
pub fn bad_space(w: Write) -> bool
    ensures { result ≡ bad_space w }
{
    REGISTERS < w.space || ALL_LANES < w.lanes
}

// 8: the span ends past n bytes. It takes away and never adds, so nothing wraps.
pub fn past_end(first: usize, width: u32, n: usize) -> bool
    ensures { result ≡ ltb n (first + width) }
{
    n < first || n - first < width as usize
}
