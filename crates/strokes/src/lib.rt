// The span routine: strokes drawn into the lent part of VRAM that starts at the span's first pixel, by patterns of 32 pixels, then by words of
// eight, then by bytes. It serves every drawing mode.
#![tactic(auto)]

ghost use Rattle.std.specs.Prelude.{◌≡◌, cond, ℕ, ◌+◌, ◌*◌, ◌/◌, ◌%◌, ◌^◌, ◌≤◌, ◌<◌, min, leb, length, get_or};
ghost use Rattle.std.specs.Int.Bits.{bit_and, bit_xor};
ghost use Rattle.std.proofs.lemmas.List.Edits.{sets};
ghost use Rattle.raster.specs.Pixel.{bit};
ghost use Rattle.span.specs.Fragments.{Fragment, drawn, before, from, counted, differs, differing, byte, listed};
ghost use Rattle.span.specs.Strokes.{pattern_byte, stroke, enabled, Drew};
ghost use Rattle.words.specs.Words.{joined, added, Marks};
ghost use Rattle.tables.specs.Reduced.{keeps, flips, Makes};
ghost use Rattle.strokes.specs.Progress.{altered, Further};

use span::{Strokes, Tally};
use tables::Table;

pub mod buffer;
mod memory;

// ---- Pixels drawn. What t makes is said anew in each contract: a step holds for every f that t makes, and a field of the table can't have them all.
// Places are those of the span, since what a pixel takes goes by its place: so a part and its bounds, and no shorter slice.

// The bytes of a word added up by one product, where they are at most 255 in all. It says nothing of larger sums, so it is private here.
fn total(w: u64) -> u32
    ensures { (f : ℕ → ℕ) → w ≡ joined (listed 8 f) → added (listed 8 f) < 256 → result ≡ added (listed 8 f) }
{
    let halves = w % 0x1_0000_0000 + w / 0x1_0000_0000;
    (halves * 0x0101_0101 / 0x100_0000 % 0x100) as u32
}

// Eight pixels from `at` on: one load and one store. A byte of the answer is one where the pixel changed, else 0.
fn word(part: &mut [u8], at: usize, and: u64, xor: u64) -> u64
    requires { at + 8 ≤ length part.old }
    ensures { (part.new ≡ sets part.old at (listed 8 (λ k.
        bit_xor (bit_and (get_or part.old (at + k) 0) (byte and k)) (byte xor k))))
        × Marks (λ k. differs part.old part.new (at + k)) result }
{
    let old = memory::load(part, at);
    let new = (old & and) ^ xor;
    memory::store(part, at, new);
    words::differing(old, new)
}

// Four words as 32 bytes, a store each: a loop over four would want an invariant, and say no more.
fn bytes(words: [u64; 4]) -> [u8; 32]
    ensures { (j : ℕ) → j < 32 → get_or result j 0 ≡ pattern_byte words j }
{
    let mut all = [0u8; 32];
    memory::store(&mut all, 0, words[0]);
    memory::store(&mut all, 8, words[1]);
    memory::store(&mut all, 16, words[2]);
    memory::store(&mut all, 24, words[3]);
    all
}

// The whole pattern from `at` on, by bytes (docs/DECISIONS.md). The sum is a byte, or the compiler would not take sixteen at once.
// This and what follows answer how many pixels changed.
fn pattern(part: &mut [u8], at: usize, and: [u8; 32], xor: [u8; 32]) -> u32
    requires { at + 32 ≤ length part.old }
    ensures { (result ≤ 32) × ((op : ℕ) (f : ℕ → Fragment)
        → ((j : ℕ) → j < 32 → (get_or and j 0 ≡ keeps op (f (at + j))) × (get_or xor j 0 ≡ flips op (f (at + j))))
        → Further op f at (at + 32) part.old result part.new) }
{
    let mut changed: u8 = 0;
    for j in 0..32 {
        let old = part[at + j];
        let new = (old & and[j]) ^ xor[j];
        part[at + j] = new;
        changed += words::differ(old, new);
    }
    changed as u32
}

// The pattern n times.
fn by_patterns(part: &mut [u8], n: usize, t: Table) -> u32
    requires { (32 * n ≤ length part.old) × (32 * n < 2 ^ 32) }
    ensures { (result ≤ 32 * n) × ((op : ℕ) (f : ℕ → Fragment) → Makes t op f
        → Further op f 0 (32 * n) part.old result part.new) }
{
    let and = bytes(t.and);
    let xor = bytes(t.xor);
    let mut changed: u32 = 0;
    for i in 0..n {
        changed += pattern(part, 32 * i, and, xor);
    }
    changed
}

// Words `start` to n - 1.
fn by_words(part: &mut [u8], start: usize, n: usize, t: Table) -> u32
    requires { (start ≤ n) × (8 * n ≤ length part.old) × (8 * n < 2 ^ 32) }
    ensures { (result + 8 * start ≤ 8 * n) × ((op : ℕ) (f : ℕ → Fragment) → Makes t op f
        → Further op f (8 * start) (8 * n) part.old result part.new) }
{
    let mut changed: u32 = 0;
    for g in start..n {
        changed += word(part, 8 * g, t.and[g % 4], t.xor[g % 4]).count_ones();
    }
    changed
}

// The pixels of the last word, fewer than eight.
fn by_bytes(part: &mut [u8], start: usize, end: usize, and: u64, xor: u64) -> u32
    requires { (start ≤ end) × (end ≤ length part.old) × (end < 2 ^ 32) }
    ensures { (result + start ≤ end) × ((op : ℕ) (f : ℕ → Fragment)
        → ((j : ℕ) → start ≤ j → j < end → (byte and (j % 8) ≡ keeps op (f j)) × (byte xor (j % 8) ≡ flips op (f j)))
        → Further op f start end part.old result part.new) }
{
    let and = and.to_le_bytes();
    let xor = xor.to_le_bytes();
    let mut changed: u32 = 0;
    for j in start..end {
        let old = part[j];
        let new = (old & and[j % 8]) ^ xor[j % 8];
        part[j] = new;
        changed += words::differ(old, new) as u32;
    }
    changed
}

// The pixels after the last whole pattern. Where there are none, the table's words need not stand in memory beside its bytes.
fn last(part: &mut [u8], end: usize, t: Table) -> u32
    requires { (end ≤ length part.old) × (end < 2 ^ 32) }
    ensures { (result + 32 * (end / 32) ≤ end) × ((op : ℕ) (f : ℕ → Fragment) → Makes t op f
        → Further op f (32 * (end / 32)) end part.old result part.new) }
{
    if end % 32 == 0 {
        return 0;
    }
    let n = end / 8;
    let whole = by_words(part, 4 * (end / 32), n, t);
    let rest = by_bytes(part, 8 * n, end, t.and[n % 4], t.xor[n % 4]);
    whole + rest
}

// ---- Pixels counted.

// How many of the first n pixels are enabled: no turn of a loop for each.
fn count(enable: u32, n: usize) -> u32
    requires { n < 2 ^ 32 }
    ensures { result ≡ counted n (λ j. bit enable (j % 32)) }
{
    let n = n as u32;
    let turns = n / 32 * enable.count_ones();
    turns + (enable % (1 << (n % 32))).count_ones()
}

// ---- The span.

// Draws the span at the start of the part, or as much of it as the part holds, and counts the pixels enabled and those changed there.
fn draw(part: &mut [u8], s: Strokes) -> Tally
    ensures { (part.new ≡ drawn s.op (before s.width (stroke s)) part.old)
        × (result.enabled ≡ counted (min s.width (length part.old)) (enabled s))
        × (result.changed ≡ altered s.op (stroke s) part.old (min s.width (length part.old))) }
{
    let t = tables::digest(s);
    let end = (s.width as usize).min(part.len());
    let whole = by_patterns(part, end / 32, t);
    let rest = last(part, end, t);
    let changed = whole + rest;
    let enabled = count(s.enable, end);
    Tally { enabled, changed }
}

// The same in the part of VRAM that starts at the span's first pixel; nothing where that lies past the end.
pub fn draw_at(vram: &mut [u8], first: usize, s: Strokes) -> Tally
    ensures { Drew s first vram.old result vram.new }
{
    if vram.len() < first {
        return Tally::NONE;
    }
    draw(&mut vram[first..], s)
}

// ---- Text.

// The pattern once, from the first pixel on, by its words as they are: no byte of the table has to be stored first.
// Not `by_words` from 0 to 4: four set-bit counts keep the compiler from taking two words at once, and text is slower (measured).
fn once(part: &mut [u8], t: Table) -> u32
    requires { 32 ≤ length part.old }
    ensures { (op : ℕ) (f : ℕ → Fragment) → Makes t op f → Further op f 0 32 part.old result part.new }
{
    let a = word(part, 0, t.and[0], t.xor[0]);
    let b = word(part, 8, t.and[1], t.xor[1]);
    let c = word(part, 16, t.and[2], t.xor[2]);
    let d = word(part, 24, t.and[3], t.xor[3]);
    total(a + b + c + d)
}

// The shorter way of 32 pixels under operation 3, whatever operation and width the strokes have: a table with nothing to choose, the pattern once, no loop.
// Nothing where they do not all lie inside. It answers how many changed.
pub fn text_at(vram: &mut [u8], address: u32, s: Strokes) -> u32
    ensures { (vram.new ≡ cond (leb (address + 32) (length vram.old))
        (drawn 3 (from address (before 32 (stroke s))) vram.old) vram.old)
        × (result ≡ differing vram.old vram.new) }
{
    let first = address as usize;
    if vram.len() < first + 32 {
        return 0;
    }
    let t = tables::copied(s);
    once(&mut vram[first..], t)
}
