// The words that a span takes of registers, eight pixels each, and its masks: made once, before any pixel is drawn. And the byte of a single pixel.
#![tactic(auto)]

ghost use Rattle.std.specs.Prelude.{◌≡◌, cond, [], ◌∷◌, ℕ, ◌+◌, ◌/◌, ◌%◌, ◌<◌, get_or};
ghost use Rattle.raster.specs.Pixel.{bit};
ghost use Rattle.span.specs.Fragments.{byte};
ghost use Rattle.span.specs.Strokes.{pattern_byte};
ghost use Rattle.rules.specs.Modes.{effective_by};

// A register as eight pixels from address `at` on take it: each the byte of its address mod 4.
fn solid(x: u32, at: usize) -> u64
    ensures { (j : ℕ) → byte result (j % 8) ≡ byte x ((at + j) % 4) }
{
    words::turned(words::pair(x, x), at)
}

// Byte (address mod 4) of a register.
pub fn byte_at(x: u32, address: usize) -> u8
    ensures { result ≡ byte x (address % 4) }
{
    x.to_le_bytes()[address % 4]
}

// The plane mask outside the held planes, all four bytes at once.
pub fn planes(plane: u32, held: u32) -> u32
    ensures { (p : ℕ) → byte result (p % 4) ≡ effective_by plane held p }
{
    plane & !(held % 256 * 0x0101_0101)
}

// The effective masks of eight pixels from address `first` on.
pub fn masks(plane: u32, held: u32, first: usize) -> u64
    ensures { (j : ℕ) → byte result (j % 8) ≡ effective_by plane held (first + j) }
{
    solid(planes(plane, held), first)
}

// Eight pixels: each takes its byte of x where its bit is set, else of y.
fn eight(bits: u8, x: u64, y: u64) -> u64
    ensures { (k : ℕ) → k < 8 → byte result k ≡ cond (bit bits k) (byte x k) (byte y k) }
{
    words::select(words::widen(bits), x, y)
}

// Pixel j takes its byte of x where bit j of `pick` is set, else of y.
fn choose(pick: u32, x: u64, y: u64) -> [u64; 4]
    ensures { (j : ℕ) → pattern_byte result j ≡ cond (bit pick (j % 32)) (byte x (j % 8)) (byte y (j % 8)) }
{
    pick.to_le_bytes().map(|bits| eight(bits, x, y))
}

// Pixel j takes byte (its address mod 4) of x where bit j mod 32 is set, else of y.
pub fn stippled(bits: u32, x: u32, y: u32, at: usize) -> [u64; 4]
    ensures { (j : ℕ) → pattern_byte result j ≡ cond (bit bits (j % 32)) (byte x ((at + j) % 4)) (byte y ((at + j) % 4)) }
{
    choose(bits, solid(x, at), solid(y, at))
}

// Pixel j takes byte (its address mod 8) of two registers, `low` first.
pub fn tiled(low: u32, high: u32, at: usize) -> [u64; 4]
    ensures { (j : ℕ) → pattern_byte result j ≡ byte (get_or (low ∷ high ∷ []) ((at + j) % 8 / 4) 0) ((at + j) % 4) }
{
    let w = words::turned(words::pair(low, high), at);
    [w, w, w, w]
}
