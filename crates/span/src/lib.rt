// Spans: what a write does to a run of VRAM bytes. Definitions in specs/, their laws in proofs/, and here what the span routine
// takes and answers; what that means stands in specs/Strokes.antt.
#![tactic(auto)]

// A pattern of 32 pixels that repeats over `width` pixels: which are drawn, what each takes, under which mask.
// A word has eight pixels, the first its lowest byte; the mask's eight repeat. The operation is its number, no enum: the four bits are its truth table,
// and it is by them that a pixel is made.
#[derive(Clone, Copy)]
pub struct Strokes {
    pub op: u8,
    pub enable: u32,
    pub source: [u64; 4],
    pub mask: u64,
    pub width: u32,
}

// What drawing answers: the number of pixels enabled, and of those changed. Two are added field by field, where it is known that the sums fit: an `Add`
// could not ask for that.
#[derive(Clone, Copy)]
pub struct Tally {
    pub enabled: u32,
    pub changed: u32,
}

impl Tally {
    // Of nothing drawn: 0 is its count, and no Option is wanted.
    pub const NONE: Tally = Tally {
        enabled: 0,
        changed: 0,
    };
}
