// Traces that arrive over a serial line, in chunks of any length: what is unfinished waits in the reader, and each entry is drawn once
// it is whole. What that means stands in specs/, in the words of change request 2; the laws and theorems in proofs/.
#![tactic(auto)]

use card::Card;

// What waits between two chunks. C keeps it and hands it in: every field is a word or an array of a multiple of four bytes, so every pattern of bytes is a
// reader. So the number is no Refusal, and the mark no bool.
#[repr(C)]
#[derive(Clone, Copy)]
pub struct Reader {
    // what the last call answered; a number other than 0 sticks
    pub number: u32,
    // a mark: the header is read
    pub opened: u32,
    // the entries that the header announces, those applied, the total pixels, and those changed
    pub announced: u32,
    pub applied: u32,
    pub pixels: u32,
    pub changed: u32,
    // how many bytes of an unfinished header or entry wait, and these in front
    pub filled: u32,
    pub waiting: [u8; 16],
}

// What a chunk leaves.
#[repr(C)]
#[derive(Clone, Copy)]
pub struct Fed {
    pub reader: Reader,
    pub card: Card,
}
