// Recorded traces as bytes: a header of 16 bytes, then 12 bytes for each write. What they mean stands in specs/, under the headings
// of the scope paper; their laws in proofs/.
#![tactic(auto)]

// The sizes of the header and of an entry, in bytes.
pub const HEADER: usize = 16;

pub const ENTRY: usize = 12;

// The same as 32-bit numbers, as a header has them: the offset of the entries, and the step from one to the next. They have names so that no reader casts.
pub const OFFSET: u32 = HEADER as u32;

pub const STEP: u32 = ENTRY as u32;

// The largest number of entries, and the bytes of a trace that has so many.
pub const LARGEST: usize = 65536;

pub const LONGEST: usize = HEADER + ENTRY * LARGEST;
