// Read-back, beside the last paragraph of the scope paper's "Modes".
use readback::{number, part};
use rules::Refusal;

// 256 bytes of VRAM, no two alike.
fn filled() -> [u8; 256] {
    let mut vram = [0u8; 256];
    for (p, byte) in (0..=255u8).zip(&mut vram) {
        *byte = p.wrapping_mul(5);
    }
    vram
}

// First byte and length: the whole, its ends, the middle, and no pixels, also at the end.
const INSIDE: [(u32, u32); 8] = [
    (0, 256),
    (0, 1),
    (255, 1),
    (1, 255),
    (61, 131),
    (0, 0),
    (77, 0),
    (256, 0),
];

pub(crate) fn accepted() -> usize {
    let vram = filled();
    INSIDE
        .iter()
        .filter(|(a, n)| {
            let first = *a as usize;
            number(vram.len(), *a, *n) == Ok(())
                && vram.get(first..first + *n as usize) == Some(part(&vram, *a, *n))
        })
        .count()
}

// The refusal, and an empty part.
fn is_refused(vram: &[u8], a: u32, n: u32, refusal: Refusal) -> bool {
    number(vram.len(), a, n) == Err(refusal) && part(vram, a, n).is_empty()
}

const PAST_THE_END: [(u32, u32); 5] = [(0, 257), (1, 256), (255, 2), (256, 1), (257, 0)];

pub(crate) fn past_the_end() -> usize {
    let vram = filled();
    PAST_THE_END
        .iter()
        .filter(|(a, n)| is_refused(&vram, *a, *n, Refusal::Outside))
        .count()
}

// a + n as whole numbers: at 32 bits these sums would be 0 to 256, and inside.
const NEAR_THE_TOP: [(u32, u32); 5] = [
    (0xFFFF_FFFF, 1),
    (0xFFFF_FFFF, 2),
    (1, 0xFFFF_FFFF),
    (0xFFFF_FF00, 512),
    (0x8000_0000, 0x8000_0000),
];

pub(crate) fn near_the_top() -> usize {
    let vram = filled();
    NEAR_THE_TOP
        .iter()
        .filter(|(a, n)| is_refused(&vram, *a, *n, Refusal::Outside))
        .count()
}

// 1 comes before 8. The longest VRAM is taken, and one step more is not.
pub(crate) fn bad_length() -> usize {
    [
        is_refused(&[], 0, 0, Refusal::Length),
        is_refused(&[0; 63], 0, 1, Refusal::Length),
        is_refused(&[0; 65], 0, 1, Refusal::Length),
        is_refused(&[0; 255], 300, 1, Refusal::Length),
        number(2097152, 2097151, 1) == Ok(()),
        number(2097152, 2097152, 1) == Err(Refusal::Outside),
        number(2097216, 0, 1) == Err(Refusal::Length),
    ]
    .iter()
    .filter(|ok| **ok)
    .count()
}
