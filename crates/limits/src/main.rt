// The scope paper's "Run as tests": the longest VRAM and one step past it, and the longest fill at the end of VRAM and past it. And change request 6:
// the longest trace, and one entry more.
#![tactic(auto)]

mod traces;

use card::{Card, Write};
use rules::Refusal;
use std::io;

// As the bus has them: address and data of a write are numbers.
const MODE: u32 = 0x0030;

const OPAQUE_FILL: u32 = 0x21;

// A number and a count of something, on a line of their own: a run that is refused has both.
pub(crate) fn line(
    rt: &impl Print,
    what: &str,
    number: u32,
    name: &str,
    count: u64,
) -> io::Result<()> {
    println!(rt; "{what}: number {number}, {name} {count}")
}

// The same of an answer: its count where it is accepted, else its number.
pub(crate) fn answered(
    rt: &impl Print,
    what: &str,
    name: &str,
    answer: Result<u64, Refusal>,
) -> io::Result<()> {
    match answer {
        Ok(count) => line(rt, what, 0, name, count),
        Err(refusal) => line(rt, what, u32::from(refusal), name, 0),
    }
}

// What each frame write answers, all of them made on one card. VRAM is an array of any length, and lent as a slice here: where an array of 2 MB is written out,
// the check would unfold it.
fn says<const N: usize>(
    rt: &impl Print,
    card: Card,
    writes: &[(&str, Write)],
    vram: &mut [u8; N],
) -> io::Result<()> {
    for (what, w) in writes {
        let drawn = engine::write(card, *w, vram).drawn;
        answered(rt, what, "count", drawn.map(|tally| tally.enabled as u64))?;
    }
    Ok(())
}

fn longest(rt: &impl Print) -> io::Result<()> {
    let writes = [
        ("first pixels of 2097152", Write::frame(0, 0x44332211)),
        ("last pixels of 2097152", Write::frame(2097148, 0x44332211)),
        ("one word past 2097152", Write::frame(2097152, 0x44332211)),
    ];
    says(rt, Card::reset(0), &writes, &mut [0; 2097152])
}

fn too_long(rt: &impl Print) -> io::Result<()> {
    let writes = [("first pixels of 2097216", Write::frame(0, 0x44332211))];
    says(rt, Card::reset(0), &writes, &mut [0; 2097216])
}

fn fills(rt: &impl Print) -> io::Result<()> {
    let mut vram = [0; 2048];
    let card = engine::write(
        Card::reset(0),
        Write::register(MODE, OPAQUE_FILL),
        &mut vram,
    )
    .card;
    let writes = [
        ("2048 pixels at 0 of 2048", Write::frame(0, 2047)),
        ("2048 pixels at 4 of 2048", Write::frame(4, 2047)),
        ("2044 pixels at 4 of 2048", Write::frame(4, 2043)),
        (
            "2048 pixels at the top of the address space",
            Write::frame(4294967292, 2047),
        ),
    ];
    says(rt, card, &writes, &mut vram)
}

fn main(rt: HostRuntime) -> io::Result<()> {
    longest(&rt)?;
    too_long(&rt)?;
    fills(&rt)?;
    traces::limits(&rt)
}
