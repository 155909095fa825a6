// Traces of the largest number of entries, and of one more.
use crate::{answered, line};
use card::{ALL_LANES, Card, FRAME, Write};
use format::{ENTRY, HEADER, LARGEST, LONGEST};
use rules::Refusal;
use std::io;

// The bytes of one entry more than the largest number.
const ROOM: usize = LONGEST + ENTRY;

// written out, since a constant cannot call `Write::frame`
const SIMPLE: Write = Write {
    space: FRAME,
    lanes: ALL_LANES,
    address: 0,
    data: 0x44332211,
};

// The longest trace, for a VRAM of 64 bytes.
fn recorded(buffer: &mut [u8]) -> Result<usize, Refusal> {
    let mut used = recording::start(buffer, 64)?;
    for _ in 0..LARGEST {
        used = recording::extend(buffer, used, SIMPLE)?;
    }
    Ok(used)
}

fn length(rt: &impl Print, what: &str, used: Result<usize, Refusal>) -> io::Result<()> {
    answered(rt, what, "length", used.map(|used| used as u64))
}

fn checked(rt: &impl Print, what: &str, bytes: &[u8]) -> io::Result<()> {
    let vram = checking::check(bytes).map(|trace| trace.vram as u64);
    answered(rt, what, "vram", vram)
}

fn run(rt: &impl Print, what: &str, part: &[u8]) -> io::Result<()> {
    let ran = trace::run(part, &mut Card::reset(0), &mut [0; 64], u32::MAX);
    line(rt, what, ran.number(), "entries", ran.applied as u64)
}

// What a new reader answers to a chunk.
fn arrives(rt: &impl Print, what: &str, bytes: &[u8]) -> io::Result<()> {
    let mut reader = serial::new();
    serial::chunk(&mut reader, &mut Card::reset(0), bytes, &mut [0; 64]);
    line(rt, what, reader.number, "entries", reader.applied as u64)
}

fn filled(rt: &impl Print, buffer: &mut [u8; ROOM]) -> io::Result<()> {
    length(rt, "65536 entries recorded", recorded(buffer))?;
    let appended = recording::append(buffer, LONGEST, SIMPLE);
    length(rt, "one more appended", appended)?;
    let extended = recording::extend(buffer, LONGEST, SIMPLE);
    length(rt, "one more by extending", extended)
}

fn longest(rt: &impl Print, buffer: &[u8; ROOM]) -> io::Result<()> {
    checked(rt, "65536 entries checked", &buffer[..LONGEST])?;
    run(rt, "65536 entries run", &buffer[HEADER..LONGEST])?;
    arrives(rt, "65536 entries arriving", &buffer[..LONGEST])
}

// The header of 65,537 entries, put together by hand: no append makes it.
fn announce_one_more(buffer: &mut [u8; ROOM]) {
    buffer[0] = 0x01;
    buffer[2] = 0x01;
    buffer[12] = 0x1C;
    buffer[14] = 0x0C;
}

fn too_long(rt: &impl Print, buffer: &[u8; ROOM]) -> io::Result<()> {
    checked(rt, "65537 entries checked", buffer)?;
    run(rt, "65537 entries run", &buffer[HEADER..])?;
    arrives(rt, "15 bytes of their header arriving", &buffer[..15])?;
    arrives(rt, "16 bytes of their header arriving", &buffer[..16])
}

pub(crate) fn limits(rt: &impl Print) -> io::Result<()> {
    let mut buffer = [0; ROOM];
    filled(rt, &mut buffer)?;
    longest(rt, &buffer)?;
    announce_one_more(&mut buffer);
    too_long(rt, &buffer)
}
