// replay TRACE [PICTURE [WIDTH [HELD]]]: runs a recorded trace whole from reset on a zeroed VRAM of its header's length, and says how it went.
// Where TRACE is `-` it is read from standard input, and drawn as it arrives.
// PICTURE is a file for the picture, a binary PGM of WIDTH columns (512 where it is not given); HELD is the held planes, two hexadecimal digits.
#![tactic(auto)]

mod arriving;
mod input;

use arguments::argument;
use bounds::LARGEST_VRAM;
use format::LONGEST;
use player::Played;
use std::fmt::Display;
use std::io::Read;
use std::rt::{Env, Files, Runtime};
use std::{fs, io};

const USAGE: &str = "usage: replay TRACE [PICTURE [WIDTH [HELD]]], where TRACE may be -";

// A byte more than the longest trace has: so many bytes are no trace, as a longer file is none.
const ROOM: usize = LONGEST + 1;

// What the arguments ask for.
#[derive(Clone, Copy)]
struct Options<'a> {
    trace: &'a [u8],
    picture: Option<&'a [u8]>,
    width: usize,
    held: u8,
}

impl<'a> Options<'a> {
    // The arguments, with the two names in the buffers, or what is wrong with them.
    fn read(
        rt: &impl Env,
        trace: &'a mut [u8],
        picture: &'a mut [u8],
    ) -> Result<Options<'a>, &'static str> {
        let trace = argument(rt, 1, trace).ok_or(USAGE)?;
        if argument(rt, 5, &mut []).is_some() {
            return Err(USAGE);
        }
        let width = argument(rt, 3, &mut [0; 16])
            .map_or(Some(512), typed::decimal)
            .ok_or("WIDTH is a decimal number")?;
        let held = argument(rt, 4, &mut [0; 16])
            .map_or(Some(0), typed::two_hex_digits)
            .ok_or("HELD is two hexadecimal digits")?;
        Ok(Options {
            trace,
            picture: argument(rt, 2, picture),
            width: width as usize,
            held,
        })
    }

    // The columns of a picture of so many pixels, or what is wrong with WIDTH.
    fn columns(&self, pixels: usize) -> Result<usize, &'static str> {
        if self.width == 0 {
            return Err("WIDTH is not 0");
        }
        if pixels % self.width != 0 {
            return Err("WIDTH does not divide the length of VRAM");
        }
        Ok(self.width)
    }

    // The picture, in the file that PICTURE names. After a refused entry, or where the trace broke off as it arrived, it is the picture so far.
    fn save<R: Eprint + Files>(&self, rt: &R, pixels: &[u8]) {
        let Some(path) = self.picture else {
            return;
        };
        if pixels.is_empty() {
            return;
        }
        match self.columns(pixels.len()) {
            Ok(width) => {
                let _ = show::picture(rt, path, pixels, width);
            }
            Err(wrong) => complain(rt, wrong),
        }
    }

    // Says how it went, and leaves the picture.
    fn tell<R: Eprint + Files + Print>(
        &self,
        rt: &R,
        played: Played,
        vram: &[u8],
    ) -> io::Result<()> {
        answer(rt, played)?;
        if let Some(pixels) = vram.get(..played.length) {
            self.save(rt, pixels);
        }
        Ok(())
    }

    // The trace in the file, whole. Past its end or the room, one more read must not fail: a directory cannot be read at all.
    fn run_whole<R: Runtime, F: Read>(
        &self,
        rt: &R,
        file: &mut F,
        bytes: &mut [u8; ROOM],
        vram: &mut [u8; LARGEST_VRAM],
    ) -> io::Result<()> {
        let bytes = input::full(file, bytes, |_| ());
        if let Err(error) = file.read(&mut [0]) {
            complain(rt, format_args!("the trace: {error}"));
            return Ok(());
        }
        self.tell(rt, player::play(bytes, self.held, vram), vram)
    }

    // The trace in the file of that name.
    fn run_file<R: Runtime>(
        &self,
        rt: &R,
        name: &str,
        vram: &mut [u8; LARGEST_VRAM],
    ) -> io::Result<()> {
        match fs::open(rt, name) {
            Ok(mut file) => self.run_whole(rt, &mut file, &mut [0; ROOM], vram),
            Err(error) => {
                let _ = eprintln!(rt; "{name}: {error}");
                Ok(())
            }
        }
    }

    // The trace on standard input, as it arrives.
    fn run_arriving<R: Runtime>(&self, rt: &R, vram: &mut [u8; LARGEST_VRAM]) -> io::Result<()> {
        let played = arriving::run(rt, &mut rt.reader(), self.held, vram);
        self.tell(rt, played, vram)
    }

    // The trace that the first argument names; `-` is standard input. A name that is no text names no file that std can open.
    // An array as long as VRAM, or as the room, is lent as a slice by a function that has it from its owner: where the owner lends it, no proof is found.
    fn run<R: Runtime>(&self, rt: &R) -> io::Result<()> {
        let mut vram = [0u8; LARGEST_VRAM];
        match str::from_utf8(self.trace) {
            Ok("-") => self.run_arriving(rt, &mut vram),
            Ok(name) => self.run_file(rt, name, &mut vram),
            Err(_) => {
                complain(rt, "TRACE is a name in UTF-8");
                Ok(())
            }
        }
    }
}

// Says on standard error what is wrong; where that cannot be written, nobody is told.
fn complain(rt: &impl Eprint, what: impl Display + Drop) {
    let _ = eprintln!(rt; "replay: {what}");
}

// These lines are this program's alone, so `Played` has no Display.
fn answer(rt: &impl Print, p: Played) -> io::Result<()> {
    println!(rt; "number {}", p.number)?;
    println!(rt; "entries {}", p.entries)?;
    println!(rt; "pixels {}", p.pixels)?;
    println!(rt; "vram {}", p.length)?;
    println!(rt; "changed {}", p.changed)
}

fn main(rt: HostRuntime) -> io::Result<()> {
    let mut trace = [0u8; 4096];
    let mut picture = [0u8; 4096];
    match Options::read(&rt, &mut trace, &mut picture) {
        Ok(options) => options.run(&rt),
        Err(wrong) => {
            complain(&rt, wrong);
            Ok(())
        }
    }
}
