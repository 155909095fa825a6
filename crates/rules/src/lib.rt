// What a write means: the definitions in specs/, under the headings of the scope paper, and their laws in proofs/. Here the types that they speak of, and
// why a write is refused.
#![tactic(auto)]

ghost use Rattle.std.specs.Prelude.{◌≡◌};
ghost use Rattle.rules.specs.Numbers.{number_of};

use std::error::Error;
use std::fmt;

// The drawing modes. A value that is no listed code is `Unlisted`, and no Option stands around the rest: the definition `mode_of` and the theorems give each
// 32-bit value a mode.
#[derive(Clone, Copy, Debug, PartialEq, Eq)]
pub enum Mode {
    Simple,
    OpaqueStipple,
    TransparentStipple,
    OpaqueFill,
    TransparentFill,
    BlockStipple,
    BlockFill,
    Copy,
    OpaqueLine,
    TransparentLine,
    Unlisted,
}

// A whole number, also below 0: `more` less `less`. A pair and no i64, since the definitions of a walk reckon with such pairs, which never wrap.
#[derive(Clone, Copy, Debug, PartialEq, Eq)]
pub struct Whole {
    pub more: u64,
    pub less: u64,
}

// A visit of a line's walk: the place that it visits, and the error with which it comes there.
#[derive(Clone, Copy, Debug, PartialEq, Eq)]
pub struct Visit {
    pub place: Whole,
    pub error: Whole,
}

// Why a write, a run or a trace is refused. Each has a number, by which C and the paper know it.
#[derive(Clone, Copy, Debug, PartialEq, Eq, Drop)]
pub enum Refusal {
    Length = 1,
    Space = 2,
    Lanes = 3,
    Register = 4,
    Mode = 5,
    Operation = 6,
    Boundary = 7,
    Outside = 8,
    Unloaded = 9,
    Malformed = 10,
    NoRoom = 11,
    Wild = 12,
    NoLine = 13,
}

impl From<Refusal> for u32 {
    ghost from_gives = { λ e n. n ≡ number_of e };

    fn from(refusal: Refusal) -> u32 {
        refusal as u32
    }
}

impl fmt::Display for Refusal {
    fn fmt<W: fmt::Write>(&self, f: &mut fmt::Formatter<W>) -> fmt::Result {
        f.write_str(match self {
            Refusal::Length => {
                "the length of video memory is 0, no multiple of 64, or over 2097152"
            }
            Refusal::Space => "the space is not 0 (frame) or 1 (register), or the lanes exceed 15",
            Refusal::Lanes => {
                "the lanes are not 15, on a register write or in a mode other than simple"
            }
            Refusal::Register => "there is no such register",
            Refusal::Mode => "the mode is not listed, or a continue comes outside the line modes",
            Refusal::Operation => {
                "a raster operation has any of bits 11:8 set, or a pixel shift any of bits 3:0"
            }
            Refusal::Boundary => "the address is off its boundary",
            Refusal::Outside => "a pixel of the span lies outside video memory",
            Refusal::Unloaded => "a 64-byte destination comes with no 64-byte source loaded",
            Refusal::Malformed => "the bytes are no trace",
            Refusal::NoRoom => "there is no room for a trace's entry or header",
            Refusal::Wild => "the error of a line or a continue lies outside signed 16 bits",
            Refusal::NoLine => "a continue comes before any accepted line",
        })
    }
}

impl Error for Refusal {}

#[cfg(test)]
mod texts {
    use super::*;
    use std::test::Fail;

    // docs/RULES.md has the numbers; the tools' `explain` says the same texts.
    #[test]
    fn each_refusal_has_its_number_and_text(rt: HostRuntime) -> Result<(), Fail> {
        let listed = [
            (
                Refusal::Length,
                1,
                "the length of video memory is 0, no multiple of 64, or over 2097152",
            ),
            (
                Refusal::Space,
                2,
                "the space is not 0 (frame) or 1 (register), or the lanes exceed 15",
            ),
            (
                Refusal::Lanes,
                3,
                "the lanes are not 15, on a register write or in a mode other than simple",
            ),
            (Refusal::Register, 4, "there is no such register"),
            (
                Refusal::Mode,
                5,
                "the mode is not listed, or a continue comes outside the line modes",
            ),
            (
                Refusal::Operation,
                6,
                "a raster operation has any of bits 11:8 set, or a pixel shift any of bits 3:0",
            ),
            (Refusal::Boundary, 7, "the address is off its boundary"),
            (
                Refusal::Outside,
                8,
                "a pixel of the span lies outside video memory",
            ),
            (
                Refusal::Unloaded,
                9,
                "a 64-byte destination comes with no 64-byte source loaded",
            ),
            (Refusal::Malformed, 10, "the bytes are no trace"),
            (
                Refusal::NoRoom,
                11,
                "there is no room for a trace's entry or header",
            ),
            (
                Refusal::Wild,
                12,
                "the error of a line or a continue lies outside signed 16 bits",
            ),
            (
                Refusal::NoLine,
                13,
                "a continue comes before any accepted line",
            ),
        ];
        for (refusal, number, text) in listed {
            assert_eq!(rt; u32::from(refusal), number);
            assert_eq!(rt; refusal.to_string(rt.alloc())?.as_str(), text);
        }
        Ok(())
    }
}
