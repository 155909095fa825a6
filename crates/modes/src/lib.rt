// The mode register, decoded.
#![tactic(auto)]

ghost use Rattle.std.specs.Prelude.{◌≡◌};
ghost use Rattle.rules.specs.Modes.{mode_of, unlisted, is_line};

use rules::Mode;

// The mode of a whole register value. `Unlisted`, and no Option or `TryFrom`: the register holds any value, and `rules::specs::Modes.mode_of` has a mode for each.
#[tactic(auto, unfolding(rules::specs::Modes::mode_of))]
pub fn mode_of(v: u32) -> Mode
    ensures { result ≡ mode_of v }
{
    match v {
        0x00 => Mode::Simple,
        0x01 => Mode::OpaqueStipple,
        0x05 => Mode::TransparentStipple,
        0x21 => Mode::OpaqueFill,
        0x45 => Mode::TransparentFill,
        0x0D => Mode::BlockStipple,
        0x2D => Mode::BlockFill,
        0x07 => Mode::Copy,
        0x02 | 0x8002 => Mode::OpaqueLine,
        0x06 | 0x8006 => Mode::TransparentLine,
        _ => Mode::Unlisted,
    }
}

// Whether a whole register value is no listed code.
pub fn is_unlisted(v: u32) -> bool
    ensures { result ≡ unlisted (mode_of v) }
{
    matches!(mode_of(v), Mode::Unlisted)
}

// The line modes.
pub fn is_line(m: Mode) -> bool
    ensures { result ≡ is_line m }
{
    matches!(m, Mode::OpaqueLine | Mode::TransparentLine)
}
