// A character and its class in a mode.
ghost use Rattle.std.specs.Prelude.{◌≡◌, ◌≤◌, ◌<◌, length};
ghost use Rattle.tokens.specs.Glyph.{glyph};
ghost use Rattle.tokens.specs.Modes.{number};
ghost use Rattle.tokens.specs.States.{glyph_of};

use crate::characters::{byte, decode};
use crate::lookup::{class_of, wide_class_of};
use crate::mode::Mode;

// The class of bytes that begin a character of several bytes: such a character is decoded, and its own class counts.
const LEAD: usize = 45;

// The class of a byte that begins no character.
pub const INVALID: usize = 1;

// A character's class and its length.
#[derive(Clone, Copy)]
pub struct Glyph {
    pub class: usize,
    pub width: usize,
}

// The character at the start of the bytes.
pub fn glyph_at(s: &[u8], mode: Mode) -> Glyph
    requires { 0 < length s.now }
    ensures { (glyph_of result ≡ glyph (number mode) s.now) × (result.class < 45) × (0 < result.width) × (result.width ≤ length s.now) }
{
    let class = class_of(mode, s[0]);
    if class != LEAD {
        return Glyph { class, width: 1 };
    }
    let Some((number, width)) = decode(byte(s, 0), byte(s, 1), byte(s, 2), byte(s, 3)) else {
        return Glyph {
            class: INVALID,
            width: 1,
        };
    };
    Glyph {
        class: wide_class_of(number),
        width,
    }
}
