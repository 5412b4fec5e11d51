// The row at the start of the bytes. Where a mode matches nothing, the mode below it cuts: jump, hex, normal; and where normal mode matches nothing, the row
// is a strange one.
ghost use Rattle.std.specs.Prelude.{◌≡◌, ◌<◌, length};
ghost use Rattle.cutter.specs.Rows.{normal_row, hex_row, jump_row, strange, row};
ghost use Rattle.cutter.specs.Made.{Made, found, missed, Known, Lost};

use crate::keyword::id_of;
use crate::memo::Misses;
use crate::place::{Place, mode_of, onward};
use kinds::Kind;
use tokens::glyph::{INVALID, glyph_at};
use tokens::matcher::{longest_from, tried};
use tokens::mode::{Mode, Start};

// A row, and which modes matched nothing here.
#[derive(Drop)]
pub struct Row {
    pub id: u32,
    pub len: usize,
    pub place: Place,
    pub misses: Misses,
}

// A row that some mode matched.
fn matching(id: u32, len: usize, place: Place) -> Row
    ensures { result ≡ found id len place }
{
    Row {
        id,
        len,
        place,
        misses: Misses::NONE,
    }
}

// A row of a byte or more that nothing matches. Behind it cutting goes on in normal mode.
fn unmatched(id: u32, len: usize) -> Row
    ensures { result ≡ missed id len }
{
    Row {
        id,
        len,
        place: Place::Elsewhere,
        misses: Misses {
            normal: true,
            hex: false,
        },
    }
}

// Nothing matches: a byte that begins no character stands alone; UNKNOWN goes on up to white space or such a byte, but has one byte at least.
fn strange_row(s: &[u8]) -> Row
    requires { (0 < length s.now) × Lost s.now }
    ensures { Made result (strange s.now) s.now }
{
    let Some((_, len)) = longest_from(s, Start::UNKNOWN) else {
        if glyph_at(s, Mode::Normal).class == INVALID {
            return unmatched(Kind::InvalidUtf8 as u32, 1);
        }
        return unmatched(Kind::Unknown as u32, 1);
    };
    unmatched(Kind::Unknown as u32, len)
}

// An identifier is looked up among the keywords only when its whole text is known, so that a keyword with a letter behind it is none.
fn normal_row(s: &[u8], place: Place, misses: Misses) -> Row
    requires { (0 < length s.now) × Known misses s.now }
    ensures { Made result (normal_row place s.now) s.now }
{
    let Some((id, len)) = tried(s, misses.normal, Start::NORMAL) else {
        return strange_row(s);
    };
    if id == Kind::Ident as u32 {
        return matching(id_of(&s[..len]), len, onward(place, id));
    }
    matching(id, len, onward(place, id))
}

fn hex_row(s: &[u8], misses: Misses) -> Row
    requires { (0 < length s.now) × Known misses s.now }
    ensures { Made result (hex_row s.now) s.now }
{
    let Some((id, len)) = tried(s, misses.hex, Start::HEX) else {
        let mut r = normal_row(s, Place::Unclosed, misses);
        r.misses.hex = true;
        return r;
    };
    if id == Kind::LBracket as u32 {
        return matching(id, len, Place::InJump);
    }
    matching(id, len, Place::InHex)
}

fn jump_row(s: &[u8], misses: Misses) -> Row
    requires { (0 < length s.now) × Known misses s.now }
    ensures { Made result (jump_row s.now) s.now }
{
    let Some((id, len)) = longest_from(s, Start::JUMP) else {
        return hex_row(s, misses);
    };
    matching(id, len, Place::InJump)
}

pub fn row_at(s: &[u8], place: Place, misses: Misses) -> Row
    requires { (0 < length s.now) × Known misses s.now }
    ensures { Made result (row place s.now) s.now }
{
    match mode_of(place) {
        Mode::Normal => normal_row(s, place, misses),
        Mode::Hex => hex_row(s, misses),
        Mode::Jump => jump_row(s, misses),
    }
}
