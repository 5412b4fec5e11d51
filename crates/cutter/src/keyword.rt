// Identifiers that are keywords.
ghost use Rattle.std.specs.Prelude.{◌≡◌, ◌<◌, length};
ghost use Rattle.cutter.specs.Rows.{keyword};
ghost use Rattle.cutter.specs.Made.{slot_of};

use kinds::Kind;
use tokens::keywords::{keyword_of, slot_at};

// The one keyword that the text can be.
fn slot_of(text: &[u8]) -> usize
    requires { 0 < length text.now }
    ensures { (result ≡ slot_of text.now) × (result < 40) }
{
    let first = text[0] as usize;
    let last = text[text.len() - 1] as usize;
    slot_at((first + last * 38 + (text.len() % 128) * 29) % 128)
}

// The id of an identifier: a keyword's, where it is one.
pub fn id_of(text: &[u8]) -> u32
    requires { 0 < length text.now }
    ensures { result ≡ keyword text.now }
{
    let slot = slot_of(text);
    if keyword_of(slot) == text {
        return Kind::AllKw as u32 + slot as u32;
    }
    Kind::Ident as u32
}
