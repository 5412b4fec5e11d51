// What a line of edition 1 is, by its letter.
ghost use Rattle.std.specs.Prelude.{◌≡◌};
ghost use Rattle.listing.specs.Lines.{parted};
ghost use Rattle.editions.specs.Sorts.{lettered, sort_of, number_of};

use crate::fields::{is_error, is_node, numbers};
use kinds::Kind;
use listing::piece_end;
use shapes::sort::Sort;

// A line of edition 1: of an event, with the outcome, or one that stands alone behind the first.
#[derive(Clone, Copy, PartialEq, Eq)]
pub enum LineSort {
    Event(Sort),
    Result,
    Alone,
}

// The kinds of rows stand before it, those of nodes from it on up to `KINDS`.
const NODES: u32 = Kind::Error as u32;

const KINDS: u32 = 122;

// By the letter, and what stands behind it and its tab.
fn by_letter(letter: u8, rest: &[u8]) -> Option<LineSort>
    ensures { number_of result ≡ lettered letter (parted 9 rest.now) }
{
    match letter {
        b'B' => is_node(rest, NODES, KINDS).then_some(LineSort::Event(Sort::Begin)),
        b'T' => is_node(rest, 0, NODES).then_some(LineSort::Event(Sort::Token)),
        b'E' => is_node(rest, NODES, KINDS).then_some(LineSort::Event(Sort::End)),
        b'X' => is_error(rest).then_some(LineSort::Event(Sort::Error)),
        b'R' => numbers(rest, 3).then_some(LineSort::Result),
        b'N' => numbers(rest, 1).then_some(LineSort::Alone),
        b'F' => numbers(rest, 1).then_some(LineSort::Alone),
        _ => None,
    }
}

// The sort of a line, where it is one.
pub fn sort_of(line: &[u8]) -> Option<LineSort>
    ensures { number_of result ≡ sort_of (parted 9 line.now) }
{
    if piece_end(line, 0, b'\t') != 1 {
        return None;
    }
    if line.len() < 2 {
        return None;
    }
    by_letter(line[0], &line[2..])
}
