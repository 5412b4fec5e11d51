// What stands behind a line's letter.
ghost use Rattle.std.specs.Prelude.{◌≤◌, ◌≡◌, []};
ghost use Rattle.listing.specs.Lines.{parted};
ghost use Rattle.editions.specs.Fields.{plains, node, fresh, named, placed, formed, error};

use crate::words::{is_kind, is_plain, name_number, same};
use listing::{piece_end, read_number};

// Whether the text is so many numbers, parted by tabs.
pub fn numbers(text: &[u8], count: u32) -> bool
    ensures { result ≡ plains count (parted 9 text.now) }
{
    let mut at = 0;
    for left in (0..count).rev() {
        let to = piece_end(text, at, b'\t');
        if !is_plain(&text[at..to]) {
            return false;
        }
        if to == text.len() {
            return left == 0;
        }
        at = to + 1;
    }
    false
}

// A kind from `from` up to `to`, and a span.
pub fn is_node(text: &[u8], from: u32, to: u32) -> bool
    requires { to ≤ 122 }
    ensures { result ≡ node from to (parted 9 text.now) }
{
    let end = piece_end(text, 0, b'\t');
    if end == text.len() {
        return false;
    }
    let next = end + 1;
    if !numbers(&text[next..], 2) {
        return false;
    }
    is_kind(&text[0..end], from, to)
}

// Names joined by commas, none twice.
fn are_names(text: &[u8]) -> bool
    ensures { result ≡ fresh [] (parted 44 text.now) }
{
    let mut seen = [false; 85];
    let mut at = 0;
    // From name to name, so that no index counts up.
    while at <= text.len() {
        let to = piece_end(text, at, b',');
        let Some(n) = name_number(&text[at..to]) else {
            return false;
        };
        if seen[n] {
            return false;
        }
        if to == text.len() {
            return true;
        }
        seen[n] = true;
        at = to + 1;
    }
    false
}

// Names as the form has them: at least one in forms 1 to 3, and none in the others.
fn has_names(form: u32, text: &[u8]) -> bool
    ensures { result ≡ named form text.now }
{
    if form <= 3 {
        return are_names(text);
    }
    same(text, b"-")
}

// The names, and in form 9 the place behind them, where it is there.
fn is_told(form: u32, text: &[u8]) -> bool
    ensures { result ≡ placed form (parted 9 text.now) }
{
    let end = piece_end(text, 0, b'\t');
    if !has_names(form, &text[0..end]) {
        return false;
    }
    if end == text.len() {
        return true;
    }
    if form != 9 {
        return false;
    }
    let next = end + 1;
    numbers(&text[next..], 1)
}

// The form that the text is.
fn form_of(text: &[u8]) -> Option<u32>
    ensures { result ≡ formed text.now }
{
    if !is_plain(text) {
        return None;
    }
    let form = read_number(text)?;
    if form == 0 {
        return None;
    }
    if 10 < form {
        return None;
    }
    Some(form)
}

// Form, span, names, place.
pub fn is_error(text: &[u8]) -> bool
    ensures { result ≡ error (parted 9 text.now) }
{
    let first = piece_end(text, 0, b'\t');
    if first == text.len() {
        return false;
    }
    let second = first + 1;
    let start = piece_end(text, second, b'\t');
    if start == text.len() {
        return false;
    }
    let third = start + 1;
    let end = piece_end(text, third, b'\t');
    if end == text.len() {
        return false;
    }
    let Some(form) = form_of(&text[0..first]) else {
        return false;
    };
    if !is_plain(&text[second..start]) {
        return false;
    }
    if !is_plain(&text[third..end]) {
        return false;
    }
    let fourth = end + 1;
    is_told(form, &text[fourth..])
}
