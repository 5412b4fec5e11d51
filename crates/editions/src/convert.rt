// The whole listing: one pass judges it and counts what will be written, another writes.
ghost use Rattle.std.specs.Prelude.{ℕ, ◌+◌, ◌≤◌, ◌≡◌, [], ◌∷◌, ◌++◌, true, false, cond, eqb, length, Err};
ghost use Rattle.listing.specs.Written.{Wrote};
ghost use Rattle.editions.specs.Editions.{made_of, text_of, converted};
ghost use Rattle.editions.specs.Answer.{shown_text, out_text, taken_of, last_of, judged_of, Fits, refusal_of, answer_of};
ghost use Rattle.editions.specs.declared.convert.Unconverted.TheVariants as Unconverted;

use crate::step::{Out, step_at};
use crate::words::spell;
use cells::fill;
use listing::{Writer, piece_end};
use shapes::refusal::Refusal;

// Why a listing does not convert.
#[derive(Clone, Copy, PartialEq, Eq)]
pub enum Unconverted {
    // Refusal 16, with the number of the line, from 1.
    Stray(usize),
    // Refusal 17.
    Full,
}

impl From<Unconverted> for Refusal {
    ghost from_gives = { λ e refusal. refusal ≡ refusal_of e };

    fn from(e: Unconverted) -> Refusal {
        match e {
            Unconverted::Stray(_) => Refusal::Listing,
            Unconverted::Full => Refusal::Output,
        }
    }
}

// How much of the room is taken, where it holds that.
fn take(taken: Option<usize>, more: usize, room: usize) -> Option<usize>
    ensures { (n : ℕ) → taken ≡ taken_of room n → result ≡ taken_of room (n + more) }
{
    let n = taken?;
    if room < n {
        return None;
    }
    if room - n < more {
        return None;
    }
    Some(n + more)
}

// How many bytes stand behind what is kept of a line: a field, where it is shown, and the line feed.
fn tail_length(out: Out) -> usize
    ensures { result ≡ length (shown_text out) + 1 }
{
    let Some(n) = out.field else {
        return 1;
    };
    let mut word = [0u8; 32];
    2 + spell(n, &mut word)
}

// What is written for a line, and its line feed.
fn put_line(out: Out, line: &[u8], page: &mut Writer<'_>)
    requires { (out.keep ≤ length line.now) × (page.old.at + (length (out_text out line.now) + 1) ≤ length page.old.room.now) }
    ensures { Wrote (out_text out line.now ++ (10 ∷ [])) page.old page.new }
{
    let keep = out.keep;
    page.put(&line[..keep]);
    let Some(n) = out.field else {
        page.put_byte(b'\n');
        return;
    };
    page.put_byte(b'\t');
    page.put_decimal(n as u64);
    page.put_byte(b'\n');
}

// Behind the last line nothing stands.
fn judge_last(taken: Option<usize>, number: usize, left: usize) -> Result<usize, Unconverted>
    ensures { result ≡ cond (eqb left 0) (last_of taken) (Err (Unconverted.Stray number)) }
{
    if left != 0 {
        return Err(Unconverted::Stray(number));
    }
    taken.ok_or(Unconverted::Full)
}

// How long the new listing is, where so much room holds it; or the first line that does not read.
fn judge(up: bool, text: &[u8], room: usize) -> Result<usize, Unconverted>
    ensures { result ≡ judged_of room (made_of up text.now) }
{
    let mut at = 0;
    let mut number = 1;
    let mut depth = 0;
    let mut taken = Some(0);
    // From line to line: no index counts up, and the promise is over the places where lines end.
    while at < text.len() {
        let to = piece_end(text, at, b'\n');
        if to == text.len() {
            return Err(Unconverted::Stray(number));
        }
        let Some(out) = step_at(up, number, depth, &text[at..to]) else {
            return Err(Unconverted::Stray(number));
        };
        taken = take(take(taken, out.keep, room), tail_length(out), room);
        number += 1;
        at = to + 1;
        if out.last {
            return judge_last(taken, number, text.len() - at);
        }
        depth = out.depth;
    }
    Err(Unconverted::Stray(number))
}

// The new listing of a text that converts, at the front of a page.
fn write(up: bool, text: &[u8], page: &mut Writer<'_>)
    requires front { page.old.at ≡ 0 }
    requires fits { Fits (made_of up text.now) (length page.old.room.now) }
    ensures { Wrote (text_of (made_of up text.now)) page.old page.new }
{
    let mut at = 0;
    let mut number = 1;
    let mut depth = 0;
    // From line to line, as in `judge`.
    while at < text.len() {
        let to = piece_end(text, at, b'\n');
        if to == text.len() {
            return;
        }
        let Some(out) = step_at(up, number, depth, &text[at..to]) else {
            return;
        };
        put_line(out, &text[at..to], page);
        if out.last {
            return;
        }
        number += 1;
        at = to + 1;
        depth = out.depth;
    }
}

fn convert(up: bool, text: &[u8], room: &mut [u8]) -> Result<usize, Unconverted>
    ensures { answer_of result room.new ≡ converted up text.now room.old }
{
    judge(up, text, room.len())?;
    let mut page = Writer { room, at: 0 };
    write(up, text, &mut page);
    let end = page.at;
    fill(&mut page.room[end..], 0);
    Ok(end)
}

// A listing of edition 1 as one of edition 2, with zeros behind it: how long it is. On a refusal the room is as lent.
pub fn up(text: &[u8], room: &mut [u8]) -> Result<usize, Unconverted>
    ensures { answer_of result room.new ≡ converted true text.now room.old }
{
    convert(true, text, room)
}

// A listing of edition 2 as one of edition 1, likewise.
pub fn down(text: &[u8], room: &mut [u8]) -> Result<usize, Unconverted>
    ensures { answer_of result room.new ≡ converted false text.now room.old }
{
    convert(false, text, room)
}
