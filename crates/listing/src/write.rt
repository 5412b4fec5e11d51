// The lines of the listing in edition 1 or 2, each written at the front of a room. A room of 4,096 bytes holds any line:
// 85 names of at most 32 bytes, each with a comma, and the other fields.
ghost use Rattle.std.specs.Prelude.{◌+◌, ◌*◌, ◌≤◌, ◌<◌, min, ◌≡◌, [], ◌∷◌, map, length, get_or};
ghost use Rattle.kinds.specs.Spelling.{kind_text, name_text, Spelled};
ghost use Rattle.listing.specs.Numbers.{decimal};
ghost use Rattle.listing.specs.Listing.{led, joined, line_with, head_line, refusal_line, unread_line, result_line, node_line};
ghost use Rattle.listing.specs.Listing.{last_field, names_of, place_of, error_fields, error_line, event_line};
ghost use Rattle.listing.specs.Written.{Stands};

use shapes::record::{COUNT, END, FORM, HEAD, ITEM, START, next_record};
use shapes::sort::Sort;

// An event by its numbers. The second is a kind or the number of an error record, from 0. The sort is a number too, since one that is none is taken.
#[derive(Clone, Copy, PartialEq, Eq)]
pub struct Event {
    pub sort: u32,
    pub second: u32,
    pub start: u32,
    pub end: u32,
    pub depth: u32,
}

// A lent room, and the place up to which it is written.
#[derive(Drop)]
pub struct Writer<'a> {
    pub room: &'a mut [u8],
    pub at: usize,
}

impl Writer<'_> {
    ghost use Rattle.std.specs.Prelude.{◌+◌, ◌*◌, ◌≤◌, ◌<◌, [], ◌∷◌, map, length};
    ghost use Rattle.kinds.specs.Spelling.{kind_text, name_text};
    ghost use Rattle.listing.specs.Numbers.{decimal};
    ghost use Rattle.listing.specs.Listing.{led, joined, last_field, place_of, error_fields};
    ghost use Rattle.listing.specs.Written.{Wrote};

    pub fn put_byte(&mut self, b: u8)
        requires { self.old.at < length self.old.room.now }
        ensures { Wrote (b ∷ []) self.old self.new }
    {
        self.room[self.at] = b;
        self.at += 1;
    }

    pub fn put(&mut self, text: &[u8])
        requires { self.old.at + length text.now ≤ length self.old.room.now }
        ensures { Wrote text.now self.old self.new }
    {
        let end = self.at + text.len();
        self.room[self.at..end].copy_from_slice(text);
        self.at = end;
    }

    pub fn put_decimal(&mut self, n: u64)
        requires { self.old.at + length (decimal n) ≤ length self.old.room.now }
        ensures { Wrote (decimal n) self.old self.new }
    {
        if 10 <= n {
            self.put_decimal(n / 10);
        }
        self.put_byte(b'0' + (n % 10) as u8);
    }

    fn put_number(&mut self, n: u64)
        requires { self.old.at + 21 ≤ length self.old.room.now }
        ensures put { Wrote (9 ∷ decimal n) self.old self.new }
        ensures upper_bound { self.new.at ≤ self.old.at + 21 }
    {
        self.put_byte(b'\t');
        self.put_decimal(n);
    }

    pub fn put_numbers(&mut self, numbers: &[u64])
        requires { self.old.at + 21 * length numbers.now ≤ length self.old.room.now }
        ensures put { Wrote (led 9 (map decimal numbers.now)) self.old self.new }
        ensures upper_bound { self.new.at ≤ self.old.at + 21 * length numbers.now }
    {
        for n in numbers {
            self.put_number(*n);
        }
    }

    fn put_kind(&mut self, kind: u32)
        requires { self.old.at + 32 ≤ length self.old.room.now }
        ensures put { Wrote (kind_text kind) self.old self.new }
        ensures upper_bound { self.new.at ≤ self.old.at + 32 }
    {
        let mut text = [0u8; 32];
        let k = kinds::spell_kind(kind, &mut text);
        self.put(&text[..k]);
    }

    // As `put_kind`, with the other function that spells: one over a closure would be no plainer.
    fn put_name(&mut self, name: u32)
        requires { self.old.at + 32 ≤ length self.old.room.now }
        ensures put { Wrote (name_text name) self.old self.new }
        ensures upper_bound { self.new.at ≤ self.old.at + 32 }
    {
        let mut text = [0u8; 32];
        let k = kinds::spell_name(name, &mut text);
        self.put(&text[..k]);
    }

    // Names, a comma in front of each.
    fn put_more_names(&mut self, names: &[u32])
        requires { self.old.at + 33 * length names.now ≤ length self.old.room.now }
        ensures put { Wrote (led 44 (map name_text names.now)) self.old self.new }
        ensures upper_bound { self.new.at ≤ self.old.at + 33 * length names.now }
    {
        for name in names {
            self.put_byte(b',');
            self.put_name(*name);
        }
    }

    // The names joined by commas, or a dash.
    fn put_names(&mut self, names: &[u32])
        requires { self.old.at + 33 * length names.now < length self.old.room.now }
        ensures put { Wrote (joined (map name_text names.now)) self.old self.new }
        ensures upper_bound { self.new.at ≤ self.old.at + 33 * length names.now + 1 }
    {
        match names.split_first() {
            Some((first, more)) => {
                self.put_name(*first);
                self.put_more_names(more);
            }
            None => self.put_byte(b'-'),
        }
    }

    // The field that edition 2 adds to the line of an event, behind its others.
    fn put_last(&mut self, edition: u32, n: u32)
        requires { self.old.at + 21 ≤ length self.old.room.now }
        ensures put { Wrote (led 9 (last_field edition n)) self.old self.new }
        ensures upper_bound { self.new.at ≤ self.old.at + 21 }
    {
        if 2 <= edition {
            self.put_number(n as u64);
        }
    }

    // The place of the bad byte as a field, where the error record that the list begins with has form 9.
    fn put_place(&mut self, list: &[u32])
        requires { self.old.at + 21 ≤ length self.old.room.now }
        ensures put { Wrote (led 9 (place_of list.now)) self.old self.new }
        ensures upper_bound { self.new.at ≤ self.old.at + 21 }
    {
        if number_at(list, FORM) == 9 {
            let names = number_at(list, COUNT) as usize;
            self.put_number(number_at(list, HEAD + names) as u64);
        }
    }

    // What both editions show of the error record that the list begins with.
    fn put_error(&mut self, list: &[u32])
        requires { self.old.at + 2891 ≤ length self.old.room.now }
        ensures put { Wrote (led 9 (error_fields list.now)) self.old self.new }
        ensures upper_bound { self.new.at ≤ self.old.at + 2891 }
    {
        let start = number_at(list, START) as u64;
        let end = number_at(list, END) as u64;
        let form = number_at(list, FORM) as u64;
        self.put_numbers(&[form, start, end]);
        self.put_byte(b'\t');
        self.put_names(names_of(list));
        self.put_place(list);
    }
}

// A line whose fields are all numbers, at the front of the room.
pub fn numbers_line(letter: u8, numbers: &[u64], room: &mut [u8]) -> usize
    requires { 2 + 21 * length numbers.now ≤ length room.old }
    ensures { Spelled (line_with letter (map decimal numbers.now)) room.old room.new result }
{
    let mut line = Writer { room, at: 0 };
    line.put_byte(letter);
    line.put_numbers(numbers);
    line.put_byte(b'\n');
    line.at
}

// The edition is a number here and below: the functions take any, and an enum of two would ask more of callers.
pub fn head_line(edition: u32, room: &mut [u8; 4096]) -> usize
    ensures { Spelled (head_line edition) room.old room.new result }
{
    numbers_line(b'L', &[edition as u64], room)
}

pub fn refusal_line(refusal: u32, room: &mut [u8; 4096]) -> usize
    ensures { Spelled (refusal_line refusal) room.old room.new result }
{
    numbers_line(b'F', &[refusal as u64], room)
}

pub fn unread_line(number: u64, room: &mut [u8; 4096]) -> usize
    ensures { Spelled (unread_line number) room.old room.new result }
{
    numbers_line(b'N', &[number], room)
}

pub fn result_line(outcome: u32, rows: u32, fuel: u32, room: &mut [u8; 4096]) -> usize
    ensures { Spelled (result_line outcome rows fuel) room.old room.new result }
{
    numbers_line(b'R', &[outcome as u64, rows as u64, fuel as u64], room)
}

fn node_line(edition: u32, letter: u8, event: Event, room: &mut [u8]) -> usize
    requires { 4096 ≤ length room.old }
    ensures { Spelled (node_line edition letter event.second event.start event.end event.depth) room.old room.new result }
{
    let mut line = Writer { room, at: 0 };
    line.put_byte(letter);
    line.put_byte(b'\t');
    line.put_kind(event.second);
    line.put_numbers(&[event.start as u64, event.end as u64]);
    line.put_last(edition, event.depth);
    line.put_byte(b'\n');
    line.at
}

// The number at a place of the list, or 0 past its end.
fn number_at(list: &[u32], at: usize) -> u32
    ensures { result ≡ get_or list.now at 0 }
{
    list.get(at).copied().unwrap_or(0)
}

// The names of the error record that the list begins with.
fn names_of(list: &[u32]) -> &[u32]
    ensures result_value { result.now ≡ names_of list.now }
    ensures result_len_bound { length result.now ≤ 85 }
{
    let from = list.len().min(HEAD);
    let count = (number_at(list, COUNT) as usize).min(85);
    let to = from + (list.len() - from).min(count);
    &list[from..to]
}

// The line of the error record that the list begins with. Its item stands behind form 9's place.
fn error_line(edition: u32, list: &[u32], room: &mut [u8]) -> usize
    requires { 4096 ≤ length room.old }
    ensures { Spelled (error_line edition list.now) room.old room.new result }
{
    let mut line = Writer { room, at: 0 };
    line.put_byte(b'X');
    line.put_error(list);
    line.put_last(edition, number_at(list, ITEM));
    line.put_byte(b'\n');
    line.at
}

// Where the error record with the given number, from 0, stands in the list.
fn record_place(list: &[u32], number: u32) -> usize
    ensures { Stands list.now number result }
{
    let mut at = 0;
    for _ in 0..number {
        at = next_record(list, at);
    }
    at
}

fn put_event(edition: u32, event: Event, errors: &[u32], room: &mut [u8]) -> usize
    requires { 4096 ≤ length room.old }
    ensures { Spelled (event_line edition errors.now event.sort event.second event.start event.end event.depth) room.old room.new result }
{
    let Ok(sort) = Sort::try_from(event.sort) else {
        return 0;
    };
    match sort {
        Sort::Begin => node_line(edition, b'B', event, room),
        Sort::Token => node_line(edition, b'T', event, room),
        Sort::End => node_line(edition, b'E', event, room),
        Sort::Error => {
            let at = record_place(errors, event.second);
            error_line(edition, &errors[at..], room)
        }
    }
}

// The line of an event in the edition, given with the error records. A sort that is none has no line.
pub fn event_line(edition: u32, event: Event, errors: &[u32], room: &mut [u8; 4096]) -> usize
    ensures { Spelled (event_line edition errors.now event.sort event.second event.start event.end event.depth) room.old room.new result }
{
    put_event(edition, event, errors, room)
}
