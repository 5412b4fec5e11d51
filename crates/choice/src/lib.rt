// Error choice.
#![tactic(auto)]

ghost use Rattle.std.specs.Prelude.{◌≡◌, List, ◌∷◌, [], ℕ, ◌+◌, ◌-◌, ◌≤◌, ◌<◌, length, take};
ghost use Rattle.std.proofs.Math.Seq.{paste};
ghost use Rattle.kinds.specs.Kinds as k;
ghost use Rattle.utf8.specs.Utf8.{bad_byte};
ghost use Rattle.definition.specs.Run as P;
ghost use Rattle.definition.specs.Run.{Limits};
ghost use Rattle.definition.specs.Render.{form_found, form_unknown, form_of, choice_names};
ghost use Rattle.kinds.specs.Sets.{set_of, ids_of};
ghost use Rattle.notes.specs.Whole.{Whole, beside, exceeded};
ghost use Rattle.notes.specs.Change.{with_full};
ghost use Rattle.notes.specs.Means as m;
ghost use Rattle.notes.specs.Means.{names_of, names_in};
ghost use Rattle.notes.specs.Reading.{source_of};
ghost use Rattle.notes.specs.Did.{Ok, Sound, Coded, Errors};
ghost use Rattle.choice.specs.Choice.{choice_of, scan, Noted, Chose, Spelt, Spells};

use kinds::{Kind, name_at};
use notes::names::Notes;
use notes::reading::Given;
use shapes::full::Full;
use shapes::record::{END, FORM, HEAD, next_record};

// The form of what was found where something else was expected: nothing, or a text that is too long to quote or not.
fn found(text: &[u8], quote: usize) -> u32
    ensures { (L : Limits) → L.quote ≡ quote → result ≡ form_found L text.now }
{
    if text.len() == 0 {
        return 3;
    }
    if text.len() > quote {
        return 2;
    }
    1
}

// The same of an unknown row: a comment, a text or a regular expression may have been begun and not closed.
fn unclosed(text: &[u8], quote: usize) -> u32
    ensures { (L : Limits) → L.quote ≡ quote → result ≡ form_unknown L text.now }
{
    if text.len() == 0 {
        return found(text, quote);
    }
    let b = text[0];
    if b == b'"' {
        return 7;
    }
    if b != b'/' {
        return found(text, quote);
    }
    if text.len() > 1 {
        if text[1] == b'*' {
            return 6;
        }
        return 8;
    }
    8
}

// The form of an error at a row with the id and the text.
fn form_of(row_id: u32, text: &[u8], expected: bool, quote: usize) -> u32
    ensures { (L : Limits) → L.quote ≡ quote → result ≡ form_of L row_id text.now (choice_of expected []) }
{
    if !utf8::valid(text) {
        return 9;
    }
    if !expected {
        if text.len() == 0 {
            return 5;
        }
        return 4;
    }
    if row_id == Kind::Unknown as u32 {
        return unclosed(text, quote);
    }
    found(text, quote)
}

// How many of the names an error has: all where its form tells them, else none.
fn named(expected: bool, form: u32, count: usize) -> usize
    ensures { (result ≤ count) × ((names : List ℕ) → take result names ≡ choice_names form (choice_of expected (take count names))) }
{
    if !expected {
        return 0;
    }
    if form < 4 {
        return count;
    }
    0
}

// Whether one of the records has the span. Records are not of one length, so each says where the next begins.
fn pending(start: u32, end: u32, records: &[u32]) -> bool
    ensures { result ≡ scan start end 0 records.now }
{
    let mut at = 0;
    while at + HEAD <= records.len() {
        if records[at] == start {
            if records[at + END] == end {
                return true;
            }
        }
        at = next_record(records, at);
    }
    false
}

// A name as a number of a record.
fn wide(name: u8) -> u32
    ensures { result ≡ name }
{
    name as u32
}

// Writes names from a place on.
fn spell(names: &[u8], at: usize, errors: &mut [u32])
    requires { at + length names.now ≤ length errors.old }
    ensures { errors.new ≡ paste errors.old at names.now (length names.now) }
{
    for k in 0..names.len() {
        errors[at + k] = wide(names[k]);
    }
}

// Names in order of first entry, none twice: never more than 85. An array and a count, since the library takes no memory of its own.
#[derive(Drop)]
pub struct Names {
    pub count: usize,
    pub names: [u8; 96],
}

impl Names {
    // Enters a name, unless it is there.
    fn enter(mut self, name: u8) -> Self
        requires { Spelt self.count self.names × (name < 85) }
        ensures { Spells (P.join (take self.count self.names) (name ∷ [])) result }
    {
        if self.names[..self.count].contains(&name) {
            return self;
        }
        self.names[self.count] = name;
        self.count += 1;
        self
    }

    // Enters the names of a set.
    fn enter_ids(mut self, set: usize) -> Self
        requires { Spelt self.count self.names }
        ensures { Spells (P.join (take self.count self.names) (ids_of (set_of set))) result }
    {
        for k in 0..16 {
            let Some(name) = name_at(set, k) else {
                return self;
            };
            self = self.enter(name as u8);
        }
        self
    }

    // Enters the names that a code stands for.
    fn enter_code(self, code: usize) -> Self
        requires { Spelt self.count self.names × (code < 58) }
        ensures { Spells (P.join (take self.count self.names) (names_of code)) result }
    {
        if code < 55 {
            return self.enter_ids(code);
        }
        self.enter(code as u8 + 27)
    }
}

// The names that the codes stand for. They are spelled only here, where an error is chosen.
fn spelled(notes: &Notes) -> Names
    requires { Coded notes.now }
    ensures { Spells (m.spelled (take notes.now.count notes.now.codes)) result }
{
    let mut names = Names {
        count: 0,
        names: [0; 96],
    };
    for k in 0..notes.count {
        names = names.enter_code(notes.codes[k]);
    }
    names
}

// Writes a record, with the number of the item at hand; or there is no room.
pub fn record(
    start: u32,
    end: u32,
    form: u32,
    names: &[u8],
    errors: &mut [u32],
    notes: &mut Notes,
) -> Full
    requires { (notes.old.er ≤ notes.old.ercap)
        × (notes.old.ercap ≤ length errors.old)
        × (length names.now ≤ 85)
        × (notes.old.number ≤ 65536) }
    ensures { (s : Whole) → s.full ≡ 0
        → Noted (start ∷ end ∷ form ∷ notes.old.number ∷ length names.now ∷ names.now)
        (beside notes.old s) (with_full (exceeded result) (beside notes.new s))
        errors.old errors.new }
{
    let at = notes.er;
    if notes.ercap - at < names.len() + HEAD {
        return Full::ERRORS;
    }
    errors[at] = start;
    errors[at + END] = end;
    errors[at + FORM] = form;
    errors[at + shapes::record::ITEM] = notes.number as u32;
    errors[at + shapes::record::COUNT] = names.len() as u32;
    spell(names, at + HEAD, errors);
    notes.er = at + HEAD + names.len();
    Full::NONE
}

// Writes a record of form 9, with the place of the bad byte; or there is no room.
fn record_bad(start: u32, end: u32, place: u32, errors: &mut [u32], notes: &mut Notes) -> Full
    requires { (notes.old.er ≤ notes.old.ercap)
        × (notes.old.ercap ≤ length errors.old)
        × (notes.old.number ≤ 65536) }
    ensures { (s : Whole) → s.full ≡ 0
        → Noted (start ∷ end ∷ 9 ∷ notes.old.number ∷ 0 ∷ place ∷ []) (beside notes.old s) (with_full (exceeded result) (beside notes.new s))
        errors.old errors.new }
{
    let at = notes.er;
    if notes.ercap - at < HEAD + 1 {
        return Full::ERRORS;
    }
    errors[at] = start;
    errors[at + END] = end;
    errors[at + FORM] = 9;
    errors[at + shapes::record::ITEM] = notes.number as u32;
    errors[at + shapes::record::COUNT] = 0;
    errors[at + HEAD] = place;
    notes.er = at + HEAD + 1;
    Full::NONE
}

// Where in the source the bad byte is of a text that starts at the given place.
fn place_of(start: u32, text: &[u8]) -> u32
    requires { start + length text.now < 4294967296 }
    ensures { result ≡ start + bad_byte text.now }
{
    start + utf8::bad_byte(text) as u32
}

// Chooses an error at the row, unless one is pending there.
fn choose_at(
    at: usize,
    expected: bool,
    x: &Given<'_>,
    errors: &mut [u32],
    notes: &mut Notes,
) -> Full
    requires { Sound (length x.now.rows.ids.now) notes.old
        × (notes.old.ercap ≤ length errors.old)
        × (notes.old.first ≤ at)
        × (at ≤ length x.now.rows.ids.now) }
    ensures { (s : Whole) → s.full ≡ 0 → Ok (length x.now.rows.ids.now) (beside notes.old s)
        → Chose (P.add (length x.now.rows.ids.now - at) (choice_of expected (names_in (beside notes.old s))))
        (source_of x.now) (beside notes.old s)
        (with_full (exceeded result) (beside notes.new s)) errors.old errors.new }
{
    let start = x.rows.start_of(at);
    let end = x.rows.end_of(at);
    if pending(start, end, &errors[notes.item..notes.er]) {
        return Full::NONE;
    }
    let text = &x.src[start as usize..end as usize];
    let form = form_of(x.rows.id_at(at), text, expected, notes.quote);
    if form == 9 {
        let place = place_of(start, text);
        return record_bad(start, end, place, errors, notes);
    }
    let names = spelled(notes);
    let count = named(expected, form, names.count);
    record(start, end, form, &names.names[..count], errors, notes)
}

// Chooses an error at the furthest row that was expected or unexpected, and empties both. Expected wins a tie. It takes and gives which room was
// exceeded.
pub fn choose(full: Full, x: &Given<'_>, errors: &mut [u32], notes: &mut Notes) -> Full
    requires { Sound (length x.now.rows.ids.now) notes.old × (notes.old.ercap ≤ length errors.old) }
    ensures { (s : Whole) → s.full ≡ exceeded full → Ok (length x.now.rows.ids.now) (beside notes.old s)
        → Errors P.choose (source_of x.now) (beside notes.old s)
        (with_full (exceeded result) (beside notes.new s)) errors.old errors.new }
{
    let want = notes.want;
    let unwant = notes.unwant;
    notes.want = 0;
    notes.unwant = 0;
    if full.isnt(Full::NONE) {
        return full;
    }
    let expected = unwant <= want;
    let row = if expected { want } else { unwant };
    if row == 0 {
        return Full::NONE;
    }
    choose_at(row - 1, expected, x, errors, notes)
}
