// Which records read (refusal 11).
ghost use Rattle.std.specs.Prelude.{◌≡◌, []};
ghost use Rattle.messages.specs.Record.{counts, named, shows, reads};

use crate::record::behind;
use shapes::record::{COUNT, END, FORM, HEAD, START};

// The numbers are names, none twice. A repeated one is met at the latest behind the 85 names that there are, so the time is in proportion.
fn named(list: &[u32]) -> bool
    ensures { result ≡ named [] list.now }
{
    for (i, n) in list.iter().enumerate() {
        if 85 <= *n {
            return false;
        }
        if list[..i].contains(n) {
            return false;
        }
    }
    true
}

fn counts(form: u32, count: u32) -> bool
    ensures { result ≡ counts form count }
{
    if form < 4 { 1 <= count } else { count == 0 }
}

// Forms 1 and 4 quote the text.
fn shows(form: u32, text: &[u8]) -> bool
    ensures { result ≡ shows form text.now }
{
    match form {
        1 | 4 => !text.is_empty() && utf8::valid(text),
        3 => text.is_empty(),
        _ => true,
    }
}

#[tactic(auto, using(crate::proofs::Judged::names_part), unfolding(crate::specs::Record::reads))]
pub fn reads(source: &[u8], numbers: &[u32]) -> bool
    ensures { result ≡ reads source.now numbers.now }
{
    if numbers.len() < HEAD {
        return false;
    }
    let start = numbers[START] as usize;
    let end = numbers[END] as usize;
    let form = numbers[FORM];
    let names_end = HEAD + numbers[COUNT] as usize;
    if end < start {
        return false;
    }
    if source.len() < end {
        return false;
    }
    if form < 1 {
        return false;
    }
    if 10 < form {
        return false;
    }
    if !counts(form, numbers[COUNT]) {
        return false;
    }
    if numbers.len() < names_end + behind(form) {
        return false;
    }
    named(&numbers[HEAD..names_end]) && shows(form, &source[start..end])
}
