// The UTF-8 test of document 01, module 2, by the Unicode Standard's table (request (iii)), and where the bad byte is (request (vi)).
#![tactic(auto)]

ghost use Rattle.std.specs.Prelude.{◌≡◌};
ghost use Rattle.utf8.specs.Utf8.{followers, characters, begun, next, utf8, bad_byte};
ghost use Rattle.utf8.specs.Due.{led, ranges, owed};

// The followers that are due: how many, and the range of the first of them. The others are 80..BF.
#[derive(Drop)]
struct Due {
    count: u8,
    least: u8,
    greatest: u8,
}

// The first of the followers has a range of its own.
fn led(least: u8, greatest: u8, count: u8) -> Due
    ensures { ranges result ≡ led (least, greatest) count }
{
    Due {
        count,
        least,
        greatest,
    }
}

fn followers(count: u8) -> Due
    ensures { ranges result ≡ followers count }
{
    led(0x80, 0xBF, count)
}

// The characters: what each first byte is followed by, and none where a byte begins no character.
fn begun(b: u8) -> Option<Due>
    ensures { owed result ≡ begun characters b }
{
    match b {
        0x00..=0x7F => Some(followers(0)),
        0xC2..=0xDF => Some(followers(1)),
        0xE0 => Some(led(0xA0, 0xBF, 2)),
        0xE1..=0xEC => Some(followers(2)),
        0xED => Some(led(0x80, 0x9F, 2)),
        0xEE..=0xEF => Some(followers(2)),
        0xF0 => Some(led(0x90, 0xBF, 3)),
        0xF1..=0xF3 => Some(followers(3)),
        0xF4 => Some(led(0x80, 0x8F, 3)),
        _ => None,
    }
}

// What is due after one byte more, and none where the byte can neither begin nor continue a character.
fn next(due: Due, b: u8) -> Option<Due>
    ensures { owed result ≡ next (ranges due) b }
{
    if due.count == 0 {
        return begun(b);
    }
    if b < due.least || due.greatest < b {
        return None;
    }
    Some(followers(due.count - 1))
}

// The place of the first byte that can neither begin nor continue a character; of a character that is cut short by the end, its first byte. Where
// there is none it is the length.
#[tactic(auto, unfolding(crate::specs::Utf8::bad_byte))]
pub fn bad_byte(s: &[u8]) -> usize
    ensures { result ≡ bad_byte s.now }
{
    let mut due = followers(0);
    let mut first = 0;
    for (i, &b) in s.iter().enumerate() {
        if due.count == 0 {
            first = i;
        }
        let Some(rest) = next(due, b) else {
            return i;
        };
        due = rest;
    }
    if due.count == 0 { s.len() } else { first }
}

// The bytes are whole characters.
#[tactic(auto, using(crate::proofs::Place::none_bad))]
pub fn valid(s: &[u8]) -> bool
    ensures { result ≡ utf8 s.now }
{
    bad_byte(s) == s.len()
}
