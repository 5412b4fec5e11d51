// The words that stand in fields: numbers without leading zeros, kinds and names.
ghost use Rattle.std.specs.Prelude.{◌≤◌, ◌≡◌};
ghost use Rattle.kinds.specs.Spelling.{Spelled};
ghost use Rattle.listing.specs.Numbers.{decimal};
ghost use Rattle.editions.specs.Words.{equal, plain, kind_among, named};

use listing::{Writer, read_number};

pub fn same(a: &[u8], b: &[u8]) -> bool
    ensures { result ≡ equal a.now b.now }
{
    a == b
}

// Whether the text is a decimal below 2^32 without leading zeros.
pub fn is_plain(text: &[u8]) -> bool
    ensures { result ≡ plain text.now }
{
    let Some(_) = read_number(text) else {
        return false;
    };
    if text.len() < 2 {
        return true;
    }
    text[0] != b'0'
}

// The number in decimal at the front of the word, which has room for any: how long it is.
pub fn spell(n: usize, word: &mut [u8; 32]) -> usize
    ensures { Spelled (decimal n) word.old word.new result }
{
    let mut digits = Writer { room: word, at: 0 };
    digits.put_decimal(n as u64);
    digits.at
}

// Whether the text is this number in decimal.
pub fn is_decimal(text: &[u8], n: usize) -> bool
    ensures { result ≡ equal text.now (decimal n) }
{
    let mut word = [0u8; 32];
    let end = spell(n, &mut word);
    same(text, &word[..end])
}

// Whether the text is a kind's from `from` up to `to`.
pub fn is_kind(text: &[u8], from: u32, to: u32) -> bool
    requires { to ≤ 122 }
    ensures { result ≡ kind_among from to text.now }
{
    let mut word = [0u8; 32];
    for k in from..to {
        let n = kinds::spell_kind(k, &mut word);
        if same(&word[..n], text) {
            return true;
        }
    }
    false
}

// The number of the name that the text is.
pub fn name_number(text: &[u8]) -> Option<usize>
    ensures { result ≡ named text.now }
{
    let mut word = [0u8; 32];
    for n in 0..85 {
        let k = kinds::spell_name(n, &mut word);
        if same(&word[..k], text) {
            return Some(n as usize);
        }
    }
    None
}
