// Characters of several bytes: a well-formed UTF-8 sequence (shortest form, no surrogate, up to 10FFFF), decoded into the character's number and its length.
ghost use Rattle.std.specs.Prelude.{◌≡◌, ◌≤◌, ◌<◌, cond, ◌&&◌, get_or, Some, None};
ghost use Rattle.tokens.specs.Glyph.{two, three, four};
ghost use Rattle.tokens.specs.Decoded.{plain, high, decoded, follower};

// The byte at a place; past the end it is 0, which follows nothing.
pub fn byte(s: &[u8], i: usize) -> u32
    ensures { (result ≡ get_or s.now i 0) × (result < 256) }
{
    if i < s.len() { s[i] as u32 } else { 0 }
}

// Whether the byte may stand behind the first of a character.
fn follows(b: u32) -> bool
    ensures { result ≡ follower b }
{
    0x80 <= b && b <= 0xBF
}

fn decode_two(a: u32, b: u32) -> Option<(u32, usize)>
    requires { (0xC2 ≤ a) × (a ≤ 0xF4) }
    ensures { result ≡ cond (follower b) (Some (two a b, 2)) None }
{
    if follows(b) {
        return Some(((a - 0xC0) * 64 + (b - 0x80), 2));
    }
    None
}

fn decode_three(a: u32, b: u32, c: u32) -> Option<(u32, usize)>
    requires { (0xE0 ≤ a) × (a ≤ 0xF4) }
    ensures { result ≡ cond (follower b && follower c && plain (three a b c)) (Some (three a b c, 3)) None }
{
    if !follows(b) || !follows(c) {
        return None;
    }
    match (a - 0xE0) * 4096 + (b - 0x80) * 64 + (c - 0x80) {
        0..=0x7FF | 0xD800..=0xDFFF => None,
        n => Some((n, 3)),
    }
}

fn decode_four(a: u32, b: u32, c: u32, d: u32) -> Option<(u32, usize)>
    requires { (0xF0 ≤ a) × (a ≤ 0xF4) }
    ensures { result ≡ cond (follower b && follower c && follower d && high (four a b c d)) (Some (four a b c d, 4)) None }
{
    if !follows(b) || !follows(c) || !follows(d) {
        return None;
    }
    match (a - 0xF0) * 262144 + (b - 0x80) * 4096 + (c - 0x80) * 64 + (d - 0x80) {
        n @ 0x10000..=0x10FFFF => Some((n, 4)),
        _ => None,
    }
}

// The character that begins with a, of which b, c and d are the next bytes.
pub fn decode(a: u32, b: u32, c: u32, d: u32) -> Option<(u32, usize)>
    requires { (0xC2 ≤ a) × (a ≤ 0xF4) }
    ensures { result ≡ decoded a b c d }
{
    if a < 0xE0 {
        return decode_two(a, b);
    }
    if a < 0xF0 {
        return decode_three(a, b, c);
    }
    decode_four(a, b, c, d)
}
