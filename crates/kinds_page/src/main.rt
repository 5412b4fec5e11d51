// Says whether the page docs/KINDS.md, read from standard input, and the code's own tables agree; then how many ids the sets have.
#![tactic(auto)]

ghost use Rattle.std.specs.Prelude.{◌≤◌, length};

use console::{print_decimal, read_full, write};
use itoa::Buffer;
use kinds::Kind;

// The page's tables, in their order.
#[derive(Clone, Copy, PartialEq, Eq)]
enum Table {
    Ids,
    Kinds,
    Names,
    Descriptions,
}

impl Table {
    // How many rows it has.
    fn size(self) -> u32
        ensures { result ≤ 122 }
    {
        match self {
            Table::Ids => 82,
            Table::Kinds => 122,
            Table::Names => 85,
            Table::Descriptions => 85,
        }
    }

    fn heading(self) -> &'static [u8] {
        match self {
            Table::Ids => b"## Ids",
            Table::Kinds => b"## Kinds",
            Table::Names => b"## Names",
            Table::Descriptions => b"## Descriptions",
        }
    }

    fn next(self) -> Option<Self> {
        match self {
            Table::Ids => Some(Table::Kinds),
            Table::Kinds => Some(Table::Names),
            Table::Names => Some(Table::Descriptions),
            Table::Descriptions => None,
        }
    }
}

// The table that a line stands in, none above the first; and the number that its next row must have.
#[derive(Clone, Copy, PartialEq, Eq)]
struct Place {
    table: Option<Table>,
    next: u32,
}

impl Place {
    // Where the table at hand has all its rows.
    fn is_end(self) -> bool {
        match self.table {
            None => self.next == 0,
            Some(table) => self.next == table.size(),
        }
    }
}

// What stands in the line behind a number, if the line begins with it; and so on.
fn after_number(line: &[u8], n: u32) -> Option<&[u8]> {
    let mut digits = Buffer::new();
    line.strip_prefix(digits.format(n).as_bytes())
}

// Of a kind or a name, by the function that spells it.
fn after_text<F: Fn(u32, &mut [u8; 32]) -> usize>(line: &[u8], spell: F, n: u32) -> Option<&[u8]>
    requires { F.IsAlwaysCallable spell }
{
    let mut text = [0u8; 32];
    let k = spell(n, &mut text);
    line.strip_prefix(text.get(..k)?)
}

// What the name is called in a message, as the name text has it.
fn after_description(line: &[u8], name: u32) -> Option<&[u8]> {
    let from = messages::begins(name as usize);
    let to = messages::begins(name as usize + 1);
    line.strip_prefix(messages::TEXT.get(from..to)?)
}

// The id of a kind, or a dash where the kind is a node's.
fn after_id(line: &[u8], kind: u32) -> Option<&[u8]> {
    if kind < Kind::Error as u32 {
        after_number(line, kinds::id_of(kind))
    } else {
        line.strip_prefix(b"-")
    }
}

// What stands behind the row that the table must have for the number.
fn after_row(table: Table, n: u32, line: &[u8]) -> Option<&[u8]> {
    let line = after_number(line.strip_prefix(b"| ")?, n)?.strip_prefix(b" | ")?;
    let line = match table {
        Table::Kinds => after_text(line, |n, room| kinds::spell_kind(n, room), n)?,
        _ => after_text(line, |n, room| kinds::spell_name(n, room), n)?,
    };
    let line = match table {
        Table::Ids | Table::Names => line,
        Table::Kinds => after_id(line.strip_prefix(b" | ")?, n)?,
        Table::Descriptions => after_description(line.strip_prefix(b" | ")?, n)?,
    };
    line.strip_prefix(b" |")
}

// Whether the line is that row.
fn is_right(table: Table, n: u32, line: &[u8]) -> bool {
    match after_row(table, n, line) {
        Some(rest) => rest.is_empty(),
        None => false,
    }
}

fn is_heading(line: &[u8]) -> bool {
    line.starts_with(b"##")
}

// Whether the line is a row with a number in front.
fn is_row(line: &[u8]) -> bool {
    matches!(line, [b'|', _, b'0'..=b'9', ..])
}

// The place behind a line that is right: none where page and code differ.
fn next_table(at: Place, line: &[u8]) -> Option<Place> {
    let table = match at.table {
        None => Table::Ids,
        Some(table) => table.next()?,
    };
    if at.is_end() && line == table.heading() {
        Some(Place {
            table: Some(table),
            next: 0,
        })
    } else {
        None
    }
}

fn next_row(at: Place, line: &[u8]) -> Option<Place> {
    let table = at.table?;
    let n = at.next;
    if n < table.size() && is_right(table, n, line) {
        Some(Place {
            table: Some(table),
            next: n + 1,
        })
    } else {
        None
    }
}

fn step(at: Place, line: &[u8]) -> Option<Place> {
    if is_heading(line) {
        next_table(at, line)
    } else if is_row(line) {
        next_row(at, line)
    } else {
        Some(at)
    }
}

// Where the page's first line ends: at its line feed, or at the end of the page.
fn line_end(page: &[u8]) -> usize
    ensures { result ≤ length page.now }
{
    page.iter().position(|b| *b == b'\n').unwrap_or(page.len())
}

// The number, from 1, of the first line that differs from what the code has. A table that is too short differs where the next heading stands, or behind
// the last line.
fn differs(page: &[u8]) -> Option<usize> {
    let mut at = Place {
        table: None,
        next: 0,
    };
    let mut line = 1;
    let mut rest = page;
    // A `for` over the page's pieces has no place for `line_end`, whose promise an edit of must-fail holds.
    while !rest.is_empty() {
        let to = line_end(rest);
        let Some(next) = step(at, &rest[..to]) else {
            return Some(line);
        };
        at = next;
        line += 1;
        rest = rest.get(to + 1..).unwrap_or(&[]);
    }
    if at.table == Some(Table::Descriptions) && at.is_end() {
        return None;
    }
    Some(line)
}

// Whether the set has the id, or has it for a kind of another number.
fn has(set: usize, id: u32, other: bool, sets: &[[u64; 2]; 56]) -> bool {
    kinds::within(set, id, sets) && !(other && kinds::kind_in(set, id) == id)
}

// How many such ids there are: in each of the 56 sets and under a number that is none, of the numbers below 128.
fn members(other: bool, sets: &[[u64; 2]; 56]) -> usize {
    (0..57usize * 128)
        .filter(|n| has(*n / 128, (*n % 128) as u32, other, sets))
        .count()
}

fn count(rt: &impl Print, table: Table, name: &[u8]) {
    print_decimal(rt, u64::from(table.size()));
    write(rt, name);
}

fn main(rt: HostRuntime) {
    let mut text = [0u8; 65536];
    let n = read_full(&mut rt.reader(), &mut text);
    let Some(line) = differs(&text[..n]) else {
        count(&rt, Table::Ids, b" ids, ");
        count(&rt, Table::Kinds, b" kinds, ");
        count(&rt, Table::Names, b" names, ");
        count(
            &rt,
            Table::Descriptions,
            b" descriptions: page and code agree\n",
        );
        print_decimal(&rt, members(false, &kinds::SETS) as u64);
        write(&rt, b" ids in 56 sets, ");
        print_decimal(&rt, members(true, &kinds::SETS) as u64);
        write(&rt, b" for a kind of another number\n");
        return;
    };
    write(&rt, b"line ");
    print_decimal(&rt, line as u64);
    write(&rt, b": page and code differ\n");
}
