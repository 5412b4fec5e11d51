// An error record: "start, end, form, count of names, then the names", with the number of its item behind the form; behind the names, in form 9 alone, the
// place.
ghost use Rattle.std.specs.Prelude.{◌≡◌};
ghost use Rattle.shapes.specs.Shapes.{record_size, next_record};

// How many numbers stand before the names.
pub const HEAD: usize = 5;

// Where each of them stands in it. Records are lists of numbers that C lends, so these are places and no fields.
pub const START: usize = 0;

pub const END: usize = 1;

pub const FORM: usize = 2;

pub const ITEM: usize = 3;

pub const COUNT: usize = 4;

// How many numbers a record of the form has.
fn record_size(form: u32, names: u32) -> usize
    ensures { result ≡ record_size form names }
{
    let size = names as usize + HEAD;
    if form == 9 {
        return size + 1;
    }
    size
}

// Where the record behind the one at a place begins; the list's end where none can.
pub fn next_record(records: &[u32], at: usize) -> usize
    ensures { result ≡ next_record records.now at }
{
    let end = records.len();
    if end < HEAD {
        return end;
    }
    if end - HEAD < at {
        return end;
    }
    let next = at + record_size(records[at + FORM], records[at + COUNT]);
    if end < next {
        return end;
    }
    next
}
