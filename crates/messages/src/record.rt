// The numbers of an error record: where they stand crate shapes says.
ghost use Rattle.std.specs.Prelude.{◌≤◌, ◌≡◌, get_or};
ghost use Rattle.messages.specs.Record.{behind, size};

use shapes::record::{COUNT, FORM, HEAD};

// How many numbers stand behind the names of a record of form 9.
const PLACES: usize = 1;

// The number at a place of the list, or 0 past its end.
pub fn number_at(list: &[u32], at: usize) -> u32
    ensures { result ≡ get_or list.now at 0 }
{
    list.get(at).copied().unwrap_or(0)
}

// How many numbers stand behind the names.
pub fn behind(form: u32) -> usize
    ensures value { result ≡ behind form }
    ensures upper_bound { result ≤ 1 }
{
    if form == 9 { PLACES } else { 0 }
}

// How many numbers the record has that the list begins with.
pub fn size(numbers: &[u32]) -> usize
    ensures { result ≡ size numbers.now }
{
    let count = number_at(numbers, COUNT) as usize;
    HEAD + count + behind(number_at(numbers, FORM))
}
