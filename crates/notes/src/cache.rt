// Failures that are remembered: two bits for each row, one for EXPR and one for TERM.
ghost use Rattle.std.specs.Prelude.{◌≡◌, ◌+◌, ◌*◌, ◌/◌, ◌≤◌, ◌<◌, max, length};
ghost use Rattle.notes.specs.Bits.{bit_at, Kept, Forgot};
ghost use Rattle.notes.specs.Whole.{Whole, beside};
ghost use Rattle.notes.specs.Change.{with_far};

use crate::names::Notes;
use crate::reading::Lent;

// Whether a failure is remembered by its bit.
pub fn seen(bit: usize, scratch: &[u64]) -> bool
    requires { bit / 64 < length scratch.now }
    ensures { result ≡ bit_at scratch.now bit }
{
    let word = scratch[bit / 64];
    (word >> (bit % 64)) & 1 == 1
}

impl Lent<'_> {
    // The same of what is lent.
    pub fn seen(&self, bit: usize) -> bool
        requires { bit / 64 < length self.now.scratch.now }
        ensures { result ≡ bit_at self.now.scratch.now bit }
    {
        seen(bit, self.scratch)
    }
}

fn remember(bit: usize, scratch: &mut [u64])
    requires { bit / 64 < length scratch.old }
    ensures { Kept bit scratch.old scratch.new }
{
    let at = bit / 64;
    let word = scratch[at];
    scratch[at] = word | (1 << (bit % 64));
}

// Forgets the rows from one up to before another, a word at a time; it may take one word more, which holds nothing.
pub fn forget(from: usize, to: usize, scratch: &mut [u64])
    requires { 2 * to ≤ 64 * length scratch.old }
    ensures { Forgot from to scratch.old scratch.new }
{
    for at in from / 32..scratch.len().min(to / 32 + 1) {
        scratch[at] = 0;
    }
}

// Remembers a failure by its bit, and that its row is to be forgotten.
pub fn remembers(bit: usize, scratch: &mut [u64], notes: &mut Notes)
    requires { bit / 64 < length scratch.old }
    ensures { ((s : Whole) → beside notes.new s ≡ with_far (max (notes.old.far) (bit / 2 + 1)) (beside notes.old s))
        × Kept bit scratch.old scratch.new }
{
    remember(bit, scratch);
    notes.far = notes.far.max(bit / 2 + 1);
}
