// The desk's refusals 1 to 6; 5 is given no more.
#![tactic(auto)]

ghost use Rattle.std.specs.Prelude.{◌≡◌, List, ℕ, length};
ghost use Rattle.std.specs.List.{list_any};
ghost use Rattle.definition.specs.Answer.{no_id, tile, refusal};
ghost use Rattle.refusals.specs.Judge.{desk, number_of};

use kinds::is_id;
use shapes::refusal::Refusal;

const MOST_BYTES: usize = 1048576;

const MOST_ROWS: usize = 65536;

// Whether a row has an id that is none.
fn unknown(ids: &[u32]) -> bool
    ensures { result ≡ list_any no_id ids.now }
{
    ids.iter().any(|id| !is_id(*id))
}

// Whether the rows tile a source of that many bytes.
fn tiles(size: usize, starts: &[u32], ends: &[u32]) -> bool
    requires { length starts.now ≡ length ends.now }
    ensures { result ≡ tile 0 size starts.now ends.now }
{
    let mut reached = 0;
    for (&start, &end) in starts.iter().zip(ends) {
        if start != reached || end <= reached {
            return false;
        }
        reached = end;
    }
    reached as usize == size
}

// The first refusal of 1 to 6 that applies, if any does, where so many words of scratch are lent.
#[tactic(auto, using(crate::proofs::Judging::any_of))]
pub fn judged(
    src: &[u8],
    ids: &[u32],
    starts: &[u32],
    ends: &[u32],
    scratch: usize,
) -> Result<(), Refusal>
    ensures { (fuel : ℕ) (sc ev er : List ℕ) → length sc ≡ scratch
        → number_of result ≡ refusal (desk src.now ids.now starts.now ends.now fuel sc ev er) }
{
    let rows = ids.len();
    if src.len() > MOST_BYTES {
        return Err(Refusal::Long);
    }
    if rows > MOST_ROWS || starts.len() > MOST_ROWS || ends.len() > MOST_ROWS {
        return Err(Refusal::Long);
    }
    if rows != starts.len() || rows != ends.len() {
        return Err(Refusal::Unequal);
    }
    if unknown(ids) {
        return Err(Refusal::Id);
    }
    if !tiles(src.len(), starts, ends) {
        return Err(Refusal::Tiles);
    }
    if scratch < (2 * (rows + 1) + 63) / 64 {
        return Err(Refusal::Scratch);
    }
    Ok(())
}
