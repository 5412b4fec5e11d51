// Ids, kinds and token sets.
#![tactic(auto)]

ghost use Rattle.std.specs.Prelude.{◌≡◌, ◌==◌, [], get_or, slice_get};
ghost use Rattle.std.specs.List.{find};
ghost use Rattle.kinds.specs.Sets.{is_id, trivial, id_of, kind_of, ids_of, pick, set_of};
ghost use Rattle.kinds.specs.Answers.{is_some, in_pair, kind_in};

mod kind;
pub mod name;
pub mod set;
mod table;
mod text;

pub use kind::Kind;
pub use table::SETS;
use table::kinds_of;
pub use text::{spell_kind, spell_name};

pub fn is_id(n: u32) -> bool
    ensures { result ≡ is_id n }
{
    n < 82
}

pub fn is_trivia(id: u32) -> bool
    ensures { result ≡ trivial id }
{
    id < 3
}

// The kinds that share an id, and the kinds whose number that id is.
const MINUS: u32 = Kind::Minus as u32;

const SUB: u32 = Kind::Sub as u32;

const MUL: u32 = Kind::Mul as u32;

const MOD: u32 = Kind::Mod as u32;

const BITWISE_OR: u32 = Kind::BitwiseOr as u32;

// The id that the rows of a token kind have.
#[tactic(auto, unfolding(crate::specs::Sets::id_of))]
pub fn id_of(kind: u32) -> u32
    ensures { result ≡ id_of kind }
{
    match kind {
        MINUS => Kind::Hyphen as u32,
        SUB => Kind::Hyphen as u32,
        MUL => Kind::Asterisk as u32,
        MOD => Kind::Percent as u32,
        BITWISE_OR => Kind::Pipe as u32,
        _ => kind,
    }
}

// The kind that a skipped row of the id is written with.
pub fn kind_of(id: u32) -> u32
    ensures { result ≡ kind_of id }
{
    id
}

// Whether the pair has the id.
pub fn member(pair: [u64; 2], id: u32) -> bool
    ensures { result ≡ in_pair pair id }
{
    let low = pair[0];
    let high = pair[1];
    if id < 64 {
        return (low >> id) & 1 == 1;
    }
    if id < 128 {
        return (high >> (id - 64)) & 1 == 1;
    }
    false
}

// Whether the set has a kind with the id, by the table of pairs that is lent.
pub fn within(set: usize, id: u32, sets: &[[u64; 2]; 56]) -> bool
    ensures { result ≡ in_pair (get_or sets.now set []) id }
{
    if set < sets.len() {
        return member(sets[set], id);
    }
    false
}

// Whether a set has a kind with the id.
pub fn has(set: usize, id: u32) -> bool
    ensures { result ≡ is_some (pick (set_of set) id) }
{
    within(set, id, &SETS)
}

// The first kind in the set that has the id.
fn matched(set: usize, id: u32) -> Option<u32>
    ensures { result ≡ find (λ a. id == id_of a) (set_of set) }
{
    kinds_of(set)
        .iter()
        .copied()
        .find(|kind| id == id_of(*kind))
}

// The kind that a set names for an id that it has. Only in two sets does a kind have another number than its id, so only they are searched.
pub fn kind_in(set: usize, id: u32) -> u32
    ensures { result ≡ kind_in set id }
{
    if set == set::ARITHMETIC || set == set::MINUS {
        return matched(set, id).unwrap_or(id);
    }
    id
}

// The k-th, from 0, of the names that the set enters.
pub fn name_at(set: usize, k: usize) -> Option<u32>
    ensures { result ≡ slice_get (ids_of (set_of set)) k }
{
    kinds_of(set).get(k).map(|kind| id_of(*kind))
}
