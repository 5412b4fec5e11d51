// One line of a listing: whether it reads where it stands, and what is written for it.
ghost use Rattle.std.specs.Prelude.{◌+◌, ◌≤◌, ◌<◌, ◌^◌, ◌≡◌, false, true, length, MatchOption};
ghost use Rattle.shapes.specs.Sort.{number};
ghost use Rattle.listing.specs.Lines.{parted};
ghost use Rattle.editions.specs.Sorts.{number_of};
ghost use Rattle.editions.specs.Sorts as sorts;
ghost use Rattle.editions.specs.Editions.{opened, field, allowed, right, ends, head_step, up_step, down_step, step_at};
ghost use Rattle.editions.specs.Answer.{step_of, kept_of, LastMark};

use crate::sort::{LineSort, sort_of};
use crate::words::{is_decimal, is_plain, same};
use shapes::sort::Sort;

// What is written for a line: its first bytes, and behind them, where there is one, a number as a field.
#[derive(Clone, Copy, PartialEq, Eq)]
pub struct Out {
    // Whether no line stands behind it.
    pub last: bool,
    // How many nodes are open behind it.
    pub depth: usize,
    pub keep: usize,
    pub field: Option<usize>,
}

// How many nodes are open behind an event, from those before it.
#[tactic(auto, unfolding(crate::specs::Editions::opened))]
fn after(sort: Sort, depth: usize) -> usize
    requires { depth + 1 < 2 ^ 64 }
    ensures { result ≡ opened (number sort) depth }
{
    match sort {
        Sort::Begin => depth + 1,
        Sort::End => depth.saturating_sub(1),
        Sort::Token | Sort::Error => depth,
    }
}

// The number that edition 2 has behind an event: how many nodes are open around it. An error's item is not known.
#[tactic(auto, unfolding(crate::specs::Editions::field))]
fn shown(sort: Sort, depth: usize) -> usize
    ensures { result ≡ field (number sort) depth }
{
    match sort {
        Sort::Error => 0,
        Sort::End => depth.saturating_sub(1),
        Sort::Begin | Sort::Token => depth,
    }
}

// The event that a line is, and no end with none open.
#[tactic(auto, unfolding(crate::specs::Editions::allowed))]
fn event_of(line: &[u8], depth: usize) -> Option<Sort>
    ensures { MatchOption result (allowed (sorts.sort_of (parted 9 line.now)) depth ≡ false) (λ sort. (number sort ≡ sorts.sort_of (parted 9 line.now)) × (allowed (number sort) depth ≡ true)) }
{
    let Some(LineSort::Event(sort)) = sort_of(line) else {
        return None;
    };
    match sort {
        Sort::End => (0 < depth).then_some(sort),
        Sort::Begin | Sort::Token | Sort::Error => Some(sort),
    }
}

// Whether the field is the counted depth, or an item.
#[tactic(auto, unfolding(crate::specs::Editions::right))]
fn is_right(sort: Sort, depth: usize, text: &[u8]) -> bool
    ensures { result ≡ right (number sort) depth text.now }
{
    match sort {
        Sort::Error => is_plain(text),
        Sort::Begin | Sort::Token | Sort::End => is_decimal(text, shown(sort, depth)),
    }
}

// Whether a line of this sort ends the listing: a result, or as line 2 one that stands alone.
#[tactic(auto, unfolding(crate::specs::Editions::ends))]
fn is_end(sort: Option<LineSort>, number: usize, depth: usize) -> bool
    ensures { result ≡ ends (number_of sort) number depth }
{
    match sort {
        Some(LineSort::Result) => depth == 0,
        Some(LineSort::Alone) => depth == 0 && number == 2,
        Some(LineSort::Event(_)) | None => false,
    }
}

fn last_tab(line: &[u8]) -> Option<usize>
    ensures { LastMark 9 line.now result }
{
    for i in (0..line.len()).rev() {
        if line[i] == b'\t' {
            return Some(i);
        }
    }
    None
}

fn head(up: bool, line: &[u8]) -> Option<Out>
    ensures line_value { step_of result line.now ≡ head_step up line.now }
    ensures result_in_bounds { kept_of result ≤ length line.now }
{
    if up {
        if !same(line, b"L\t1") {
            return None;
        }
        return Some(Out {
            last: false,
            depth: 0,
            keep: 1,
            field: Some(2),
        });
    }
    if !same(line, b"L\t2") {
        return None;
    }
    Some(Out {
        last: false,
        depth: 0,
        keep: 1,
        field: Some(1),
    })
}

// An event of edition 1 gets its depth behind it, and an error 0.
fn event_up(depth: usize, line: &[u8]) -> Option<Out>
    requires { depth + 1 < 2 ^ 64 }
    ensures line_value { step_of result line.now ≡ up_step depth line.now }
    ensures result_in_bounds { kept_of result ≤ length line.now }
{
    let sort = event_of(line, depth)?;
    Some(Out {
        last: false,
        depth: after(sort, depth),
        keep: line.len(),
        field: Some(shown(sort, depth)),
    })
}

// One of edition 2 is one of edition 1 with a field behind it.
fn event_down(depth: usize, line: &[u8]) -> Option<Out>
    requires { depth + 1 < 2 ^ 64 }
    ensures line_value { step_of result line.now ≡ down_step depth line.now }
    ensures result_in_bounds { kept_of result ≤ length line.now }
{
    let tab = last_tab(line)?;
    let sort = event_of(&line[..tab], depth)?;
    let from = tab + 1;
    if !is_right(sort, depth, &line[from..]) {
        return None;
    }
    Some(Out {
        last: false,
        depth: after(sort, depth),
        keep: tab,
        field: None,
    })
}

// Line `number`, from 1, where `depth` nodes are open.
pub fn step_at(up: bool, number: usize, depth: usize, line: &[u8]) -> Option<Out>
    requires { depth + 1 < 2 ^ 64 }
    ensures line_value { step_of result line.now ≡ step_at up number depth line.now }
    ensures result_in_bounds { kept_of result ≤ length line.now }
{
    if number == 1 {
        return head(up, line);
    }
    if is_end(sort_of(line), number, depth) {
        return Some(Out {
            last: true,
            depth: 0,
            keep: line.len(),
            field: None,
        });
    }
    if up {
        return event_up(depth, line);
    }
    event_down(depth, line)
}
