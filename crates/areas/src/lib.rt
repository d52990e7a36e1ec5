// What stands of a rule in the areas of a search: its length, a place, its number of occurrences, and the cut at its join.
#![tactic(auto)]

ghost use Rattle.std.specs.Prelude.{◌≡◌, ◌≤◌, ◌<◌, ltb, MatchOption};
ghost use Rattle.layout.specs.Layout.{Readable, length_in, place_in, count_in, join_cut_in};

use layout::{FOUND, LENGTHS, PACK, PLACES};

// The length of rule r's string.
pub fn length_of(work: &[u32], r: usize) -> usize
    requires { Readable work.now r }
    ensures { result ≡ length_in work.now r }
{
    work[LENGTHS + r] as usize
}

// Whether it has fewer than m symbols.
pub fn is_shorter(work: &[u32], r: usize, m: usize) -> bool
    requires { Readable work.now r × (m ≤ 2047) }
    ensures { result ≡ ltb (length_in work.now r) m }
{
    work[LENGTHS + r] < m as u32
}

// A place at which it stands.
pub fn place_of(work: &[u32], r: usize) -> usize
    requires { Readable work.now r }
    ensures { result ≡ place_in work.now r }
{
    work[PLACES + r] as usize
}

// How many occurrences it has.
pub fn number_of(work: &[u32], r: usize) -> usize
    requires { Readable work.now r }
    ensures { result ≡ count_in work.now r }
{
    (work[FOUND + r] / PACK) as usize
}

// The cut at which one straddles its join, if one does.
pub fn cut_of(work: &[u32], r: usize) -> Option<usize>
    requires { Readable work.now r }
    ensures { MatchOption result (join_cut_in work.now r ≡ 0) (λ c. (c ≡ join_cut_in work.now r) × (0 < c)) }
{
    match (work[FOUND + r] % PACK) as usize {
        0 => None,
        c => Some(c),
    }
}
