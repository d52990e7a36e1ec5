// What is found of a pattern in one rule or at its join, once all rules before it are counted: how many occurrences, and the cut at which the
// pattern straddles the join.
//
// An occurrence in a pair rule lies in one of its halves or straddles its join, and there at a listed cut. A rule's string stands somewhere in the
// text, so a cut costs one comparison.
#![tactic(auto)]

ghost use Rattle.std.specs.Prelude.{◌≡◌, ◌+◌, ◌*◌, ◌/◌, ◌%◌, ◌≤◌, ◌<◌, length};
ghost use Rattle.layout.specs.Layout.{PACK, Readable, count_in, join_cut_in};
ghost use Rattle.joins.specs.Patterns.{InWork};
ghost use Rattle.rule_finds.specs.Searching.{CountedBefore, OneTurn, SymbolTurn, FoundFor, tests_for};

use areas::{is_shorter, length_of, place_of};
use decoding::{Rule, left_in, right_in, rule_in};
use joins::{Placed, Tested, test_join};
use layout::{FOUND, PACK, PATTERN};

// What is found in rule r: its occurrences times PACK and the cut at its join; and how many tests are made then, with those before. A string shorter than the pattern
// has no occurrence and needs no test; one of two symbols or more is a pair's.
pub fn found_in(work: &[u32], pattern: Placed, r: usize, before: usize) -> Tested
    requires { CountedBefore pattern.size pattern.cuts r work.now × InWork pattern work.now × (before ≤ 65535) }
    ensures { (h : CountedBefore pattern.size pattern.cuts r work.now) → FoundFor h result.found × (result.tests ≡ before + length (tests_for h)) }
{
    if pattern.size < 2 {
        return untested(found_of_one(work, r), before);
    }
    if is_shorter(work, r, pattern.size) {
        return untested(0, before);
    }
    let u = left_in(work, r);
    let v = right_in(work, r);
    let left = length_of(work, u);
    let right = length_of(work, v);
    let at = place_of(work, r);
    let joined = test_join(work, pattern, at, left, right, before);
    Tested {
        found: found(work, u, v, joined.found),
        tests: joined.tests,
    }
}

// What is found where nothing is tested.
fn untested(found: u32, before: usize) -> Tested
    ensures { (result.found ≡ found) × (result.tests ≡ before) }
{
    Tested {
        found,
        tests: before,
    }
}

// What is found in rule r of a pattern of one sample: it has no cut, and so straddles no join.
fn found_of_one(work: &[u32], r: usize) -> u32
    requires { OneTurn r work.now }
    ensures { (h : OneTurn r work.now) → FoundFor h.turn result }
{
    match rule_in(work, r) {
        Rule::Symbol(_, _) => found_in_symbol(work, r),
        Rule::Pair(u, v) => found(work, u, v, 0),
    }
}

// The same of a symbol rule: its rank stands where the rule does.
fn found_in_symbol(work: &[u32], r: usize) -> u32
    requires { SymbolTurn r work.now }
    ensures { (h : SymbolTurn r work.now) → FoundFor h.one.turn result }
{
    if work[place_of(work, r)] == work[PATTERN] {
        PACK
    } else {
        0
    }
}

// The occurrences in both halves, and what is found at the join. The cuts at the joins of the halves are dropped; their sum is below PACK.
fn found(work: &[u32], u: usize, v: usize, joined: u32) -> u32
    requires { Readable work.now u × Readable work.now v × (count_in work.now u + count_in work.now v ≤ 4096) × (join_cut_in work.now u + join_cut_in work.now v < PACK) × (joined < 2 * PACK) }
    ensures { (result / PACK ≡ count_in work.now u + count_in work.now v + joined / PACK) × (result % PACK ≡ joined % PACK) }
{
    (work[FOUND + u] + work[FOUND + v]) / PACK * PACK + joined
}
