// The occurrences of a pattern in the text that is loaded, counted by the rules of its table, from the first rule up; and the tests, at most n + 2 - m
// for m samples among n. Equal samples cost most.
#![tactic(auto)]

ghost use Rattle.std.specs.Prelude.{◌≡◌, List, ℕ, ◌+◌, ◌≤◌, ◌<◌, length, drop};
ghost use Rattle.definitions.specs.declared.Order.{Order};
ghost use Rattle.definitions.specs.Table.{table_of, rule_count};
ghost use Rattle.definitions.specs.Occurrences.{occurrences, tests};
ghost use Rattle.joins.specs.Patterns.{InWork};
ghost use Rattle.state.specs.State.{Held};
ghost use Rattle.rule_finds.specs.Searching.{Counting, Searched, Counts};

use areas::{is_shorter, length_of, number_of};
use definitions::Order;
use equality::equal_many;
use joins::Placed;
use layout::{FOUND, PATTERN};
use placing::place_pattern;
use rule_finds::found_in;
use slices::{clear, put};

// How often a pattern occurs, and how many tests the search made.
#[derive(Clone, Copy)]
pub struct Totals {
    pub occurrences: usize,
    pub tests: usize,
}

// Counts the occurrences of a pattern in the text that is loaded, whose table has so many rules, and the tests; of the occurrences those from place `from` of the text on.
// Where the root's string is shorter than the pattern, no rule has any.
pub fn count(order: Order, pattern: &[u8], from: usize, work: &mut [u32], rules: usize) -> Totals
    requires { Held order rules work.old × (0 < length pattern.now) × (length pattern.now ≤ 2047) × (from ≤ 1) }
    ensures { (h : Held order rules work.old) → (result.occurrences ≡ length (occurrences pattern.now (drop from h.text))) × (result.tests ≡ length (tests order (table_of order h.text h.chair) pattern.now)) × Searched order pattern.now h.text h.chair work.new }
{
    if is_shorter(work, rules - 1, pattern.len()) {
        clear(&mut work[FOUND..FOUND + rules]);
        return Totals {
            occurrences: 0,
            tests: 0,
        };
    }
    let placed = place_pattern(order, pattern, work);
    let before = passed_over(work, placed.size, from, rules);
    let tests = count_rules(work, placed, rules);
    let all = number_of(work, rules - 1);
    Totals {
        occurrences: all - before,
        tests,
    }
}

// How many occurrences of the pattern, m samples, begin before place `from` of the text: none, or the one at its start.
fn passed_over(work: &[u32], m: usize, from: usize, rules: usize) -> usize
    requires { (n : ℕ) × Counts m n rules 0 work.now × (from ≤ 1) }
    ensures { (o : Order) (p text : List ℕ) (chair n : ℕ) → Counting o p text chair m n 0 work.now → rules ≡ rule_count (table_of o text chair) → result + length (occurrences p (drop from text)) ≡ length (occurrences p text) }
{
    if from != 0
        && m < length_of(work, rules - 1)
        && work[1] == work[PATTERN]
        && equal_many(&work[1..m + 1], &work[PATTERN..PATTERN + m])
    {
        return 1;
    }
    0
}

// Counts the occurrences of a pattern that is placed, in every rule, from the first up. Answers how many tests that takes.
fn count_rules(work: &mut [u32], pattern: Placed, rules: usize) -> usize
    requires { Counts pattern.size pattern.cuts rules 0 work.old × InWork pattern work.old }
    ensures { (o : Order) (p text : List ℕ) (chair : ℕ) → Counting o p text chair pattern.size pattern.cuts 0 work.old → rules ≡ rule_count (table_of o text chair) → Counting o p text chair pattern.size pattern.cuts rules work.new × (result ≡ length (tests o (table_of o text chair) p)) }
{
    let mut tests = 0;
    for r in 0..rules {
        let tested = found_in(work, pattern, r, tests);
        put(work, FOUND + r, tested.found);
        tests = tested.tests;
    }
    tests
}
