// Rules met in their order, and a place for each, from the root down, in a table that comes from anywhere.
//
// A rule has an entry, the number of rules that are met before it, and a place at which its string stands in what the root spells. Of a pair the left half
// is entered where the rule is, the right half once the left is met. A half that was met before is passed over; another gets its entry and its place, and those
// that it meets end with itself. So each rule must come right behind its halves.
#![tactic(auto)]

ghost use Rattle.std.specs.Prelude.{◌≡◌, true, false, ◌+◌, ◌≤◌, ◌<◌, length};
ghost use Rattle.definitions.specs.Table.{rule_count};
ghost use Rattle.layout.specs.Layout.{WORK};
ghost use Rattle.lyndon.specs.Meeting.{after};
ghost use Rattle.lengths.specs.Lengths.{Sized};
ghost use Rattle.entries.specs.Entries.{entered, Entered, Placed, Unmet};

use decoding::{Rule, rule_of};
use layout::{ENTRIES, LENGTHS, PLACES};

// Enters every rule; or the root does not meet them in their order, and the table is no drive's.
pub fn enter_all(table: &[u32], work: &mut [u32]) -> bool
    requires { Sized table.now (rule_count table.now) work.old }
    ensures { (result ≡ true → Placed table.now work.new) × (result ≡ false → Unmet table.now) }
{
    enter(work, table.len() / 2 - 1, 0, 0);
    enter_below(table, work)
}

// Enters the halves of every rule once the root is entered, from the last rule down.
fn enter_below(table: &[u32], work: &mut [u32]) -> bool
    requires { Entered table.now (rule_count table.now) work.old }
    ensures { (result ≡ true → Placed table.now work.new) × (result ≡ false → Unmet table.now) }
{
    for r in (0..table.len() / 2).rev() {
        if !enter_halves(table, work, r) {
            return false;
        }
    }
    true
}

// Enters the halves of one rule, once the rules behind it are done: whether the rule comes right behind what they meet.
fn enter_halves(table: &[u32], work: &mut [u32], r: usize) -> bool
    requires { Entered table.now (r + 1) work.old × (r < rule_count table.now) }
    ensures { (result ≡ true → Entered table.now r work.new) × (result ≡ false → Unmet table.now) }
{
    let e = work[ENTRIES + r] as usize;
    match rule_of(table, r) {
        Rule::Symbol(_, _) => e == r,
        Rule::Pair(left, right) => {
            let start = work[PLACES + r];
            let behind = start + work[LENGTHS + left];
            let d = enter(work, left, e, start);
            enter(work, right, d, behind) == r
        }
    }
}

// Enters rule q at a place, where e rules are met before it: how many are met after it.
fn enter(work: &mut [u32], q: usize, e: usize, place: u32) -> usize
    requires { (q < 2304) × (e < 2305) × (WORK ≤ length work.old) }
    ensures { (result ≡ after e q) × (work.new ≡ entered work.old e q place) }
{
    if q < e {
        return e;
    }
    work[ENTRIES + q] = e as u32;
    work[PLACES + q] = place;
    q + 1
}
