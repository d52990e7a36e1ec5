// Whether the halves of a rule are in order, where the rule is written, in a table that comes from anywhere.
//
// The left half must be smaller than the right, and where it is a pair itself, its right half not smaller than the rule's: the two halves of every rule are then
// its standard factorization.
#![tactic(auto)]

ghost use Rattle.std.specs.Prelude.{◌≡◌, ◌+◌, ◌-◌, ◌≤◌, ◌<◌, length};
ghost use Rattle.definitions.specs.Words.{lexlt};
ghost use Rattle.lists.specs.Parts.{part};
ghost use Rattle.layout.specs.Layout.{WORK};
ghost use Rattle.lyndon.specs.Standard.{ordered};
ghost use Rattle.halves.specs.Halves.{front, Written};

use compare::rest_before;
use decoding::{Rule, rule_of};
use layout::LENGTHS;

// Whether the halves of a rule that is written are in order: `start` is where it stands, `behind` where its right half does.
pub fn in_order(
    table: &[u32],
    work: &[u32],
    left: usize,
    right: usize,
    start: usize,
    behind: usize,
) -> bool
    requires { Written table.now work.now left right start behind }
    ensures { (k : Written table.now work.now left right start behind) → result ≡ ordered k.order table.now k.rule }
{
    let n = work[LENGTHS + right] as usize;
    if !is_smaller(work, start, behind, n) {
        return false;
    }
    match rule_of(table, left) {
        Rule::Symbol(_, _) => true,
        Rule::Pair(first, second) => {
            let middle = start + work[LENGTHS + first] as usize;
            second == right || !is_smaller(work, middle, behind, n)
        }
    }
}

// Whether the ranks from i up to j are smaller than the n from j on. The first most often decide, and then nothing is called.
#[inline(always)]
fn is_smaller(work: &[u32], i: usize, j: usize, n: usize) -> bool
    requires { (i < j) × (0 < n) × (j + n ≤ 2048) × (WORK ≤ length work.now) }
    ensures { result ≡ lexlt (part i (j - i) (front work.now)) (part j n (front work.now)) }
{
    let a = work[i];
    let b = work[j];
    if a != b {
        return a < b;
    }
    rest_before(&work[0..LENGTHS], i, j, n)
}
