// Testing a join: whether a pattern straddles two strings that stand one behind the other, a standard factorization, and at which of its listed cuts.
#![tactic(auto)]

ghost use Rattle.std.specs.Prelude.{◌≡◌, cond, ◌+◌, ◌-◌, ◌≤◌, ◌<◌, length};
ghost use Rattle.definitions.specs.Words.{same};
ghost use Rattle.lists.specs.Parts.{part};
ghost use Rattle.lyndon.specs.Tests.{fitting};
ghost use Rattle.layout.specs.Layout.{PATTERN, CUTS, PACK, WORK};
ghost use Rattle.joins.specs.Joining.{Tried, Fitting, longest_tail, FitsFrom, Packed};
ghost use Rattle.joins.specs.Patterns.{InWork};

use equality::equal;
use layout::{CUTS, PACK, PATTERN};
use slices::wide;

// A pattern that is placed in the work slice: how many samples it has, how many listed cuts, and how long the tail behind the first of them is.
#[derive(Clone, Copy)]
pub struct Placed {
    pub size: usize,
    pub cuts: usize,
    pub longest: usize,
}

// The longest tail of the listed cuts of a pattern, 0 if it has none. The cuts rise, so it is that of the first.
pub fn longest_tail(work: &[u32], size: usize, cuts: usize) -> usize
    requires { Tried size cuts work.now × (WORK ≤ length work.now) }
    ensures { result ≡ longest_tail size cuts work.now }
{
    if cuts == 0 {
        return 0;
    }
    size - wide(work[CUTS])
}

// What is found at a join, as it stands in FOUND, and how many tests are made up to there.
#[derive(Clone, Copy)]
pub struct Tested {
    pub found: u32,
    pub tests: usize,
}

// Tests the join of two such strings, behind so many tests at other joins: the pattern is compared at each of its listed cuts where both parts of it
// fit. These stand together in the list, since the cuts rise. At most one occurrence straddles; the cuts behind it are tested all the same, since tests are reported.
pub fn test_join(
    work: &[u32],
    pattern: Placed,
    at: usize,
    left: usize,
    right: usize,
    before: usize,
) -> Tested
    requires { InWork pattern work.now × (at + left + right ≤ 2048) × (WORK ≤ length work.now) × (before ≤ 65535) }
    ensures { Packed (part PATTERN pattern.size work.now) (part at left work.now) (part (at + left) right work.now) result.found × (result.tests ≡ before + fitting pattern.size left right (part CUTS pattern.cuts work.now)) }
{
    let join = at + left;
    let mut i = first_fitting(work, pattern, right);
    let mut tested = Tested {
        found: 0,
        tests: before,
    };
    while wide(work[CUTS + i]) <= left {
        tested = test_cut(work, pattern.size, work[CUTS + i], join, tested);
        i += 1;
    }
    tested
}

// Tests one cut more at a join, where both parts of the pattern fit: the pattern, m samples, is compared there, and the test is counted. What is found is PACK and the cut, if the
// pattern straddles the join there, else what it was.
fn test_cut(work: &[u32], m: usize, c: u32, join: usize, before: Tested) -> Tested
    requires { Fitting m c join × (WORK ≤ length work.now) × (before.tests ≤ 65546) }
    ensures { (result.found ≡ cond (same (part (join - c) m work.now) (part PATTERN m work.now)) (PACK + c) before.found) × (result.tests ≡ before.tests + 1) }
{
    let found = if straddles(work, m, wide(c), join) {
        PACK + c
    } else {
        before.found
    };
    Tested {
        found,
        tests: before.tests + 1,
    }
}

// Whether the pattern, m samples, straddles a join at cut c, where both parts fit. The sample before the cut is compared first: behind an occurrence it most often
// shows that there is no other.
fn straddles(work: &[u32], m: usize, c: usize, join: usize) -> bool
    requires { Fitting m c join × (WORK ≤ length work.now) }
    ensures { result ≡ same (part (join - c) m work.now) (part PATTERN m work.now) }
{
    let at = join - c;
    work[join - 1] == work[PATTERN + c - 1] && equal(&work[at..at + m], &work[PATTERN..PATTERN + m])
}

// The index of the first listed cut whose tail has at most `right` samples; from there on all have. Where not all fit, it is sought from the end: each tail is
// at most half as long as the one before, so few fit a short right half.
fn first_fitting(work: &[u32], pattern: Placed, right: usize) -> usize
    requires { InWork pattern work.now × (WORK ≤ length work.now) }
    ensures { FitsFrom result pattern.size pattern.cuts right work.now }
{
    if pattern.longest <= right {
        return 0;
    }
    let low = (pattern.size - right) as u32;
    let mut i = pattern.cuts;
    while low <= work[CUTS + i - 1] {
        i -= 1;
    }
    i
}
