// The listed cuts of a pattern, written to a list of k + 1 words, where k is the largest whole number for which 2 to the power k is at most the pattern's length.
#![tactic(auto)]

ghost use Rattle.std.specs.Prelude.{◌≡◌, cond, ◌&&◌, [], ◌∷◌, ◌+◌, ◌≤◌, ◌<◌, length, ltb, eqb};
ghost use Rattle.definitions.specs.Words.{placed};
ghost use Rattle.definitions.specs.Occurrences.{pattern_cuts};
ghost use Rattle.lyndon.specs.Listed.{Largest};
ghost use Rattle.runs.specs.Runs.{run_cuts};
ghost use Rattle.cuts.specs.Appending.{Appended};

use definitions::Order;
use runs::{Run, scan};
use slices::put;

// The largest whole k for which 2 to the power k is at most m.
pub fn floor_log2(m: usize) -> usize
    requires { (0 < m) × (m ≤ 2047) }
    ensures { Largest m result }
{
    (31 - (m as u32).leading_zeros()) as usize
}

// Writes the listed cuts at the front of a slice. Answers how many there are.
pub fn list(order: Order, pattern: &[u8], cuts: &mut [u32]) -> usize
    requires { (length (pattern_cuts order pattern.now) ≤ length cuts.old) × (length pattern.now ≤ 2047) }
    ensures { (result ≡ length (pattern_cuts order pattern.now)) × (cuts.new ≡ placed (pattern_cuts order pattern.now) cuts.old) }
{
    let m = pattern.len();
    let mut start = 1;
    let mut n = 0;
    while start < m {
        let run = scan(order, pattern, start);
        n = append_run(cuts, n, run, m);
        start = run.next;
    }
    n
}

// Writes the listed cuts of a run of a pattern of m samples behind the n that stand at the front. Answers how many stand there then.
fn append_run(cuts: &mut [u32], n: usize, run: Run, m: usize) -> usize
    requires { (n + length (run_cuts run.start run.back run.end run.next m) ≤ length cuts.old) × (run.start < 2047) × (run.back < 2047) }
    ensures { Appended (run_cuts run.start run.back run.end run.next m) n result cuts.old cuts.new }
{
    if run.end < m {
        return n;
    }
    put(cuts, n, run.start as u32);
    if !is_last_listed(run, m) {
        return n + 1;
    }
    put(cuts, n + 1, run.back as u32);
    n + 2
}

// Whether the start of the last copy of a run that reaches the end of m samples is listed too: it is not the first copy, and nothing follows it.
fn is_last_listed(run: Run, m: usize) -> bool
    ensures { result ≡ ltb run.start run.back && eqb run.next m }
{
    run.start < run.back && run.next == m
}
