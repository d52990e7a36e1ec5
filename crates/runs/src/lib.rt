// The runs of a pattern, one after the other, by which its listed cuts are found.
//
// Duval's factorization of the pattern from sample 1 on. A run is a Lyndon word, whole copies of it, and a front of it, as far as it goes: the tails from the
// run's start and from behind its word agree up to their first difference. Where they agree to the end, the run reaches it. Where the later tail's sample is
// the greater one, all of that is one longer word; where it is the smaller one, the run is broken. Then its whole copies are left, and the next run begins.
// Where a run reaches the pattern's end, the starts of its whole copies are live, and no other cut from its start up to its front is; of these the first is
// listed, and the last if no front follows it. Fewer than two pairs of samples are compared for each sample of the pattern. No scratch memory.
#![tactic(auto)]

ghost use Rattle.std.specs.Prelude.{◌≡◌, ◌&&◌, map, ◌+◌, ◌*◌, ◌/◌, ◌≤◌, ◌<◌, length, get_or, ltb};
ghost use Rattle.definitions.specs.Table.{rank_of};
ghost use Rattle.runs.specs.Runs.{Scanned};

use definitions::Order;
use ranks::rank_of;
use tails::first_difference;

// The run from `start` up to `end`; `back` and `end` are a copy apart, and `next` is behind the whole copies.
#[derive(Clone, Copy)]
pub struct Run {
    pub start: usize,
    pub back: usize,
    pub end: usize,
    pub next: usize,
}

// The run that starts at a place, as far as it goes. The first samples of the two tails are compared before the call: most often they differ, and each outcome has its own
// way on, since the compiler joins them otherwise.
pub fn scan(order: Order, pattern: &[u8], start: usize) -> Run
    requires { (start < length pattern.now) × (length pattern.now ≤ 2047) }
    ensures { (result.start ≡ start) × Scanned (map (rank_of order) pattern.now) start result.back result.end result.next }
{
    let x = &pattern[start..];
    let mut word = 1;
    while word < x.len() {
        let y = &x[word..];
        if x[0] == y[0] {
            let d = first_difference(x, y, 1);
            if !grows(order, x, y, d) {
                return run_of(start, word, d);
            }
            word += d + 1;
        } else {
            if !grows(order, x, y, 0) {
                return run_of(start, word, 0);
            }
            word += 1;
        }
    }
    run_of(start, word, 0)
}

// Whether a word grows by what stands up to the first difference d of the tail x from its start and the tail y from behind it: y has the greater sample there.
fn grows(order: Order, x: &[u8], y: &[u8], d: usize) -> bool
    requires { (d ≤ length y.now) × (length y.now ≤ length x.now) }
    ensures { result ≡ ltb d (length y.now) && ltb (rank_of order (get_or x.now d 0)) (rank_of order (get_or y.now d 0)) }
{
    d < y.len() && rank_of(order, x[d]) < rank_of(order, y[d])
}

// The run of a word of so many samples from `start` on, and `more` samples that repeat it.
fn run_of(start: usize, word: usize, more: usize) -> Run
    requires { (0 < word) × (start + word + more ≤ 2047) }
    ensures { (result.start ≡ start) × (result.back ≡ start + more) × (result.end ≡ start + word + more) × (result.next ≡ start + (1 + more / word) * word) }
{
    Run {
        start,
        back: start + more,
        end: start + word + more,
        next: start + copies(word, more) * word,
    }
}

// How many whole copies of a word stand in it and `more` samples that repeat it. Most often it is one; else 32 bits are divided faster than 64.
fn copies(word: usize, more: usize) -> usize
    requires { (0 < word) × (more ≤ 2047) }
    ensures { result ≡ 1 + more / word }
{
    if more < word {
        return 1;
    }
    1 + (more as u32 / word as u32) as usize
}
