// The cuts of a pattern that are listed, naively and apart from the library: every cut is tried as the definition has it, its tail beside the tail of
// every cut, and each stretch before it.
#![tactic(auto)]

ghost use Rattle.std.specs.Prelude.{◌≡◌, map, ◌≤◌, length};
ghost use Rattle.definitions.specs.Words.{placed, begins};
ghost use Rattle.definitions.specs.Occurrences.{not_greater_at_difference, is_live, word_again, is_listed, pattern_cuts};
ghost use Rattle.definitions.specs.Table.{rank_of};
ghost use Rattle.definitions.specs.Services.{sample_order};

use naive_words::{is_lyndon, is_smaller};

// Writes the cuts of the pattern that are listed to the front of a slice, and answers how many there are.
pub fn list(pattern: &[u8], cuts: &mut [u32]) -> usize
    requires { (length pattern.now ≤ 2047) × (length pattern.now ≤ length cuts.old) }
    ensures value { result ≡ length (pattern_cuts sample_order pattern.now) }
    ensures cuts_after { cuts.new ≡ placed (pattern_cuts sample_order pattern.now) cuts.old }
{
    let mut n = 0;
    for c in 0..pattern.len() {
        if is_listed(pattern, c) {
            cuts[n] = c as u32;
            n += 1;
        }
    }
    n
}

// Whether cut c is listed: it is live, and of no stretch to it, from cut 1 on, does `word_again` hold.
fn is_listed(pattern: &[u8], c: usize) -> bool
    requires { c ≤ length pattern.now }
    ensures { result ≡ is_listed (map (rank_of sample_order) pattern.now) c }
{
    is_live(pattern, c) && (1..c).all(|d| !word_again(pattern, d, c))
}

// Whether cut c is live: its tail is not greater at a difference beside the tail of any cut, from 1 on.
fn is_live(pattern: &[u8], c: usize) -> bool
    requires { c ≤ length pattern.now }
    ensures { result ≡ is_live (map (rank_of sample_order) pattern.now) c }
{
    0 < c && (1..pattern.len()).all(|d| not_greater(&pattern[c..], &pattern[d..]))
}

// Whether the tails x and y agree as far as the shorter one goes, or x is smaller.
fn not_greater(x: &[u8], y: &[u8]) -> bool
    ensures { result ≡ not_greater_at_difference (map (rank_of sample_order) x.now) (map (rank_of sample_order) y.now) }
{
    is_prefix(x, y) || is_prefix(y, x) || is_smaller(x, y)
}

// Whether the stretch from d to c is a Lyndon word, the tail from c on begins with it, and the tail is longer.
fn word_again(pattern: &[u8], d: usize, c: usize) -> bool
    requires { (d ≤ c) × (c ≤ length pattern.now) }
    ensures { result ≡ word_again (map (rank_of sample_order) pattern.now) d c }
{
    let word = &pattern[d..c];
    let tail = &pattern[c..];
    is_lyndon(word) && is_prefix(word, tail) && word.len() < tail.len()
}

// Whether x is a prefix of y.
fn is_prefix(x: &[u8], y: &[u8]) -> bool
    ensures { result ≡ begins (map (rank_of sample_order) x.now) (map (rank_of sample_order) y.now) }
{
    y.starts_with(x)
}
