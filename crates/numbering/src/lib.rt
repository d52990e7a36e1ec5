// The rules of a text's Lyndon grammar, numbered in the work slice: the mark's rule is pushed, then sample after sample its rule, and the two rules
// on top are joined as often as joins close behind it.
#![tactic(auto)]

ghost use Rattle.std.specs.Prelude.{◌≡◌, ℕ, ◌+◌, ◌<◌, length, get_or};
ghost use Rattle.layout.specs.Layout.{LINKS};
ghost use Rattle.stack.specs.Areas.{Rules, Holds, Below};
ghost use Rattle.numbering.specs.Numbering.{Steppable, Numberable, Begun, stepped, numbered};

use definitions::Order;
use layout::{BESIDE_SYMBOL, CLOSINGS, LINKS, LINKS_OF_RULES};
use ranks::number_of_rank;
use stack::{Counts, join_all, push_rule};

// The rules of the text, once the ends of its Lyndon words are known: in the table area, with no chair number.
pub fn rules(order: Order, n: usize, work: &mut [u32]) -> usize
    requires { Numberable n work.old }
    ensures { Rules order (numbered n work.old) work.new × (result ≡ length (numbered n work.old)) × Below work.old work.new }
{
    slices::clear(&mut work[LINKS..LINKS_OF_RULES]);
    number(order, n, work)
}

// The same, once the buckets are empty: no join closes behind the mark.
fn number(order: Order, n: usize, work: &mut [u32]) -> usize
    requires { Numberable n work.old × ((b : ℕ) → b < 1024 → get_or work.old (LINKS + b) 0 ≡ 0) }
    ensures { Rules order (numbered n work.old) work.new × (result ≡ length (numbered n work.old)) × Below work.old work.new }
{
    let none = Counts { rules: 0, depth: 0 };
    let c = push_rule(work, none, 0, BESIDE_SYMBOL);
    number_samples(order, n, c, work)
}

// The same, once the mark's rule is pushed.
fn number_samples(order: Order, n: usize, c: Counts, work: &mut [u32]) -> usize
    requires { Begun order n work.old c.rules c.depth }
    ensures { ((b : Begun order n work.old c.rules c.depth) → Rules order (numbered n b.origin) work.new × (result ≡ length (numbered n b.origin))) × Below work.old work.new }
{
    let mut t = c;
    for i in 1..n {
        t = step(work, order, t, i);
    }
    t.rules
}

// Pushes the rule of sample i and does the joins that close behind it.
fn step(work: &mut [u32], order: Order, c: Counts, i: usize) -> Counts
    requires { Steppable order work.old c.rules c.depth i × (0 < get_or work.old i 0) }
    ensures { ((p : Steppable order work.old c.rules c.depth i) → Holds order (stepped p.s work.old i) work.new result.rules result.depth) × Below work.old work.new }
{
    let x = number_of_rank(order, work[i]);
    let k = work[CLOSINGS + i];
    let t = push_rule(work, c, x, BESIDE_SYMBOL);
    join_all(work, t, k)
}
