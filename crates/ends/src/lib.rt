// The marked text as ranks, the lengths of its longest Lyndon words, and the joins that close behind each symbol, in the areas of
// the work slice.
//
// From right to left, the word at a place is joined with the words behind it while it is smaller than the next; one length a place
// stands for the stack of words. Comparing costs about n * n / 8 symbol steps on the worst text known, (a^k b)^2.
#![tactic(auto)]

ghost use Rattle.std.specs.Prelude.{◌≡◌, suc, ◌+◌, ◌≤◌, ◌<◌, length, get_or, drop};
ghost use Rattle.definitions.specs.Words.{placed};
ghost use Rattle.definitions.specs.Table.{marked};
ghost use Rattle.lists.specs.Parts.{part};
ghost use Rattle.lyndon.specs.Forest.{longest};
ghost use Rattle.layout.specs.Layout.{CLOSINGS, WORK};
ghost use Rattle.ends.specs.Areas.{Ended, Merged};

use compare::before;
use definitions::Order;
use layout::{CLOSINGS, LONGEST};

// Places the marked text at the front of the work slice.
pub fn place_text(order: Order, text: &[u8], work: &mut [u32])
    requires { length text.now < length work.old }
    ensures { work.new ≡ placed (marked order text.now) work.old }
{
    let n = text.len() + 1;
    ranks::write(order, text, &mut work[1..n]);
    work[0] = 0;
}

// The lengths of the longest Lyndon words of the n ranks at the front, and the closings.
pub fn ends(work: &mut [u32], n: usize)
    requires { (n ≤ 2048) × (WORK ≤ length work.old) }
    ensures { Ended (part 0 n work.old) 0 work.new }
{
    for i in (0..n).rev() {
        end_at(work, n, i);
    }
}

// The same at one place, once it is done behind it.
fn end_at(work: &mut [u32], n: usize, i: usize)
    requires { (n ≤ 2048) × (WORK ≤ length work.old) × (i < n) × Ended (part 0 n work.old) (suc i) work.old }
    ensures { Ended (part 0 n work.old) i work.new }
{
    work[CLOSINGS + i] = 0;
    let j = merge(work, n, i);
    work[LONGEST + i] = (j - i) as u32;
}

// Joins the word at i with the words behind it while it is smaller than the next. Answers where it ends.
fn merge(work: &mut [u32], n: usize, i: usize) -> usize
    requires { (n ≤ 2048) × (WORK ≤ length work.old) × (i < n) × Ended (part 0 n work.old) (suc i) work.old × (get_or work.old (CLOSINGS + i) 0 ≡ 0) }
    ensures { (result ≡ i + longest (drop i (part 0 n work.old))) × (result ≤ n) × Merged (part 0 n work.old) i work.new }
{
    let mut j = i + 1;
    while j < n {
        let k = work[LONGEST + j] as usize;
        if !before(&work[..n], i, j, k) {
            return j;
        }
        work[CLOSINGS + j + k - 1] += 1;
        j += k;
    }
    j
}
