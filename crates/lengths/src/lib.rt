// The length of each rule's string, from the first rule up, in a table that comes from anywhere. A string of more than 2,048 symbols is no rule's of
// a marked drive: so rules that double end here.
#![tactic(auto)]

ghost use Rattle.std.specs.Prelude.{◌≡◌, true, false, ◌+◌, ◌<◌, length};
ghost use Rattle.definitions.specs.declared.Order.{Order};
ghost use Rattle.definitions.specs.Table.{rule_string, rule_count, is_table};
ghost use Rattle.lengths.specs.Lengths.{InShape, Sized};

use decoding::{Rule, rule_of};
use layout::LENGTHS;

// Stores the length of each rule's string; or one is above 2,048, and the table is no drive's.
pub fn measure(table: &[u32], work: &mut [u32]) -> bool
    requires { InShape table.now work.old }
    ensures { (result ≡ true → Sized table.now (rule_count table.now) work.new) × (result ≡ false → (o : Order) → is_table o table.now ≡ false) }
{
    for r in 0..table.len() / 2 {
        let n = length_of(table, work, r);
        if 2048 < n {
            return false;
        }
        work[LENGTHS + r] = n;
    }
    true
}

// The length of one rule's string, once those before it have theirs: a symbol is 1 long, a pair as long as its halves together.
fn length_of(table: &[u32], work: &[u32], r: usize) -> u32
    requires { Sized table.now r work.now × (r < rule_count table.now) }
    ensures { (o : Order) → result ≡ length (rule_string o table.now r) }
{
    match rule_of(table, r) {
        Rule::Symbol(_, _) => 1,
        Rule::Pair(left, right) => work[LENGTHS + left] + work[LENGTHS + right],
    }
}
