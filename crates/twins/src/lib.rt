// Whether no two rules of a table that comes from anywhere are alike, from the first rule up. Each rule is looked up by its two words among those before it, in a
// dictionary at the front of the work slice, and then linked there. A pair of which the rule before it is a half is surely new.
//
// Rule 0 must be the mark, and no other rule may be: so the words of two rules are the same exactly when the rules are.
#![tactic(auto)]

ghost use Rattle.std.specs.Prelude.{◌≡◌, true, false, ◌<◌};
ghost use Rattle.definitions.specs.declared.Order.{Order};
ghost use Rattle.definitions.specs.Table.{rule_count, is_table};
ghost use Rattle.lyndon.specs.Twins.{is_new};
ghost use Rattle.lengths.specs.Lengths.{InShape};
ghost use Rattle.twins.specs.Twins.{Distinct, Linked};

use dict::{find, link};
use layout::{LEFT_HALF, RIGHT_HALF};

// Whether the rules are distinct; if not, the table is no drive's.
pub fn is_distinct(table: &[u32], work: &mut [u32]) -> bool
    requires { InShape table.now work.old }
    ensures { (result ≡ true → Distinct table.now work.new) × (result ≡ false → (o : Order) → is_table o table.now ≡ false) }
{
    if table[0] != 0 {
        return false;
    }
    slices::clear(&mut work[0..1024]);
    link_all(table, work)
}

// Looks every rule up among those before it, and links it.
fn link_all(table: &[u32], work: &mut [u32]) -> bool
    requires { Linked table.now 0 work.old }
    ensures { (result ≡ true → Distinct table.now work.new) × (result ≡ false → (o : Order) → is_table o table.now ≡ false) }
{
    for r in 0..table.len() / 2 {
        if !is_new(table, work, r) {
            return false;
        }
        link(work, 0, r, table[2 * r], table[2 * r + 1]);
    }
    true
}

// Whether rule r is new once those before it are linked.
fn is_new(table: &[u32], work: &[u32], r: usize) -> bool
    requires { Linked table.now r work.now × (r < rule_count table.now) }
    ensures { (result ≡ true → is_new table.now r ≡ true) × (result ≡ false → (o : Order) → is_table o table.now ≡ false) }
{
    let x = table[2 * r];
    let y = table[2 * r + 1];
    if x as usize + 1 == LEFT_HALF as usize + r || y as usize + 1 == RIGHT_HALF as usize + r {
        return true;
    }
    if x == 0 {
        return r == 0;
    }
    find(table, work, x, y).is_none()
}
