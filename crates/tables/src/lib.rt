// Tables that come from anywhere: loading one into the work slice if it is accepted. It is judged by its own rules, in passes over them.
//
// No two rules are alike; no rule's string is too long; the root meets all rules in their order; the halves of each are in order where the rule is written; and
// the root spells the mark and then samples. So the table is the one of those samples, and of no others.
#![tactic(auto)]

ghost use Rattle.std.specs.Prelude.{◌≡◌, true, false, ◌≤◌, ◌<◌, length};
ghost use Rattle.lyndon.specs.Shapes.{Shaped};
ghost use Rattle.layout.specs.Layout.{WORK};
ghost use Rattle.twins.specs.Twins.{Distinct};
ghost use Rattle.tables.specs.Loading.{Front, Spelled, Judged};

use definitions::{Answer, Order, Refusal};
use entries::enter_all;
use filling::fill_all;
use layout::{LENGTHS, TABLE, TABLE_END};
use lengths::measure;
use slices::wide;
use twins::is_distinct;

// Loads a table: refusal 7 if it is not the table of a drive and a chair number, else the number of its rules, and the work slice holds its
// ranks, its words, and the lengths and places of its rules.
pub fn load(order: Order, table: &[u32], work: &mut [u32]) -> Answer
    requires { Shaped table.now × (length table.now ≤ 4608) × (WORK ≤ length work.old) }
    ensures { Judged order table.now work.new result }
{
    if !is_distinct(table, work) {
        return Err(Refusal::NotATable);
    }
    judge(order, table, work)
}

// Loads a table whose rules are distinct.
fn judge(order: Order, table: &[u32], work: &mut [u32]) -> Answer
    requires { Distinct table.now work.old }
    ensures { Judged order table.now work.new result }
{
    if !measure(table, work) {
        return Err(Refusal::NotATable);
    }
    if !enter_all(table, work) {
        return Err(Refusal::NotATable);
    }
    if !fill_all(order, table, work) {
        return Err(Refusal::NotATable);
    }
    keep(table, work)
}

// Loads a table that is written at the front of the work slice, if what stands there is marked.
fn keep(table: &[u32], work: &mut [u32]) -> Answer
    requires { Spelled table.now work.old }
    ensures { (k : Spelled table.now work.old) → Judged k.order table.now work.new result }
{
    let rules = table.len() / 2;
    let n = wide(work[LENGTHS + (rules - 1)]);
    if !is_marked(work, n) {
        return Err(Refusal::NotATable);
    }
    slices::copy(table, &mut work[TABLE..TABLE_END]);
    Ok(rules)
}

// Whether of the n ranks at the front the first alone is the mark. The loop goes to the end, as that of `equality::equal_many` does.
fn is_marked(work: &[u32], n: usize) -> bool
    requires { (0 < n) × (n ≤ length work.now) }
    ensures { (result ≡ true → Front work.now n) × (result ≡ false → Front work.now n → ⊥) }
{
    let mut refuted = work[0] != 0;
    for rank in &work[1..n] {
        refuted |= *rank == 0;
    }
    !refuted
}
