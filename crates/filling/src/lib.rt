// What the root spells, written rule by rule at the rules' places, and the halves of each pair compared there, in a table that comes from anywhere.
//
// The mark's rule is written first, apart from the others: so every symbol behind it is a sample, and its rank needs no test.
//
// A symbol's rank is stored; of a pair a half that stands elsewhere is copied. Every word that is written is the one that the root spells there, so copies may
// overlap and be overwritten.
#![tactic(auto)]

ghost use Rattle.std.specs.Prelude.{◌≡◌, true, false, ◌+◌, ◌*◌, ◌≤◌, ◌<◌, length, get_or};
ghost use Rattle.definitions.specs.Table.{rule_count, is_table};
ghost use Rattle.layout.specs.Layout.{length_in, place_in};
ghost use Rattle.entries.specs.Entries.{Placed};
ghost use Rattle.filling.specs.Filling.{copied, Copyable, OneMark, Filling};

use decoding::{Rule, rule_of};
use definitions::Order;
use halves::in_order;
use layout::{LENGTHS, PLACES};
use ranks::rank_of_number;

// Writes every rule at its place, the mark's first; or the halves of one are not in order, and the table is no drive's.
pub fn fill_all(order: Order, table: &[u32], work: &mut [u32]) -> bool
    requires { Placed table.now work.old × OneMark table.now }
    ensures { (result ≡ true → Filling order table.now (rule_count table.now) work.new) × (result ≡ false → is_table order table.now ≡ false) }
{
    let start = work[PLACES] as usize;
    work[start] = 0;
    fill_samples(order, table, work)
}

// Writes the rules behind the mark's, whose symbols are samples.
fn fill_samples(order: Order, table: &[u32], work: &mut [u32]) -> bool
    requires { Filling order table.now 1 work.old × OneMark table.now }
    ensures { (result ≡ true → Filling order table.now (rule_count table.now) work.new) × (result ≡ false → is_table order table.now ≡ false) }
{
    for r in 1..table.len() / 2 {
        if !fill_rule(order, table, work, r) {
            return false;
        }
    }
    true
}

// Writes one rule, not the mark's, at its place, once those before it are written: whether its halves are in order.
fn fill_rule(order: Order, table: &[u32], work: &mut [u32], r: usize) -> bool
    requires { Filling order table.now r work.old × (r < rule_count table.now) × (get_or table.now (2 * r) 0 ≡ 0 → ⊥) }
    ensures { (result ≡ true → Filling order table.now (r + 1) work.new) × (result ≡ false → is_table order table.now ≡ false) }
{
    let start = work[PLACES + r] as usize;
    match rule_of(table, r) {
        Rule::Symbol(number, _) => {
            work[start] = rank_of_number(order, number);
            true
        }
        Rule::Pair(left, right) => {
            let behind = start + work[LENGTHS + left] as usize;
            write_rule(work, left, start);
            write_rule(work, right, behind);
            in_order(table, work, left, right, start, behind)
        }
    }
}

// Writes rule q at a place: copies it from where it stands, unless it stands there.
fn write_rule(work: &mut [u32], q: usize, to: usize)
    requires { Copyable work.old q to }
    ensures { work.new ≡ copied work.old (place_in work.old q) to (length_in work.old q) }
{
    let from = work[PLACES + q] as usize;
    if from == to {
        return;
    }
    let n = work[LENGTHS + q] as usize;
    work[to] = work[from];
    if n == 1 {
        return;
    }
    copy_within(work, from + 1, to + 1, n - 1);
}

// Copies n words, one after another.
fn copy_within(work: &mut [u32], from: usize, to: usize, n: usize)
    requires { (from + n ≤ length work.old) × (to + n ≤ length work.old) }
    ensures { work.new ≡ copied work.old from to n }
{
    for i in 0..n {
        work[to + i] = work[from + i];
    }
}
