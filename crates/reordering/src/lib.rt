// The table that a text loaded in another order has in the order that the services speak of, written to the front of the result slice, or refused by 9: the ranks
// are turned into those of that order where they stand, and the table is made from them.
#![tactic(auto)]

ghost use Rattle.std.specs.Prelude.{◌≡◌, [], ◌∷◌, map, length};
ghost use Rattle.definitions.specs.Grammar.{order as order_of};
ghost use Rattle.definitions.specs.Table.{rank_of, byte_of, marked, table_of};
ghost use Rattle.definitions.specs.Services.{Serves, Answers, sample_order, writes};
ghost use Rattle.grammar.specs.Built.{Built};
ghost use Rattle.state.specs.State.{Held};
ghost use Rattle.spelling.specs.Spelling.{Ranks};

use definitions::{Answer, Order};
use delivery::deliver_table;
use grammar::build_table;
use ranks::{SAMPLE_ORDER, byte_of, rank_of};
use state::{chair_number, text_length};

// Writes the table of what is loaded in the order `from`, whose table there has so many rules; or refuses by 9.
pub fn reorder_loaded(from: Order, rules: usize, work: &mut [u32], res: &mut [u32]) -> Answer
    requires { Held from rules work.old }
    ensures { (h : Held from rules work.old) → Serves (writes [] (table_of sample_order h.text h.chair) 0 res.old) (Answers result) (res.new ∷ []) }
{
    let n = rebuild(from, rules, work);
    deliver_table(n, work, res)
}

// Builds that table in the table area. Answers its number of rules.
fn rebuild(from: Order, rules: usize, work: &mut [u32]) -> usize
    requires { Held from rules work.old }
    ensures { (h : Held from rules work.old) → Built sample_order h.text h.chair work.new × (result ≡ length (order_of (marked sample_order h.text))) }
{
    let chair = chair_number(rules, work);
    let n = text_length(rules, work) + 1;
    reorder(from, &mut work[1..n]);
    build_table(n, chair, work)
}

// Turns ranks of samples in the order `from` into ranks in the order that the services speak of.
fn reorder(from: Order, ranks: &mut [u32])
    requires { Ranks ranks.old }
    ensures { ranks.new ≡ map (rank_of sample_order) (map (byte_of from) ranks.old) }
{
    for rank in ranks.iter_mut() {
        *rank = rank_of(SAMPLE_ORDER, byte_of(from, *rank));
    }
}
