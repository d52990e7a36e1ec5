// Expanding the root of a table from anywhere, with an explicit stack of pending right halves.
//
// Each pending rule spells at least one symbol, so the walk stops at 2,048 symbols written and pending together: a table whose strings
// double at each rule costs no more than any other.
#![tactic(auto)]

ghost use Rattle.std.specs.Prelude.{◌≡◌, ◌+◌, ◌≤◌, ◌<◌, length};
ghost use Rattle.definitions.specs.Table.{rank_of_number};
ghost use Rattle.lyndon.specs.Shapes.{Shaped};
ghost use Rattle.layout.specs.Layout.{WORK};
ghost use Rattle.expansion.specs.Expansion.{Expanded, Expandable, Stepped};

use decoding::{Rule, rule_of};
use definitions::Order;
use layout::STACK;
use ranks::rank_of_number;

// Where the walk over a table stands: a rule to spell, so many symbols written, so many rules pending.
#[derive(Clone, Copy)]
pub struct Place {
    pub rule: usize,
    pub written: usize,
    pub pending: usize,
}

#[derive(Clone, Copy)]
pub enum Turn {
    Next(Place),
    Whole(usize),
}

// Expands the root to ranks at the front of the work slice, and answers how many they are; None if they are more than 2,048.
pub fn expand(order: Order, table: &[u32], work: &mut [u32]) -> Option<usize>
    requires { Shaped table.now × (length table.now ≤ 4608) × (WORK ≤ length work.old) }
    ensures { Expanded order table.now work.new result }
{
    let root = table.len() / 2 - 1;
    let mut p = Place {
        rule: root,
        written: 0,
        pending: 0,
    };
    while p.written + p.pending < 2048 {
        match expand_rule(order, table, work, p) {
            Turn::Next(q) => p = q,
            Turn::Whole(n) => return Some(n),
        }
    }
    None
}

// One rule of the walk: a symbol is written and the next pending rule taken up, of a pair the right half is left pending.
fn expand_rule(order: Order, table: &[u32], work: &mut [u32], p: Place) -> Turn
    requires { Expandable order table.now work.old p.rule p.written p.pending }
    ensures { Stepped order table.now work.new p.written p.pending result }
{
    let Place {
        written,
        pending,
        ..
    } = p;
    match rule_of(table, p.rule) {
        Rule::Symbol(number, _) => {
            work[written] = symbol_rank(order, number);
            if pending == 0 {
                return Turn::Whole(written + 1);
            }
            Turn::Next(Place {
                rule: work[STACK + pending - 1] as usize,
                written: written + 1,
                pending: pending - 1,
            })
        }
        Rule::Pair(left, right) => {
            work[STACK + pending] = right as u32;
            Turn::Next(Place {
                rule: left,
                written,
                pending: pending + 1,
            })
        }
    }
}

// The rank of a symbol rule's number: the mark's, or a sample's.
fn symbol_rank(order: Order, number: u32) -> u32
    requires { number < 257 }
    ensures { result ≡ rank_of_number order number }
{
    if number == 0 {
        0
    } else {
        rank_of_number(order, number)
    }
}
