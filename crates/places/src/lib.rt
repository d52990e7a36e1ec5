// Where the string of each rule stands in the text of a table that is made in the work slice, and how long it is: so what is built is loaded without being
// judged.
//
// The lengths go from the first rule up; the places from the root down: a rule's left half stands where the rule does, its right half behind it.
// Each pass reads a rule once. A rule that is a half of several rules keeps the place that was stored last: any of them is right.
#![tactic(auto)]

ghost use Rattle.std.specs.Prelude.{◌≡◌, ◌+◌, ◌<◌, length};
ghost use Rattle.definitions.specs.Table.{rule_string};
ghost use Rattle.layout.specs.Layout.{PLACES};
ghost use Rattle.state.specs.State.{Loaded};
ghost use Rattle.places.specs.Passes.{Contents, table_in, rules_in, Made, Sizing, Placing};

use decoding::{Rule, rule_in};
use layout::{LENGTHS, PLACES};
use slices::put;

// Stores for each rule of the table that is made the length of its string and a place of the marked text at which it stands.
pub fn place_rules(work: &mut [u32], rules: usize)
    requires { (g : Contents) × (rules ≡ rules_in g) × Made g work.old }
    ensures { (g : Contents) → rules ≡ rules_in g → Made g work.old → Loaded g.order g.text g.chair work.new }
{
    size_all(work, rules);
    put(work, PLACES + (rules - 1), 0);
    place_all(work, rules);
}

// The lengths of all rules' strings, from the first rule up.
fn size_all(work: &mut [u32], rules: usize)
    requires { (g : Contents) × (rules ≡ rules_in g) × Sizing g 0 work.old }
    ensures { (g : Contents) → rules ≡ rules_in g → Sizing g 0 work.old → Sizing g rules work.new }
{
    for r in 0..rules {
        let n = length_of(work, r);
        put(work, LENGTHS + r, n);
    }
}

// The length of one rule's string, once those before it have theirs: a symbol is 1 long, a pair as long as its halves together.
fn length_of(work: &[u32], r: usize) -> u32
    requires { (g : Contents) × (r < rules_in g) × Sizing g r work.now }
    ensures { (g : Contents) → r < rules_in g → Sizing g r work.now → result ≡ length (rule_string g.order (table_in g) r) }
{
    match rule_in(work, r) {
        Rule::Symbol(_, _) => 1,
        Rule::Pair(left, right) => work[LENGTHS + left] + work[LENGTHS + right],
    }
}

// The places of all rules once the root has one, from the last rule down.
fn place_all(work: &mut [u32], rules: usize)
    requires { (g : Contents) × (rules ≡ rules_in g) × Placing g rules work.old }
    ensures { (g : Contents) → rules ≡ rules_in g → Placing g rules work.old → Placing g 0 work.new }
{
    for r in (0..rules).rev() {
        place_halves(work, r);
    }
}

// The places of the halves of one rule, once the rules behind it are done: the left half stands where the rule does, the right half behind the left.
fn place_halves(work: &mut [u32], r: usize)
    requires { (g : Contents) × (r < rules_in g) × Placing g (r + 1) work.old }
    ensures { (g : Contents) → r < rules_in g → Placing g (r + 1) work.old → Placing g r work.new }
{
    let Rule::Pair(left, right) = rule_in(work, r) else {
        return;
    };
    let start = work[PLACES + r];
    let behind = start + work[LENGTHS + left];
    put(work, PLACES + left, start);
    put(work, PLACES + right, behind);
}
