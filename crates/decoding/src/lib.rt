// Reading a rule from the words of a table. Nothing else takes a rule out of them; `bad_words` judges the words alone, and `twins` looks rules up by them.
//
// A rule is two words, each a kind and a number: a symbol's number and what stands beside the symbol, or the left and the right half of a pair.
#![tactic(auto)]

ghost use Rattle.std.specs.Prelude.{◌≡◌, ◌+◌, ◌*◌, ◌<◌, length};
ghost use Rattle.definitions.specs.Table.{chair_of};
ghost use Rattle.lyndon.specs.Shapes.{Shaped};
ghost use Rattle.layout.specs.Layout.{Readable};
ghost use Rattle.decoding.specs.Decoding.{rule_at, rule_in, left_in, right_in};

use layout::{KIND, TABLE, TABLE_END};

// A symbol's number and what stands beside it; or the left and the right half of a pair.
#[derive(Clone, Copy)]
pub enum Rule {
    Symbol(u32, u32),
    Pair(usize, usize),
}

// Rule r of a table.
pub fn rule_of(words: &[u32], r: usize) -> Rule
    requires { 2 * r + 1 < length words.now }
    ensures { result ≡ rule_at words.now r }
{
    let x = words[2 * r];
    let y = words[2 * r + 1];
    if x < KIND {
        return Rule::Symbol(x, y % KIND);
    }
    Rule::Pair((x % KIND) as usize, (y % KIND) as usize)
}

// Rule r of the table that is loaded in the work slice.
pub fn rule_in(work: &[u32], r: usize) -> Rule
    requires { Readable work.now r }
    ensures { result ≡ rule_in work.now r }
{
    rule_of(&work[TABLE..TABLE_END], r)
}

// The left half of rule r, where it is a pair.
pub fn left_in(work: &[u32], r: usize) -> usize
    requires { Readable work.now r }
    ensures { result ≡ left_in work.now r }
{
    (work[TABLE + 2 * r] % KIND) as usize
}

// The right half of rule r, where it is a pair.
pub fn right_in(work: &[u32], r: usize) -> usize
    requires { Readable work.now r }
    ensures { result ≡ right_in work.now r }
{
    (work[TABLE + 2 * r + 1] % KIND) as usize
}

// The chair number of a table: it stands beside the symbol of rule 0.
pub fn chair_of(table: &[u32]) -> u16
    requires { Shaped table.now }
    ensures { result ≡ chair_of table.now }
{
    match rule_of(table, 0) {
        Rule::Symbol(_, beside) => beside as u16,
        Rule::Pair(_, _) => 0,
    }
}
