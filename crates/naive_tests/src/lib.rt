// The tests of a search, counted naively and apart from the library: the length of each rule's string, from the first rule up, and then every rule
// beside every cut, as the definition has it.
#![tactic(auto)]

ghost use Rattle.std.specs.Prelude.{◌≡◌, List, [], ℕ, ◌+◌, ◌*◌, ◌≤◌, ◌<◌, length, get_or};
ghost use Rattle.definitions.specs.declared.Order.{Order};
ghost use Rattle.definitions.specs.Table.{number_of, string_of, strings, rule_count};
ghost use Rattle.definitions.specs.Occurrences.{is_tested, tests_of, tests_below};
ghost use Rattle.naive_tests.specs.Lengths.{kept, Measured};

// A word of a table is kind * KIND + number: a first word of kind 0 is a symbol rule's, one of kind 1 a pair rule's.
const KIND: u32 = 1073741824;
// The greatest word: no cut is greater. A length above it stands as this.
const MOST: usize = 4294967295;

// How many tests there are: pairs of a pair rule of the table and a listed cut of a pattern of m samples at which both parts of the pattern fit its halves.
pub fn count(table: &[u32], cuts: &[u32], m: usize) -> usize
    requires { (length table.now ≤ 256) × (length cuts.now ≤ 64) × (m ≤ 2047) }
    ensures { (o : Order) → result ≡ length (tests_below o table.now m cuts.now (rule_count table.now)) }
{
    let mut lengths = [0usize; 128];
    measure(table, &mut lengths);
    (0..table.len() / 2)
        .map(|r| tests_of(table, &lengths, cuts, m, r))
        .sum()
}

// At how many of the cuts rule r is tested.
fn tests_of(table: &[u32], lengths: &[usize], cuts: &[u32], m: usize, r: usize) -> usize
    requires { Measured table.now (rule_count table.now) lengths.now × (m ≤ 2047) × (r < rule_count table.now) }
    ensures { (result ≤ length cuts.now) × ((o : Order) → result ≡ length (tests_of o table.now m cuts.now r)) }
{
    cuts.iter()
        .filter(|c| is_tested(table, lengths, m, r, **c))
        .count()
}

// Whether rule r is tested at cut c: it is a pair rule, and both parts of the pattern fit its halves.
fn is_tested(table: &[u32], lengths: &[usize], m: usize, r: usize, c: u32) -> bool
    requires { Measured table.now (rule_count table.now) lengths.now × (m ≤ 2047) × (r < rule_count table.now) }
    ensures { (o : Order) → result ≡ is_tested o table.now m r c }
{
    let rules = table.len() / 2;
    let x = table[2 * r];
    let y = table[2 * r + 1];
    if x / KIND != 1 {
        return false;
    }
    let cut = c as usize;
    cut <= length_at(lengths, rules, x) && m <= cut + length_at(lengths, rules, y)
}

// Stores the length of each rule's string, from the first rule up.
fn measure(table: &[u32], lengths: &mut [usize])
    requires { rule_count table.now ≤ length lengths.old }
    ensures { Measured table.now (rule_count table.now) lengths.new }
{
    for r in 0..table.len() / 2 {
        lengths[r] = length_of(table, lengths, r);
    }
}

// The length of the string of rule r, once those before it have theirs: a symbol is 1 long, and any other rule as long as its two words' rules together.
fn length_of(table: &[u32], lengths: &[usize], r: usize) -> usize
    requires { Measured table.now r lengths.now × (r < rule_count table.now) }
    ensures { (o : Order) → result ≡ kept (length (string_of o (strings o table.now r) (get_or table.now (2 * r) 0) (get_or table.now (2 * r + 1) 0))) }
{
    let x = table[2 * r];
    let y = table[2 * r + 1];
    if x / KIND == 0 {
        return 1;
    }
    (length_at(lengths, r, x) + length_at(lengths, r, y)).min(MOST)
}

// The length of the string of the rule whose number word x has, where it is one of the first n; else 0.
fn length_at(lengths: &[usize], n: usize, x: u32) -> usize
    requires { n ≤ length lengths.now }
    ensures { (t : List ℕ) → Measured t n lengths.now → (o : Order) → result ≡ kept (length (get_or (strings o t n) (number_of x) [])) }
{
    let q = (x % KIND) as usize;
    if q < n { lengths[q] } else { 0 }
}
