// The occurrences of a pattern that are counted, listed by the rules of the table from the root down: in a pair rule those of its left
// half, the one at its join, those of its right half. A loop goes down the right halves; a left half is a call where it is a pair with
// occurrences.
#![tactic(auto)]

ghost use Rattle.std.specs.Prelude.{◌≡◌, [], ◌∷◌, ◌+◌, ◌≤◌, length, drop, unwrap_or};
ghost use Rattle.definitions.specs.Words.{placed};
ghost use Rattle.definitions.specs.Occurrences.{occurrences};
ghost use Rattle.listing.specs.Listing.{Finds, in_drive, cut_places, placed_from, Listable, Listed, rules_counted};

use areas::{cut_of, length_of, number_of};
use decoding::{Rule, rule_in};

// Writes the positions at which the pattern begins in the drive, rising, at the front of a slice: from place `from` of the text on, and counted from there. Answers how many
// there are.
pub fn list(work: &[u32], rules: usize, from: usize, res: &mut [u32]) -> usize
    requires { (h : Finds work.now) × (rules ≡ rules_counted h) × (from ≤ 1) × (length (occurrences h.pattern (drop from h.text)) ≤ length res.old) }
    ensures { (h : Finds work.now) → rules ≡ rules_counted h → (result ≡ length (occurrences h.pattern (drop from h.text))) × (res.new ≡ placed (occurrences h.pattern (drop from h.text)) res.old) }
{
    list_rule(work, rules - 1, 0, from + 1, res, 0)
}

// The same for the occurrences in rule r, whose string stands at `at` in the marked text, behind the entries that are written: those of its left half and the
// one at its join, then the rest, which is its right half. Places of the marked text are counted from `first` on. Answers how many entries are written then.
#[cycle(list_half_list_rule)]
fn list_rule(
    work: &[u32],
    r: usize,
    at: usize,
    first: usize,
    res: &mut [u32],
    written: usize,
) -> usize
    requires { Listable work.now first r at written (length res.old) }
    ensures { Listed work.now first r at written result res.old res.new }
{
    let mut n = written;
    let mut rest = r;
    let mut place = at;
    while 0 < number_of(work, rest) {
        let Rule::Pair(u, v) = rule_in(work, rest) else {
            return list_one(res, n, first, place);
        };
        let join = place + length_of(work, u);
        n = list_half(work, u, place, first, res, n);
        n = list_cut(res, n, first, join, cut_of(work, rest));
        place = join;
        rest = v;
    }
    n
}

// The same, with no call where the rule has no occurrence or is a symbol.
#[cycle(list_half_list_rule)]
fn list_half(work: &[u32], r: usize, at: usize, first: usize, res: &mut [u32], n: usize) -> usize
    requires { Listable work.now first r at n (length res.old) }
    ensures { Listed work.now first r at n result res.old res.new }
{
    if number_of(work, r) == 0 {
        return n;
    }
    let Rule::Pair(_, _) = rule_in(work, r) else {
        return list_one(res, n, first, at);
    };
    list_rule(work, r, at, first, res, n)
}

// The same for the occurrence that a join cuts, if there is one: it begins so many symbols before the join.
fn list_cut(res: &mut [u32], n: usize, first: usize, join: usize, cut: Option<usize>) -> usize
    requires { (unwrap_or cut 0 ≤ join) × (join ≤ 2048) × (n + length (in_drive first 0 (cut_places join cut)) ≤ length res.old) }
    ensures { (result ≡ n + length (in_drive first 0 (cut_places join cut))) × (res.new ≡ placed_from n (in_drive first 0 (cut_places join cut)) res.old) }
{
    match cut {
        Some(c) => list_one(res, n, first, join - c),
        None => n,
    }
}

// The same for one occurrence, at a place of the marked text; none if that is before the first that counts.
fn list_one(res: &mut [u32], n: usize, first: usize, place: usize) -> usize
    requires { (place ≤ 2048) × (n + length (in_drive first place (0 ∷ [])) ≤ length res.old) }
    ensures { (result ≡ n + length (in_drive first place (0 ∷ []))) × (res.new ≡ placed_from n (in_drive first place (0 ∷ [])) res.old) }
{
    if place < first {
        return n;
    }
    res[n] = (place - first) as u32;
    n + 1
}
