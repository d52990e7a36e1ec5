// Searching the text that is loaded, in the order that the services speak of: its finds of a pattern counted, or written to the front of the result slice
// or refused by 9; and the listed cuts of a pattern, written or refused likewise. Where the text is steps, the pattern's steps are searched for, behind the first sample.
#![tactic(auto)]

ghost use Rattle.std.specs.Prelude.{◌≡◌, [], ◌∷◌, ◌≤◌, ◌<◌, length, drop};
ghost use Rattle.definitions.specs.declared.Content.TheVariants.{Steps};
ghost use Rattle.definitions.specs.Table.{table_of};
ghost use Rattle.definitions.specs.Occurrences.{occurrences, pattern_cuts, tests};
ghost use Rattle.definitions.specs.Steps.{searched, finds};
ghost use Rattle.definitions.specs.Services.{Serves, Answers, Searches, sample_order, writes};
ghost use Rattle.lyndon.specs.Steps.{start_of};
ghost use Rattle.state.specs.State.{Held};
ghost use Rattle.listing.specs.Listing.{Finds, rules_counted};
ghost use Rattle.finding.specs.Counted.{Sought, Counted};

use definitions::{Answer, Content, Search};
use ranks::SAMPLE_ORDER;
use results::{result_fits, with_tests};
use search::Totals;
use steps::rearrange;

// Counts in the text that is loaded, whose table has so many rules: finds and tests.
pub fn count_loaded(content: Content, pattern: &[u8], rules: usize, work: &mut [u32]) -> Totals
    requires { Sought content pattern.now rules work.old }
    ensures { (h : Held sample_order rules work.old) → Counted content pattern.now h result work.new }
{
    match content {
        Content::Samples => search::count(SAMPLE_ORDER, pattern, 0, work, rules),
        Content::Steps => count_steps(pattern, rules, work),
    }
}

// The same where the text is steps. The pattern's own stand behind its first sample, once it is rearranged.
fn count_steps(pattern: &[u8], rules: usize, work: &mut [u32]) -> Totals
    requires { Sought Steps pattern.now rules work.old }
    ensures { (h : Held sample_order rules work.old) → Counted Steps pattern.now h result work.new }
{
    let mut steps = [0u8; 2047];
    rearrange(pattern, &mut steps);
    search::count(SAMPLE_ORDER, &steps[1..pattern.len()], 1, work, rules)
}

// Lists in the text that is loaded, whose table has so many rules, or refuses by 9.
pub fn locate_loaded(
    content: Content,
    pattern: &[u8],
    rules: usize,
    work: &mut [u32],
    res: &mut [u32],
) -> Search
    requires { Sought content pattern.now rules work.old }
    ensures { (h : Held sample_order rules work.old) → Serves (writes [] (finds content pattern.now h.text) (length (tests sample_order (table_of sample_order h.text h.chair) (searched content pattern.now))) res.old) (Searches result) (res.new ∷ []) }
{
    let n = count_loaded(content, pattern, rules, work);
    let a = deliver_found(n.occurrences, rules, start_of(content), work, res);
    with_tests(a, n.tests)
}

// The place of the text from which finds are listed: the kept first sample is no step.
fn start_of(content: Content) -> usize
    ensures { result ≡ start_of content }
{
    match content {
        Content::Samples => 0,
        Content::Steps => 1,
    }
}

// Lists the cuts of a pattern, or refuses by 9. The pattern is scanned once, into a list of k + 1 words, where k is the largest whole
// number for which 2 to the power k is at most its length.
pub fn deliver_cuts(pattern: &[u8], res: &mut [u32]) -> Answer
    requires { (0 < length pattern.now) × (length pattern.now ≤ 2047) }
    ensures { Serves (writes [] (pattern_cuts sample_order pattern.now) 0 res.old) (Answers result) (res.new ∷ []) }
{
    let mut list: [u32; 11] = [0; 11];
    let k = cuts::floor_log2(pattern.len());
    let n = cuts::list(SAMPLE_ORDER, pattern, &mut list[0..k + 1]);
    let a = result_fits(n, res.len());
    let Ok(_) = a else {
        return a;
    };
    slices::copy(&list[0..n], res);
    a
}

// Lists what is counted, n occurrences by so many rules from place `from` of the text on, or refuses by 9.
fn deliver_found(n: usize, rules: usize, from: usize, work: &[u32], res: &mut [u32]) -> Answer
    requires { (h : Finds work.now) × (rules ≡ rules_counted h) × (from ≤ 1) × (n ≡ length (occurrences h.pattern (drop from h.text))) }
    ensures { (h : Finds work.now) → rules ≡ rules_counted h → n ≡ length (occurrences h.pattern (drop from h.text)) → Serves (writes [] (occurrences h.pattern (drop from h.text)) 0 res.old) (Answers result) (res.new ∷ []) }
{
    let fits = result_fits(n, res.len());
    let Ok(_) = fits else {
        return fits;
    };
    listing::list(work, rules, from, res);
    fits
}
