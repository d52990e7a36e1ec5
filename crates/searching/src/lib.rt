// The listed cuts of a pattern; counting its finds, and listing them.
#![tactic(auto)]

ghost use Rattle.std.specs.Prelude.{[], ◌∷◌};
ghost use Rattle.definitions.specs.Services.{Serves, Answers, Searches, sample_order, count_service, locate_service, cuts_service};

use checks::{clear_front, pattern_fits, search_fits};
use definitions::{Answer, Content, Search};
use finding::{count_loaded, deliver_cuts, locate_loaded};
use layout::WORK;
use opening::admit;
use ranks::SAMPLE_ORDER;
use results::with_tests;

// Lists the live cuts of a pattern that a search tries. Refuses by 2, 3, 9; success answers how many there are.
pub fn live_cuts(pattern: &[u8], res: &mut [u32]) -> Answer
    ensures { Serves (cuts_service sample_order pattern.now res.old) (Answers result) (res.new ∷ []) }
{
    let p = pattern_fits(pattern);
    let Ok(_) = p else {
        return p;
    };
    deliver_cuts(pattern, res)
}

// Counts the finds of a pattern in the drive of a table that holds samples or steps. Refuses by 2, 3, for steps 10, 4 to 7; success answers how many there are, and
// how many tests were made.
pub fn count(table: &[u32], content: Content, pattern: &[u8], work: &mut [u32]) -> Search
    ensures { Serves (count_service sample_order table.now content pattern.now work.old) (Searches result) (work.new ∷ []) }
{
    let p = search_fits(content, pattern);
    let Ok(_) = p else {
        return with_tests(p, 0);
    };
    let a = admit(SAMPLE_ORDER, table, work);
    let Ok(rules) = a else {
        return with_tests(a, 0);
    };
    let n = count_loaded(content, pattern, rules, &mut work[0..WORK]);
    clear_front(work);
    with_tests(Ok(n.occurrences), n.tests)
}

// Lists the finds likewise. Refuses by 9 too.
pub fn locate(
    table: &[u32],
    content: Content,
    pattern: &[u8],
    work: &mut [u32],
    res: &mut [u32],
) -> Search
    ensures { Serves (locate_service sample_order table.now content pattern.now work.old res.old) (Searches result) (work.new ∷ res.new ∷ []) }
{
    let p = search_fits(content, pattern);
    let Ok(_) = p else {
        return with_tests(p, 0);
    };
    let a = admit(SAMPLE_ORDER, table, work);
    let Ok(rules) = a else {
        return with_tests(a, 0);
    };
    let b = locate_loaded(content, pattern, rules, &mut work[0..WORK], res);
    clear_front(work);
    b
}
