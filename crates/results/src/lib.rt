// The checks of what is asked for and written, each a small function that answers its refusal or goes on with what was accepted; and the answers to
// reading a table back, which has a chair number, and to a search, which has the number of its tests.
#![tactic(auto)]

ghost use Rattle.std.specs.Prelude.{◌≡◌};
ghost use Rattle.definitions.specs.Services.{outcome_of, result_too_short, either_too_short, range_past_end};
ghost use Rattle.lists.specs.Decisions.{checked};
ghost use Rattle.results.specs.Results.{with_chair, with_tests};

use definitions::{Answer, ReadAnswer, ReadBack, Refusal, Search};

// Refusal 9 of a result slice of n entries, or the entries needed.
pub fn result_fits(needed: usize, n: usize) -> Answer
    ensures { outcome_of result ≡ checked (result_too_short needed n) needed }
{
    if n < needed {
        Err(Refusal::ResultTooShort(needed))
    } else {
        Ok(needed)
    }
}

// Refusal 9 of two result slices of n and m entries, or the entries needed in the second.
pub fn both_fit(first: usize, n: usize, second: usize, m: usize) -> Answer
    ensures { outcome_of result ≡ checked (either_too_short first n second m) second }
{
    if first <= n && second <= m {
        Ok(second)
    } else {
        Err(Refusal::ResultTooShort(second))
    }
}

// Refusal 8 of so many samples from `start` on in a text of n samples, or how many they are.
pub fn range_fits(n: usize, start: usize, count: usize) -> Answer
    ensures { outcome_of result ≡ checked (range_past_end n start count) count }
{
    if n < start || n - start < count {
        return Err(Refusal::RangePastEnd);
    }
    Ok(count)
}

// The answer to reading a table back: success has the chair number with it.
#[tactic(auto, unfolding(crate::specs::Results::with_chair))]
pub fn with_chair(answer: Answer, chair: u16) -> ReadAnswer
    ensures { result ≡ with_chair answer chair }
{
    answer.map(|samples| ReadBack { samples, chair })
}

// The answer to a search: success has the number of its tests with it, a refusal has 0.
#[tactic(auto, unfolding(crate::specs::Results::with_tests))]
pub fn with_tests(answer: Answer, tests: usize) -> Search
    ensures { result ≡ with_tests answer tests }
{
    match answer {
        Ok(_) => Search { answer, tests },
        Err(_) => Search { answer, tests: 0 },
    }
}
