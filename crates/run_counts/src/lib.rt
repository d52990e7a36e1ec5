// The distinct runs of q samples of a text, and how often each begins in it: listed by their keys, and delivered to two result slices or refused by 9. A run is here
// what a census lists; the runs of a pattern, from which its cuts come, are another thing (crate `runs`).
#![tactic(auto)]

ghost use Rattle.std.specs.Prelude.{◌≡◌, [], ◌∷◌, map, ◌≤◌, ◌<◌, length};
ghost use Rattle.definitions.specs.Services.{Serves, Answers, sample_order, writes_both};
ghost use Rattle.definitions.specs.Census.{census_runs, census_counts, joined};
ghost use Rattle.run_keys.specs.Keys.{run_with};
ghost use Rattle.key_counts.specs.Keys.{count_of, distinct_keys};

use definitions::Answer;
use key_counts::list_keys;
use results::both_fit;
use run_keys::{write_keys, write_runs};

// Delivers the runs, q bytes each, and their counts, or refuses by 9.
pub fn deliver(text: &[u8], q: usize, runs: &mut [u8], counts: &mut [u32]) -> Answer
    requires { (0 < q) × (q ≤ 8) × (length text.now ≤ 2047) }
    ensures { Serves (writes_both [] (joined (census_runs sample_order q text.now)) (census_counts sample_order q text.now) runs.old counts.old) (Answers result) (runs.new ∷ counts.new ∷ []) }
{
    let mut keys = [0u64; 2047];
    let n = write_keys(text, q, &mut keys);
    deliver_keys(&keys[0..n], q, runs, counts)
}

// The same of the runs with these keys, in any order.
fn deliver_keys(keys: &[u64], q: usize, runs: &mut [u8], counts: &mut [u32]) -> Answer
    requires { (q ≤ 8) × (length keys.now ≤ 2047) }
    ensures { Serves (writes_both [] (joined (map (run_with sample_order q) (distinct_keys keys.now))) (map (count_of keys.now) (distinct_keys keys.now)) runs.old counts.old) (Answers result) (runs.new ∷ counts.new ∷ []) }
{
    let mut listed = [0u64; 2047];
    let mut numbers = [0u32; 2047];
    let n = list_keys(keys, &mut listed, &mut numbers);
    deliver_listed(&listed[0..n], &numbers[0..n], q, runs, counts)
}

// The same of the runs with these keys, and of these counts, one a run. Neither slice is written before both are judged.
fn deliver_listed(
    listed: &[u64],
    numbers: &[u32],
    q: usize,
    runs: &mut [u8],
    counts: &mut [u32],
) -> Answer
    requires { (q ≤ 8) × (length listed.now ≤ 2047) × (length numbers.now ≡ length listed.now) }
    ensures { Serves (writes_both [] (joined (map (run_with sample_order q) listed.now)) numbers.now runs.old counts.old) (Answers result) (runs.new ∷ counts.new ∷ []) }
{
    let n = listed.len();
    let a = both_fit(q * n, runs.len(), n, counts.len());
    let Ok(_) = a else {
        return a;
    };
    write_runs(listed, q, runs);
    slices::copy(numbers, counts);
    a
}
