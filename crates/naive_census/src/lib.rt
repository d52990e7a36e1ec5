// How many distinct runs of q samples a drive has, naively and apart from the library: a run is counted where it stands at no later place.
#![tactic(auto)]

ghost use Rattle.std.specs.Prelude.{◌≡◌, ◌+◌, ◌≤◌, ◌<◌, length, take, drop, ltb};
ghost use Rattle.definitions.specs.Occurrences.{occurrences};
ghost use Rattle.definitions.specs.Census.{census_runs};
ghost use Rattle.definitions.specs.Services.{sample_order};

use naive::scan;

// How many runs of q samples a census lists.
pub fn distinct_runs(drive: &[u8], q: usize) -> usize
    requires { (length drive.now ≤ 2047) × (0 < q) }
    ensures { result ≡ length (census_runs sample_order q drive.now) }
{
    (0..(drive.len() + 1).saturating_sub(q))
        .filter(|i| !stands_later(drive, *i, q))
        .count()
}

// Whether the run of q samples at place i stands at a later place too.
fn stands_later(drive: &[u8], i: usize, q: usize) -> bool
    requires { (length drive.now ≤ 2047) × (0 < q) × (i + q ≤ length drive.now) }
    ensures { result ≡ ltb 0 (length (occurrences (take q (drop i drive.now)) (drop (i + 1) drive.now))) }
{
    let mut places = [0u32; 2048];
    0 < scan(&drive[i..i + q], &drive[i + 1..], &mut places)
}
