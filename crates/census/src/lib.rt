// The census of short runs, over the index and by its promises alone: the lists of the 256 single samples are the drive, since a position stands in exactly one, and the
// drive's length is the sum of their counts. Nothing else of the table or of the work slice is known here.
#![tactic(auto)]

ghost use Rattle.std.specs.Prelude.{◌≡◌, [], ◌∷◌, ◌+◌, ◌≤◌, ◌<◌, length, take};
ghost use Rattle.definitions.specs.Table.{text_of};
ghost use Rattle.definitions.specs.Occurrences.{occurrences};
ghost use Rattle.definitions.specs.Services.{outcome_of, Serves, Answers, sample_order, odd_window, census_service};
ghost use Rattle.lists.specs.Decisions.{checked};
ghost use Rattle.census.specs.Samples.{Tried, Begun, SoFar, number_below, put_all, Places};

use definitions::{Answer, Content, Refusal};
use run_counts::deliver;

// Lists the distinct runs of q samples of the drive of a table, q bytes each, and how often each begins there. Refuses by 13, 4 to 7, 9; success answers how many runs there
// are.
pub fn census(
    table: &[u32],
    q: usize,
    work: &mut [u32],
    runs: &mut [u8],
    counts: &mut [u32],
) -> Answer
    ensures { Serves (census_service sample_order table.now q work.old runs.old counts.old) (Answers result) (work.new ∷ runs.new ∷ counts.new ∷ []) }
{
    let a = window_fits(q);
    let Ok(_) = a else {
        return a;
    };
    let mut drive = [0u8; 2047];
    let b = read_samples(table, work, &mut drive);
    let Ok(n) = b else {
        return b;
    };
    deliver(&drive[0..n], q, runs, counts)
}

// Refusal 13, or q.
fn window_fits(q: usize) -> Answer
    ensures { outcome_of result ≡ checked (odd_window q) q }
{
    if q < 1 || 8 < q {
        return Err(Refusal::OddWindow);
    }
    Ok(q)
}

// Writes the drive of a table at the front of a slice, and answers how many samples it has. Refuses by 4 to 7.
fn read_samples(table: &[u32], work: &mut [u32], drive: &mut [u8]) -> Answer
    requires { length drive.old ≡ 2047 }
    ensures { Tried sample_order table.now work.old work.new (length (text_of sample_order table.now)) (take (length (text_of sample_order table.now)) drive.new ≡ text_of sample_order table.now) result }
{
    let a = place_sample(table, 0, work, drive);
    let Ok(n) = a else {
        return a;
    };
    let m = place_others(table, work, drive);
    Ok(n + m)
}

// Places the samples 1 to 255, once sample 0 is placed, and answers how many there are.
fn place_others(table: &[u32], work: &mut [u32], drive: &mut [u8]) -> usize
    requires { Begun sample_order table.now work.old drive.old }
    ensures result_value { number_below (text_of sample_order table.now) 1 + result ≡ length (text_of sample_order table.now) }
    ensures work_unchanged { work.new ≡ work.old }
    ensures so_far { SoFar (text_of sample_order table.now) 256 drive.new }
{
    let mut n = 0;
    for sample in 1..=255 {
        n += place_sample(table, sample, work, drive).unwrap_or(0);
    }
    n
}

// Writes a sample at each position at which it stands in the drive of a table, and answers how many these are. Refuses by 4 to 7.
fn place_sample(table: &[u32], sample: u8, work: &mut [u32], drive: &mut [u8]) -> Answer
    requires { length drive.old ≡ 2047 }
    ensures { Tried sample_order table.now work.old work.new (length (occurrences (sample ∷ []) (text_of sample_order table.now))) (drive.new ≡ put_all (occurrences (sample ∷ []) (text_of sample_order table.now)) sample drive.old) result }
{
    let pattern = [sample];
    let mut positions = [0u32; 2047];
    let found = index::locate(table, Content::Samples, &pattern, work, &mut positions);
    let a = found.answer;
    let Ok(n) = a else {
        return a;
    };
    put_at(&positions[0..n], sample, drive);
    a
}

// Writes a sample at these places.
fn put_at(places: &[u32], sample: u8, drive: &mut [u8])
    requires { Places places.now drive.old }
    ensures { drive.new ≡ put_all places.now sample drive.old }
{
    for place in places {
        drive[*place as usize] = sample;
    }
}
