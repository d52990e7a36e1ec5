// What the program `census_report` prints, from the bytes that it reads: a line for each run of q samples of the drive, and the sum of their counts, or a refusal.
#![tactic(auto)]

ghost use Rattle.std.specs.Prelude.{◌≡◌, [], ◌∷◌, ◌+◌, ◌*◌, ◌≤◌, ◌<◌, length, drop};
ghost use Rattle.definitions.specs.Words.{placed};
ghost use Rattle.definitions.specs.Census.{total};
ghost use Rattle.definitions.specs.Services.{Serves, Answers, sample_order};
ghost use Rattle.definitions.specs.Programs.{named, spaced, window_of, census_drive, census_output};
ghost use Rattle.census_output.specs.Steps.{drive_step, window_step, Built, window_output};
ghost use Rattle.census_output.specs.Reports.{tallies, report, Tallied};

use decimals::put_decimal_line;
use definitions::Answer;
use lines::{put_refusal, put_spaced};
use slices::wide;

// Writes what the program prints at the front of `out`, and answers how many bytes that is.
pub fn answer(input: &[u8], out: &mut [u8]) -> usize
    requires { 75744 ≤ length out.old }
    ensures value { result ≡ length (census_output sample_order input.now) }
    ensures out_after { out.new ≡ placed (census_output sample_order input.now) out.old }
{
    let mut table = [0u32; 4608];
    let built = build_drive(input, &mut table);
    let Ok(words) = built else {
        return put_refusal(built, out);
    };
    answer_built(input, &table[0..words], out)
}

// The same, once the drive's table is built.
fn answer_built(input: &[u8], table: &[u32], out: &mut [u8]) -> usize
    requires { Built input.now table.now × (75744 ≤ length out.old) }
    ensures value { result ≡ length (window_output sample_order input.now) }
    ensures out_after { out.new ≡ placed (window_output sample_order input.now) out.old }
{
    let mut runs = [0u8; 16376];
    let mut counts = [0u32; 2047];
    let a = count_runs(input, table, &mut runs, &mut counts);
    let Ok(n) = a else {
        return put_refusal(a, out);
    };
    let q = window(input);
    let end = q * n;
    put_report(q, &runs[0..end], &counts[0..n], out)
}

// Builds the drive's table. Refuses by 1.
fn build_drive(input: &[u8], table: &mut [u32]) -> Answer
    requires { 4608 ≤ length table.old }
    ensures { Serves (drive_step sample_order input.now table.old) (Answers result) (table.new ∷ []) }
{
    let start = drive_start(input);
    let mut work = [0u32; 16384];
    index::build(&input[start..], 0, &mut work, table)
}

// Where the drive begins: behind the first byte, where there is one.
fn drive_start(input: &[u8]) -> usize
    ensures { (result ≤ length input.now) × (drop result input.now ≡ census_drive input.now) }
{
    input.len().min(1)
}

// Lists the runs of the drive, whose table is handed over, and their counts. Refuses by 13.
fn count_runs(input: &[u8], table: &[u32], runs: &mut [u8], counts: &mut [u32]) -> Answer
    requires { Built input.now table.now × (16376 ≤ length runs.old) × (2047 ≤ length counts.old) }
    ensures { Serves (window_step sample_order input.now runs.old counts.old) (Answers result) (runs.new ∷ counts.new ∷ []) }
{
    let q = window(input);
    let mut work = [0u32; 16384];
    census::census(table, q, &mut work, runs, counts)
}

// The first byte, and 0 where there is none.
#[tactic(auto, unfolding(definitions::specs::Programs::window_of))]
fn window(input: &[u8]) -> usize
    ensures { result ≡ window_of input.now }
{
    input.first().copied().unwrap_or(0) as usize
}

// The lines of success: each run with its count, and the sum of the counts.
fn put_report(q: usize, runs: &[u8], counts: &[u32], out: &mut [u8]) -> usize
    requires { Tallied q runs.now counts.now × ((4 * q + 5) * length counts.now + 11 ≤ length out.old) }
    ensures value { result ≡ length (report q runs.now counts.now) }
    ensures out_after { out.new ≡ placed (report q runs.now counts.now) out.old }
{
    let n = put_tallies(q, runs, counts, out);
    let m = put_decimal_line(sum(counts), &mut out[n..]);
    n + m
}

// A line for each run and its count.
fn put_tallies(q: usize, runs: &[u8], counts: &[u32], out: &mut [u8]) -> usize
    requires { Tallied q runs.now counts.now × ((4 * q + 5) * length counts.now + 11 ≤ length out.old) }
    ensures value { result ≡ length (tallies q runs.now counts.now) }
    ensures out_after { out.new ≡ placed (tallies q runs.now counts.now) out.old }
{
    let mut n = 0;
    for (i, count) in counts.iter().enumerate() {
        let start = q * i;
        n += put_tally(&runs[start..start + q], wide(*count), &mut out[n..]);
    }
    n
}

// The line of a run and its count.
fn put_tally(run: &[u8], count: usize, out: &mut [u8]) -> usize
    requires { 4 * length run.now + 11 ≤ length out.old }
    ensures value { result ≡ length (named (spaced run.now) count) }
    ensures out_after { out.new ≡ placed (named (spaced run.now) count) out.old }
{
    let n = put_spaced(run, out);
    let m = put_decimal_line(count, &mut out[n..]);
    n + m
}

// The sum of counts.
fn sum(counts: &[u32]) -> usize
    requires { length counts.now ≤ 2047 }
    ensures { result ≡ total counts.now }
{
    counts.iter().map(|count| wide(*count)).sum()
}
