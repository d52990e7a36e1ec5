// The program `census_trials`: each line of its input has a digit q and behind it a drive of at most 63 samples. It prints what the library's census says of them, how many
// runs of q samples there are and each run with its count, and ' by both' where the naive sides say the same: as many runs, rising, each with that count, and the counts'
// sum. The file `stdout` has what is printed.
#![tactic(auto)]

ghost use Rattle.std.specs.Prelude.{◌≤◌, ◌<◌, length};

use census::census;
use definitions::Answer;
use naive_census::distinct_runs;
use naive_words::is_smaller;
use printing::{put_number, told};
use refusals::number_of;
use standard_input::read_front;
use std::io::{Stdout, Write};

// Reads at most 4,096 bytes. A write that fails is passed over.
fn main(rt: HostRuntime) {
    let mut input = [0u8; 4096];
    let n = read_front(&mut rt.stdin(), &mut input);
    let to = &mut rt.stdout();
    for line in input[..n].split_inclusive(|byte| *byte == b'\n') {
        try_line(to, line.strip_suffix(b"\n").unwrap_or(line));
    }
}

// Tries one line.
fn try_line(to: &mut Stdout, line: &[u8]) {
    let _ = to.write_all(line);
    if let Some((first, drive)) = line.split_first() {
        try_drive(to, digit(*first), drive);
    }
    let _ = to.write_all(b"\n");
}

// What a digit means.
fn digit(b: u8) -> usize {
    b.saturating_sub(b'0') as usize
}

// Builds the table of a drive, and tries it.
fn try_drive(to: &mut Stdout, q: usize, drive: &[u8]) {
    let mut work = [7u32; 16384];
    let mut table = [7u32; 254];
    let n = answered(to, index::build(drive, 0, &mut work, &mut table));
    if let Some(table) = n.and_then(|n| table.get(..n)) {
        try_table(to, q, table, drive);
    }
}

// Takes the census of a table.
fn try_table(to: &mut Stdout, q: usize, table: &[u32], drive: &[u8]) {
    let mut work = [7u32; 16384];
    let mut runs = [7u8; 512];
    let mut counts = [7u32; 64];
    match answered(to, census(table, q, &mut work, &mut runs, &mut counts)) {
        Some(n) if n <= 64 => print_census(to, q, &runs, &counts[..n], drive),
        _ => {}
    }
}

// Prints a census, and whether the naive sides say the same.
fn print_census(to: &mut Stdout, q: usize, runs: &[u8], counts: &[u32], drive: &[u8])
    requires { length counts.now ≤ 64 }
{
    print_number(to, b" runs ", counts.len());
    if q == 0 || 8 < q {
        return;
    }
    print_runs(to, q, runs, counts);
    if is_census(q, runs, counts, drive) {
        let _ = to.write_all(b" by both");
    }
}

// Prints each run and its count.
fn print_runs(to: &mut Stdout, q: usize, runs: &[u8], counts: &[u32])
    requires { 0 < q }
{
    for (run, count) in runs.chunks_exact(q).zip(counts) {
        print_samples(to, run);
        print_number(to, b" x", *count as usize);
    }
}

// Prints the samples of a run.
fn print_samples(to: &mut Stdout, run: &[u8]) {
    let _ = to.write_all(b";");
    for sample in run {
        print_number(to, b" ", *sample as usize);
    }
}

// What success gives; where the library refuses, its number is printed.
fn answered(to: &mut Stdout, a: Answer) -> Option<usize> {
    if let Err(refusal) = a {
        print_number(to, b" refused ", number_of(refusal) as usize);
    }
    told(a)
}

// Prints a name, of at most 21 bytes, and then a number: a write that fails is passed over.
fn print_number(to: &mut Stdout, name: &[u8], n: usize)
    requires { length name.now ≤ 21 }
{
    let mut bytes = [0u8; 32];
    let count = put_number(name, n, &mut bytes);
    let _ = to.write_all(&bytes[..name.len()]);
    let _ = to.write_all(&bytes[name.len()..count]);
}

// Whether the naive sides say that these runs and counts are the census of the drive.
fn is_census(q: usize, runs: &[u8], counts: &[u32], drive: &[u8]) -> bool
    requires { (0 < q) × (q ≤ 8) × (length counts.now ≤ 64) }
{
    if 63 < drive.len() {
        return false;
    }
    let n = counts.len();
    (distinct_runs(drive, q) == n)
        & rise(q, n, runs)
        & all_agree(q, runs, counts, drive)
        & (sum(counts) == positions(drive.len(), q))
}

// Whether each of n runs is smaller than the next.
fn rise(q: usize, n: usize, runs: &[u8]) -> bool
    requires { 0 < q }
{
    runs.chunks_exact(q)
        .take(n)
        .is_sorted_by(|run, next| is_smaller(run, next))
}

// Whether each run begins in the drive as often as its count says.
fn all_agree(q: usize, runs: &[u8], counts: &[u32], drive: &[u8]) -> bool
    requires { (0 < q) × (length drive.now ≤ 63) }
{
    runs.chunks_exact(q)
        .zip(counts)
        .all(|(run, count)| agrees(run, *count as usize, drive))
}

// Whether the naive side finds a run so often in the drive.
fn agrees(run: &[u8], count: usize, drive: &[u8]) -> bool
    requires { length drive.now ≤ 63 }
{
    let mut places = [7u32; 64];
    naive::scan(run, drive, &mut places) == count
}

// The sum of counts.
fn sum(counts: &[u32]) -> usize
    requires { length counts.now ≤ 64 }
{
    let mut s = 0;
    for count in counts {
        s += *count as usize;
    }
    s
}

// From how many positions of n samples on there are q.
fn positions(n: usize, q: usize) -> usize
    requires { (n ≤ 63) × (q ≤ 8) }
{
    (n + 1).saturating_sub(q)
}
