// The program `trials`: each line of its input has a drive and a motif, with a space between them. It prints what the library says of them, and ' by both' where
// the naive side says the same, ' by all' where single calls do too: the places and the tests of a search, the drive's Lyndon array, the motif's cuts, the places of
// a search by steps, and building and checking in the nine-heading profile. The file `stdout` has what is printed.
#![tactic(auto)]

ghost use Rattle.std.specs.Prelude.{◌≤◌, length};

use definitions::{Answer, Content, Refusal};
use naive_profile::{is_profile, lowest_off};
use naive_words::longest_at;
use printing::{put_number, told};
use refusals::{number_of, place_of};
use standard_input::read_front;
use std::io::{Stdout, Write};

// Reads at most 4,096 bytes. A write that fails is passed over.
fn main(rt: HostRuntime) {
    let mut input = [0u8; 4096];
    let n = read_front(&mut rt.stdin(), &mut input);
    let to = &mut rt.stdout();
    for line in input[..n].split_inclusive(|byte| *byte == b'\n') {
        try_line(to, line.strip_suffix(b"\n").unwrap_or(line));
    }
}

// Tries one line: its drive ends at the first space.
fn try_line(to: &mut Stdout, line: &[u8]) {
    let _ = to.write_all(line);
    if let Some(end) = line.iter().position(|byte| *byte == b' ') {
        try_parts(to, &line[..end], &line[end + 1..]);
    }
    let _ = to.write_all(b"\n");
}

// Tries a drive and a motif.
fn try_parts(to: &mut Stdout, drive: &[u8], motif: &[u8]) {
    store(to, Content::Samples, drive, drive, motif);
    cut(to, motif);
    follow(to, drive, motif);
    judge(to, drive);
}

// Rearranges a drive, of at most 63 samples, and stores its steps.
fn follow(to: &mut Stdout, drive: &[u8], motif: &[u8]) {
    let mut steps = [7u8; 63];
    let n = count(to, index::to_steps(drive, &mut steps), 63);
    store(to, Content::Steps, &steps[..n], drive, motif);
}

// Stores the samples of a drive, or its steps, and tries the table.
fn store(to: &mut Stdout, content: Content, stored: &[u8], drive: &[u8], motif: &[u8]) {
    let mut work = [7u32; 16384];
    let mut table = [7u32; 254];
    let n = count(to, index::build(stored, 0, &mut work, &mut table), 254);
    try_table(to, content, &table[..n], drive, motif);
}

// Tries a table of steps or of samples.
fn try_table(to: &mut Stdout, content: Content, table: &[u32], drive: &[u8], motif: &[u8]) {
    match content {
        Content::Samples => try_samples(to, table, drive, motif),
        Content::Steps => {
            search(to, b" steps", Content::Steps, table, drive, motif);
        }
    }
}

// Prints the number of rules, searches, measures and checks.
fn try_samples(to: &mut Stdout, table: &[u32], drive: &[u8], motif: &[u8]) {
    print_number(to, b" rules ", table.len() / 2);
    let tests = search(to, b" found", Content::Samples, table, drive, motif);
    print_tests(to, tests, table, motif);
    measure(to, table, drive);
    judge_table(to, table, drive);
}

// Prints what the library finds, and whether the naive side finds the same in the drive; answers how many tests the library counts.
fn search(
    to: &mut Stdout,
    name: &[u8],
    content: Content,
    table: &[u32],
    drive: &[u8],
    motif: &[u8],
) -> usize {
    let mut work = [7u32; 16384];
    let mut found = [7u32; 64];
    let mut scanned = [7u32; 64];
    let m = scan(content, drive, motif, &mut scanned);
    let s = index::locate(table, content, motif, &mut work, &mut found);
    let n = answered(to, s.answer);
    print_compared(to, name, n, &found, m, &scanned);
    s.tests
}

// How many places the naive side finds in the drive, and which. A drive of this program has at most 63 samples.
fn scan(content: Content, drive: &[u8], motif: &[u8], places: &mut [u32; 64]) -> usize {
    if 63 < drive.len() {
        return 0;
    }
    match content {
        Content::Samples => naive::scan(motif, drive, places),
        Content::Steps => naive_steps::scan(motif, drive, places),
    }
}

// Prints how many tests the library counts, and whether the naive side counts as many. A search for an empty motif is refused.
fn print_tests(to: &mut Stdout, tests: usize, table: &[u32], motif: &[u8]) {
    if !motif.is_empty() {
        print_number(to, b" tests ", tests);
        print_both(to, is_count(tests, table, motif));
    }
}

// Whether the naive side counts so many tests. A motif of this program has at most 63 samples.
fn is_count(tests: usize, table: &[u32], motif: &[u8]) -> bool {
    if 63 < motif.len() || 256 < table.len() {
        return false;
    }
    let mut cuts = [7u32; 64];
    let n = naive_cuts::list(motif, &mut cuts);
    n <= 64 && naive_tests::count(table, &cuts[..n], motif.len()) == tests
}

// Measures the Lyndon array.
fn measure(to: &mut Stdout, table: &[u32], drive: &[u8]) {
    let mut work = [7u32; 16384];
    let mut lengths = [7u32; 64];
    let n = answered(to, index::lyndon_array(table, &mut work, &mut lengths));
    print_lengths(to, n, &lengths, table, drive);
}

// Prints the Lyndon array, and whether single calls and the naive side have the same lengths.
fn print_lengths(
    to: &mut Stdout,
    n: Option<usize>,
    lengths: &[u32; 64],
    table: &[u32],
    drive: &[u8],
) {
    if let Some(listed) = n.and_then(|n| lengths.get(..n)) {
        print_list(to, b" lengths", listed);
    }
    if all_agree(to, n, lengths, table, drive) {
        let _ = to.write_all(b" by all");
    }
}

// Whether there are n lengths, each what a single call answers for its position, and what the naive side says.
fn all_agree(
    to: &mut Stdout,
    n: Option<usize>,
    lengths: &[u32; 64],
    table: &[u32],
    drive: &[u8],
) -> bool {
    if 63 < drive.len() {
        return false;
    }
    for i in 0..drive.len() {
        if !agrees(to, lengths[i] as usize, i, table, drive) {
            return false;
        }
    }
    n == Some(drive.len())
}

// Whether n is what a single call answers for position i, and what the naive side says.
fn agrees(to: &mut Stdout, n: usize, i: usize, table: &[u32], drive: &[u8]) -> bool
    requires { i ≤ length drive.now }
{
    let mut work = [7u32; 16384];
    let k = answered(to, index::lyndon_length(table, i, &mut work));
    k == Some(n) && n == longest_at(drive, i)
}

// Prints the cuts of a motif, and whether the naive side lists the same.
fn cut(to: &mut Stdout, motif: &[u8]) {
    if 63 < motif.len() {
        return;
    }
    let mut cuts = [7u32; 64];
    let mut listed = [7u32; 64];
    let n = answered(to, index::live_cuts(motif, &mut cuts));
    let m = naive_cuts::list(motif, &mut listed);
    print_compared(to, b" cuts", n, &cuts, m, &listed);
}

// Prints the list of n entries that the library has, and whether it is that of m entries that the naive side has, what stands behind them too; nothing where the library has none.
fn print_compared(
    to: &mut Stdout,
    name: &[u8],
    n: Option<usize>,
    list: &[u32; 64],
    m: usize,
    naive: &[u32; 64],
) {
    if let Some(listed) = n.and_then(|n| list.get(..n)) {
        print_list(to, name, listed);
        print_both(to, n == Some(m) && list == naive);
    }
}

// Builds a drive in the nine-heading profile.
fn judge(to: &mut Stdout, drive: &[u8]) {
    let mut work = [7u32; 16384];
    let mut table = [7u32; 254];
    print_judged(
        to,
        index::build_profile(drive, 0, &mut work, &mut table),
        drive,
    );
}

// Checks the table of a drive in that profile.
fn judge_table(to: &mut Stdout, table: &[u32], drive: &[u8]) {
    let mut work = [7u32; 16384];
    print_judged(to, index::check_profile(table, &mut work), drive);
}

// Prints what building or checking answers in the profile, and whether the naive side says the same of the drive.
fn print_judged(to: &mut Stdout, a: Answer, drive: &[u8]) {
    match a {
        Ok(_) => {
            let _ = to.write_all(b" profile");
            print_both(to, is_profile(drive));
        }
        Err(refusal) => {
            print_number(to, b" refused ", number_of(refusal) as usize);
            print_number(to, b" at ", place_of(refusal));
            print_both(to, is_refusal(refusal, drive));
        }
    }
}

// Whether the naive side refuses the drive by this refusal, at its place.
fn is_refusal(refusal: Refusal, drive: &[u8]) -> bool {
    let off = lowest_off(drive);
    if off < drive.len() {
        refusal == Refusal::OffHeading(off)
    } else {
        refusal == Refusal::NotAtRest && !is_profile(drive)
    }
}

// Prints bytes and the entries of a list.
fn print_list(to: &mut Stdout, name: &[u8], list: &[u32]) {
    let _ = to.write_all(name);
    for entry in list {
        print_number(to, b" ", *entry as usize);
    }
}

// What success gives, at most `room`; 0 where the library refuses.
fn count(to: &mut Stdout, a: Answer, room: usize) -> usize
    ensures { result ≤ room }
{
    answered(to, a).unwrap_or(0).min(room)
}

// Prints whether the naive side says the same.
fn print_both(to: &mut Stdout, same: bool) {
    if same {
        let _ = to.write_all(b" by both");
    }
}

// What success gives; where the library refuses, its number is printed.
fn answered(to: &mut Stdout, a: Answer) -> Option<usize> {
    if let Err(refusal) = a {
        print_number(to, b" refused ", number_of(refusal) as usize);
    }
    told(a)
}

// Prints a name, of at most 21 bytes, and then a number: a write that fails is passed over.
fn print_number(to: &mut Stdout, name: &[u8], n: usize)
    requires { length name.now ≤ 21 }
{
    let mut bytes = [0u8; 32];
    let count = put_number(name, n, &mut bytes);
    let _ = to.write_all(&bytes[..name.len()]);
    let _ = to.write_all(&bytes[name.len()..count]);
}
