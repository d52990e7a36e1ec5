// A run of at most eight samples as a number of 64 bits, its key: keys compare as the runs do, and a run is written from its key.
#![tactic(auto)]

ghost use Rattle.std.specs.Prelude.{◌≡◌, map, ◌*◌, ◌≤◌, ◌<◌, length};
ghost use Rattle.definitions.specs.Words.{placed};
ghost use Rattle.definitions.specs.Census.{runs_of, joined};
ghost use Rattle.definitions.specs.Services.{sample_order};
ghost use Rattle.run_keys.specs.Keys.{key_of, run_with};

use ranks::{SAMPLE_ORDER, byte_of, rank_of};

// Writes the keys of all runs of q samples of a text at the front of a slice, in the order of the positions, and answers how many there are.
pub fn write_keys(text: &[u8], q: usize, keys: &mut [u64]) -> usize
    requires { (0 < q) × (q ≤ 8) × (length text.now ≤ 2047) × (length text.now ≤ length keys.old) }
    ensures value { result ≡ length (runs_of q text.now) }
    ensures keys_after { keys.new ≡ placed (map (key_of sample_order) (runs_of q text.now)) keys.old }
{
    let count = (text.len() + 1).saturating_sub(q);
    for i in 0..count {
        keys[i] = key_of(&text[i..i + q]);
    }
    count
}

// The key of a run: its digits to base 256 are the ranks of the samples less 1, the first sample's highest.
fn key_of(run: &[u8]) -> u64
    requires { length run.now ≤ 8 }
    ensures { result ≡ key_of sample_order run.now }
{
    let mut key = 0;
    for sample in run {
        key = key * 256 + u64::from(rank_of(SAMPLE_ORDER, *sample) - 1);
    }
    key
}

// Writes the runs of q samples with these keys at the front of a slice, one behind the other.
pub fn write_runs(keys: &[u64], q: usize, runs: &mut [u8])
    requires { (q ≤ 8) × (length keys.now ≤ 2047) × (q * length keys.now ≤ length runs.old) }
    ensures { runs.new ≡ placed (joined (map (run_with sample_order q) keys.now)) runs.old }
{
    for (i, key) in keys.iter().enumerate() {
        write_run(*key, q, &mut runs[q * i..]);
    }
}

// Writes the run of q samples with this key at the front of a slice: the last sample first.
fn write_run(key: u64, q: usize, run: &mut [u8])
    requires { q ≤ length run.old }
    ensures { run.new ≡ placed (run_with sample_order q key) run.old }
{
    let mut rest = key;
    for i in (0..q).rev() {
        run[i] = byte_of(SAMPLE_ORDER, (rest % 256) as u32 + 1);
        rest /= 256;
    }
}
