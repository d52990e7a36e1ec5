// The finds of a pattern by its steps, naively and apart from the library: at every position of the drive each step is compared with the pattern's, as a
// difference of two samples.
#![tactic(auto)]

ghost use Rattle.std.specs.Prelude.{◌≡◌, ◌-◌, ◌≤◌, ◌<◌, length, drop, get_or};
ghost use Rattle.definitions.specs.Words.{placed, begins};
ghost use Rattle.definitions.specs.Steps.{step, steps_of, step_finds};

// Writes the positions of the drive from which the same steps follow as in the pattern to the front of a slice, and answers how many there are.
pub fn scan(pattern: &[u8], drive: &[u8], places: &mut [u32]) -> usize
    requires { (length drive.now ≤ 2047) × (length drive.now ≤ length places.old) }
    ensures value { result ≡ length (step_finds pattern.now drive.now) }
    ensures places_after { places.new ≡ placed (step_finds pattern.now drive.now) places.old }
{
    let mut n = 0;
    for i in 0..drive.len() {
        if follows_at(pattern, drive, i) {
            places[n] = i as u32;
            n += 1;
        }
    }
    n
}

// Whether the same steps as in the pattern follow from position i of the drive.
fn follows_at(pattern: &[u8], drive: &[u8], i: usize) -> bool
    requires { i < length drive.now }
    ensures { result ≡ begins (steps_of pattern.now) (steps_of (drop i drive.now)) }
{
    let rest = &drive[i..];
    (1..pattern.len()).all(|k| k < rest.len() && step_to(rest, k) == step_to(pattern, k))
}

// The step to sample k from the one before.
#[tactic(auto, unfolding(definitions::specs::Steps::step))]
fn step_to(samples: &[u8], k: usize) -> u8
    requires { (0 < k) × (k < length samples.now) }
    ensures { result ≡ step (get_or samples.now (k - 1) 0) (get_or samples.now k 0) }
{
    samples[k].wrapping_sub(samples[k - 1])
}
