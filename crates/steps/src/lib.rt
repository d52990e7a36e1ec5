// A drive rearranged to its steps, and restored: wrapping subtraction forward, wrapping addition back.
//
// The sample before the first is taken to be 0: the first sample is its own step from there, and so is kept.
#![tactic(auto)]

ghost use Rattle.std.specs.Prelude.{◌≡◌, ◌<◌, ◌≤◌, ◌∷◌, length, slice_index};
ghost use Rattle.definitions.specs.Words.{placed};
ghost use Rattle.definitions.specs.Steps.{to_steps, from_steps};

// Writes the drive rearranged to the front of a slice.
pub fn rearrange(text: &[u8], steps: &mut [u8])
    requires { length text.now ≤ length steps.old }
    ensures { steps.new ≡ placed (to_steps text.now) steps.old }
{
    for (i, sample) in text.iter().enumerate() {
        steps[i] = sample.wrapping_sub(sample_before(text, i));
    }
}

// The sample before place i. It is read from the drive and not carried from turn to turn, so that the compiler may take several steps at once.
fn sample_before(text: &[u8], i: usize) -> u8
    requires { i < length text.now }
    ensures { result ≡ slice_index (0 ∷ text.now) i }
{
    if i == 0 { 0 } else { text[i - 1] }
}

// Writes the drive restored to the front of a slice.
pub fn restore(steps: &[u8], text: &mut [u8])
    requires { length steps.now ≤ length text.old }
    ensures { text.new ≡ placed (from_steps steps.now) text.old }
{
    let mut sample = 0u8;
    for (i, step) in steps.iter().enumerate() {
        sample = sample.wrapping_add(*step);
        text[i] = sample;
    }
}
