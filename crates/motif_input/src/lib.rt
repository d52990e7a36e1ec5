// What the program `motif` reads: whether it is short enough, and where in it the motif ends and the drive begins.
#![tactic(auto)]

ghost use Rattle.std.specs.Prelude.{◌≡◌, ◌≤◌, length, drop};
ghost use Rattle.definitions.specs.Programs.{motif_of, drive_of, input_too_long};
ghost use Rattle.definitions.specs.Services.{outcome_of};
ghost use Rattle.lists.specs.Decisions.{checked};

use definitions::{Answer, Refusal};

// Refusal 1 of an input, or its length.
pub fn input_fits(input: &[u8]) -> Answer
    ensures { outcome_of result ≡ checked (input_too_long input.now) (length input.now) }
{
    if 4095 < input.len() {
        Err(Refusal::TextTooLong)
    } else {
        Ok(input.len())
    }
}

// Where the drive begins: behind the first byte 10, at the end where there is none.
pub fn drive_start(input: &[u8]) -> usize
    ensures { (result ≤ length input.now) × (drop result input.now ≡ drive_of input.now) }
{
    (motif_length(input) + 1).min(input.len())
}

// How many bytes stand before the first byte 10: all where there is none.
pub fn motif_length(input: &[u8]) -> usize
    ensures { result ≡ length (motif_of input.now) }
{
    input
        .iter()
        .position(|byte| *byte == 10)
        .unwrap_or(input.len())
}
