// Whether a drive is in the nine-heading profile: no byte above 8, and at rest at both ends.
#![tactic(auto)]

ghost use Rattle.std.specs.Prelude.{◌≡◌, true, false, ◌≤◌, ◌<◌, length, MatchOption};
ghost use Rattle.definitions.specs.Words.{every};
ghost use Rattle.definitions.specs.Profile.{on_heading, first_off, at_rest};
ghost use Rattle.definitions.specs.Services.{outcome_of, off_heading, not_at_rest, profile_checks, drive_checks};
ghost use Rattle.lists.specs.Decisions.{checked, answered};

use checks::text_fits;
use definitions::{Answer, Refusal};

// Refusals 1, 11 and 12 of a drive, or the number of samples.
pub fn drive_fits(text: &[u8]) -> Answer
    ensures { outcome_of result ≡ answered (drive_checks text.now) (length text.now) }
{
    let t = text_fits(text);
    let Ok(_) = t else {
        return t;
    };
    profile_fits(text)
}

// Refusals 11 and 12 of a drive, or the number of samples.
pub fn profile_fits(text: &[u8]) -> Answer
    ensures { outcome_of result ≡ answered (profile_checks false text.now) (length text.now) }
{
    let h = headings_fit(text);
    let Ok(_) = h else {
        return h;
    };
    ends_fit(text)
}

// Refusal 11, or the number of samples.
fn headings_fit(text: &[u8]) -> Answer
    ensures { outcome_of result ≡ checked (off_heading false text.now) (length text.now) }
{
    if let Some(off) = first_off(text) {
        return Err(Refusal::OffHeading(off));
    }
    Ok(text.len())
}

// Refusal 12, or the number of samples.
fn ends_fit(text: &[u8]) -> Answer
    ensures { outcome_of result ≡ checked (not_at_rest false text.now) (length text.now) }
{
    if !at_rest(text) {
        return Err(Refusal::NotAtRest);
    }
    Ok(text.len())
}

// The lowest index of a byte that is off heading, where there is one: behind the blocks that have none, byte by byte.
fn first_off(text: &[u8]) -> Option<usize>
    ensures { MatchOption result (first_off text.now ≡ length text.now) (λ off. (off ≡ first_off text.now) × (off < length text.now)) }
{
    let start = blocks_on_heading(text);
    (start..text.len()).find(|i| 8 < text[*i])
}

// So many bytes at the front are on heading; how many, by blocks of sixteen, is a matter of speed.
fn blocks_on_heading(text: &[u8]) -> usize
    ensures { (result ≤ length text.now) × (every (on_heading text.now) result ≡ true) }
{
    let blocks = text.len() / 16;
    for i in 0..blocks {
        let start = 16 * i;
        if !all_on_heading(&text[start..start + 16]) {
            return start;
        }
    }
    16 * blocks
}

// Whether every byte is on heading: the loop goes to the end, so that the compiler may look at several bytes at once.
fn all_on_heading(text: &[u8]) -> bool
    ensures { result ≡ every (on_heading text.now) (length text.now) }
{
    let mut all = true;
    for byte in text {
        all &= *byte <= 8;
    }
    all
}

// Whether a drive is not empty, and begins and ends at rest.
fn at_rest(text: &[u8]) -> bool
    ensures { result ≡ at_rest text.now }
{
    text.first() == Some(&0) && text.last() == Some(&0)
}
