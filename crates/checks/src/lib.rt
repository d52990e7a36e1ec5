// What the services share: the checks of what is handed over, each a small function that answers its refusal or goes on with what was accepted; and
// clearing the work slice afterwards. `results` has the checks of what is asked for and written.
#![tactic(auto)]

ghost use Rattle.std.specs.Prelude.{◌≡◌, ◌≤◌, length};
ghost use Rattle.definitions.specs.Services.{outcome_of, cleared, text_too_long, pattern_empty, pattern_too_long, no_step, pattern_checks, search_checks, work_too_short, table_length};
ghost use Rattle.layout.specs.Layout.{WORK};
ghost use Rattle.lists.specs.Decisions.{checked, answered};

use definitions::{Answer, Content, Refusal};
use layout::WORK;

// Refusal 1, or the number of samples.
pub fn text_fits(text: &[u8]) -> Answer
    ensures { outcome_of result ≡ checked (text_too_long text.now) (length text.now) }
{
    if 2047 < text.len() {
        Err(Refusal::TextTooLong)
    } else {
        Ok(text.len())
    }
}

// Refusals 2 and 3, or the number of samples.
pub fn pattern_fits(pattern: &[u8]) -> Answer
    ensures { outcome_of result ≡ answered (pattern_checks pattern.now) (length pattern.now) }
{
    let a = samples_fit(pattern);
    let Ok(_) = a else {
        return a;
    };
    size_fits(pattern)
}

// Refusal 2, or the number of samples.
fn samples_fit(pattern: &[u8]) -> Answer
    ensures { outcome_of result ≡ checked (pattern_empty pattern.now) (length pattern.now) }
{
    if pattern.len() == 0 {
        Err(Refusal::PatternEmpty)
    } else {
        Ok(pattern.len())
    }
}

// Refusal 3, or the number of samples.
fn size_fits(pattern: &[u8]) -> Answer
    ensures { outcome_of result ≡ checked (pattern_too_long pattern.now) (length pattern.now) }
{
    if 2047 < pattern.len() {
        Err(Refusal::PatternTooLong)
    } else {
        Ok(pattern.len())
    }
}

// Refusals 2, 3 and, where a table holds steps, 10, or the number of samples.
pub fn search_fits(content: Content, pattern: &[u8]) -> Answer
    ensures { outcome_of result ≡ answered (search_checks content pattern.now) (length pattern.now) }
{
    let a = pattern_fits(pattern);
    let Ok(_) = a else {
        return a;
    };
    let Content::Steps = content else {
        return a;
    };
    steps_fit(pattern)
}

// Refusal 10, or the number of samples.
fn steps_fit(pattern: &[u8]) -> Answer
    ensures { outcome_of result ≡ checked (no_step pattern.now) (length pattern.now) }
{
    if pattern.len() == 1 {
        Err(Refusal::NoStep)
    } else {
        Ok(pattern.len())
    }
}

// Refusal 4 of a work slice of n words, or n.
pub fn work_fits(n: usize) -> Answer
    ensures { outcome_of result ≡ checked (work_too_short n) n }
{
    if n < WORK {
        Err(Refusal::WorkTooShort)
    } else {
        Ok(n)
    }
}

// Refusal 5 of a table of n words, or n.
pub fn length_fits(n: usize) -> Answer
    ensures { outcome_of result ≡ checked (table_length n) n }
{
    if n == 0 || n % 2 == 1 || 4608 < n {
        return Err(Refusal::TableLength);
    }
    Ok(n)
}

// Clears the words that the services use.
pub fn clear_front(work: &mut [u32])
    requires { WORK ≤ length work.old }
    ensures { work.new ≡ cleared work.old }
{
    slices::clear(&mut work[0..WORK]);
}
