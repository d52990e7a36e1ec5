// The services that rearrange a drive to its steps, and restore it.
#![tactic(auto)]

ghost use Rattle.std.specs.Prelude.{◌≡◌, [], ◌∷◌, length};
ghost use Rattle.definitions.specs.Services.{outcome_of, Serves, Answers, text_too_long, result_too_short, to_steps_service, from_steps_service};
ghost use Rattle.lists.specs.Decisions.{answered};

use checks::text_fits;
use definitions::Answer;
use results::result_fits;
use steps::{rearrange, restore};

// Rearranges a drive to its steps. Refuses by 1 and 9; success answers how many samples are written.
pub fn to_steps(text: &[u8], res: &mut [u8]) -> Answer
    ensures { Serves (to_steps_service text.now res.old) (Answers result) (res.new ∷ []) }
{
    let a = both_fit(text, res.len());
    let Ok(_) = a else {
        return a;
    };
    rearrange(text, res);
    a
}

// Restores a drive that was rearranged. Refuses by 1 and 9; success answers how many samples are written.
pub fn from_steps(text: &[u8], res: &mut [u8]) -> Answer
    ensures { Serves (from_steps_service text.now res.old) (Answers result) (res.new ∷ []) }
{
    let a = both_fit(text, res.len());
    let Ok(_) = a else {
        return a;
    };
    restore(text, res);
    a
}

// Refusals 1 and 9, or the number of samples: as many are written as are read.
fn both_fit(text: &[u8], n: usize) -> Answer
    ensures { outcome_of result ≡ answered (text_too_long text.now ∷ result_too_short (length text.now) n ∷ []) (length text.now) }
{
    let a = text_fits(text);
    let Ok(m) = a else {
        return a;
    };
    result_fits(m, n)
}
