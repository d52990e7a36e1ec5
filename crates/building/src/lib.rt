// Building the table of a drive, of any drive or of one in the nine-heading profile.
#![tactic(auto)]

ghost use Rattle.std.specs.Prelude.{[], ◌∷◌, ◌≤◌, length};
ghost use Rattle.definitions.specs.Table.{table_of};
ghost use Rattle.definitions.specs.Services.{Serves, Answers, sample_order, writes, build_service, build_profile_service};
ghost use Rattle.layout.specs.Layout.{WORK};

use checks::{clear_front, text_fits, work_fits};
use definitions::Answer;
use delivery::deliver_table;
use layout::WORK;
use profile::drive_fits;

// Builds the table of a text and a chair number. Refuses by 1, 4, 9; success answers the number of words.
pub fn build(text: &[u8], chair: u16, work: &mut [u32], res: &mut [u32]) -> Answer
    ensures { Serves (build_service sample_order text.now chair work.old res.old) (Answers result) (work.new ∷ res.new ∷ []) }
{
    let t = text_fits(text);
    let Ok(_) = t else {
        return t;
    };
    let w = work_fits(work.len());
    let Ok(_) = w else {
        return w;
    };
    let a = build_in(text, chair, &mut work[0..WORK], res);
    clear_front(work);
    a
}

// Builds the table of a drive in the nine-heading profile. Refuses by 1, 11, 12, 4, 9; success answers the number of words.
pub fn build_profile(text: &[u8], chair: u16, work: &mut [u32], res: &mut [u32]) -> Answer
    ensures { Serves (build_profile_service sample_order text.now chair work.old res.old) (Answers result) (work.new ∷ res.new ∷ []) }
{
    let p = drive_fits(text);
    let Ok(_) = p else {
        return p;
    };
    build(text, chair, work, res)
}

// What `build` does in 16,384 words, once text and work slice are known to fit.
fn build_in(text: &[u8], chair: u16, work: &mut [u32], res: &mut [u32]) -> Answer
    requires { (length text.now ≤ 2047) × (WORK ≤ length work.old) }
    ensures { Serves (writes [] (table_of sample_order text.now chair) 0 res.old) (Answers result) (res.new ∷ []) }
{
    let rules = grammar::table(text, chair, work);
    deliver_table(rules, work, res)
}
