// Checking a table, of any drive or of one in the nine-heading profile.
#![tactic(auto)]

ghost use Rattle.std.specs.Prelude.{◌≡◌, true, [], ◌∷◌, length};
ghost use Rattle.definitions.specs.Table.{rule_count};
ghost use Rattle.definitions.specs.Services.{outcome_of, Serves, Answers, sample_order, profile_checks, check_service, check_profile_service};
ghost use Rattle.lists.specs.Decisions.{answered};

use checks::clear_front;
use definitions::Answer;
use layout::WORK;
use opening::admit;
use profile::profile_fits;
use ranks::SAMPLE_ORDER;
use spelling::write_part;
use state::LoadedText;

// Checks a table. Refuses by 4 to 7; success answers the number of rules.
pub fn check(table: &[u32], work: &mut [u32]) -> Answer
    ensures { Serves (check_service sample_order table.now work.old) (Answers result) (work.new ∷ []) }
{
    let a = admit(SAMPLE_ORDER, table, work);
    let Ok(_) = a else {
        return a;
    };
    clear_front(work);
    Ok(rule_count(table))
}

// Checks a table in the nine-heading profile. Refuses by 4 to 7, 11, 12; success answers the number of rules.
pub fn check_profile(table: &[u32], work: &mut [u32]) -> Answer
    ensures { Serves (check_profile_service sample_order table.now work.old) (Answers result) (work.new ∷ []) }
{
    let opened = admit(SAMPLE_ORDER, table, work);
    let Ok(rules) = opened else {
        return opened;
    };
    let loaded = LoadedText::new(rules, &work[0..WORK]);
    let p = profile_loaded(&loaded);
    clear_front(work);
    let Ok(_) = p else {
        return p;
    };
    Ok(rule_count(table))
}

// Refusals 11 and 12 of a text that is loaded, or the number of samples: the text is written as bytes first.
fn profile_loaded(loaded: &LoadedText<'_>) -> Answer
    ensures { outcome_of result ≡ answered (profile_checks true loaded.now.held.text) (length loaded.now.held.text) }
{
    let n = loaded.len();
    let mut text = [0u8; 2047];
    write_part(0, n, loaded.work, &mut text);
    profile_fits(&text[0..n])
}

// How many rules the table that was handed over has.
fn rule_count(table: &[u32]) -> usize
    ensures { result ≡ rule_count table.now }
{
    table.len() / 2
}
