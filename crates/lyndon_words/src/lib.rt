// The longest Lyndon words of a drive: the length of the one that begins at a position, and the lengths at all positions.
#![tactic(auto)]

ghost use Rattle.std.specs.Prelude.{[], ◌∷◌};
ghost use Rattle.definitions.specs.Services.{Serves, Answers, sample_order, lyndon_length_service, lyndon_array_service};

use checks::clear_front;
use definitions::Answer;
use layout::WORK;
use longest::{array_loaded, length_loaded};
use opening::admit;
use ranks::SAMPLE_ORDER;

// The length of the longest Lyndon word that begins at a position of a drive. Refuses by 4 to 8; success answers it.
pub fn lyndon_length(table: &[u32], position: usize, work: &mut [u32]) -> Answer
    ensures { Serves (lyndon_length_service sample_order table.now position work.old) (Answers result) (work.new ∷ []) }
{
    let a = admit(SAMPLE_ORDER, table, work);
    let Ok(rules) = a else {
        return a;
    };
    let b = length_loaded(position, rules, &mut work[0..WORK]);
    clear_front(work);
    b
}

// Writes these lengths at all positions. Refuses by 4 to 7, 9; success answers how many there are.
pub fn lyndon_array(table: &[u32], work: &mut [u32], res: &mut [u32]) -> Answer
    ensures { Serves (lyndon_array_service sample_order table.now work.old res.old) (Answers result) (work.new ∷ res.new ∷ []) }
{
    let a = admit(SAMPLE_ORDER, table, work);
    let Ok(rules) = a else {
        return a;
    };
    let written = array_loaded(rules, &mut work[0..WORK], res);
    clear_front(work);
    written
}
