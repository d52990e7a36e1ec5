// Converting a table of the former order of samples.
#![tactic(auto)]

ghost use Rattle.std.specs.Prelude.{[], ◌∷◌};
ghost use Rattle.definitions.specs.Services.{Serves, Answers, former_order, sample_order, convert_order_service};

use checks::clear_front;
use definitions::Answer;
use layout::WORK;
use opening::admit;
use ranks::FORMER_ORDER;
use reordering::reorder_loaded;

// Writes the table, in the order of signed samples, of the drive and chair number that a table of the former order has. Refuses by 4 to 7, the table judged by the
// former order, and 9; success answers the number of words.
pub fn to_signed(table: &[u32], work: &mut [u32], res: &mut [u32]) -> Answer
    ensures { Serves (convert_order_service former_order sample_order table.now work.old res.old) (Answers result) (work.new ∷ res.new ∷ []) }
{
    let a = admit(FORMER_ORDER, table, work);
    let Ok(rules) = a else {
        return a;
    };
    let b = reorder_loaded(FORMER_ORDER, rules, &mut work[0..WORK], res);
    clear_front(work);
    b
}
