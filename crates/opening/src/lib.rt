// The one opening of every service that is handed something stored: its checks in order, then what is stored stands in the work slice.
#![tactic(auto)]

ghost use Rattle.std.specs.Prelude.{◌≤◌, length};
ghost use Rattle.lyndon.specs.Shapes.{Shaped};
ghost use Rattle.layout.specs.Layout.{WORK};
ghost use Rattle.opening.specs.Opening.{Admitted, Settled};

use bad_words::words_fit;
use checks::{clear_front, length_fits, work_fits};
use definitions::{Answer, Order};
use layout::WORK;
use tables::load;

// Opens a table: refusals 4 to 7, or the number of rules, with the table loaded in the first 16,384 words of the work slice.
pub fn admit(order: Order, table: &[u32], work: &mut [u32]) -> Answer
    ensures { Admitted order table.now work.old work.new result }
{
    let room = work_fits(work.len());
    let Ok(_) = room else {
        return room;
    };
    let size = length_fits(table.len());
    let Ok(_) = size else {
        return size;
    };
    let words = words_fit(table);
    let Ok(_) = words else {
        return words;
    };
    settle(order, table, work)
}

// The last check, once length and words are known to be in shape and the work slice to fit: refusal 7 clears the work slice.
fn settle(order: Order, table: &[u32], work: &mut [u32]) -> Answer
    requires { Shaped table.now × (length table.now ≤ 4608) × (WORK ≤ length work.old) }
    ensures { Settled order table.now work.old work.new result }
{
    let a = load(order, table, &mut work[0..WORK]);
    let Ok(_) = a else {
        clear_front(work);
        return a;
    };
    a
}
