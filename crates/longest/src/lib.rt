// The lengths of the longest Lyndon words of the text that is loaded: at one position, or at all of them, written to the front of the result slice.
//
// `ends` makes them from the ranks and writes them over the lengths of the rules, so the text's length is taken before. The first of them is that of the mark.
// It costs what `ends` costs, whatever the position: on the worst text known, (a^k b)^2, about n * n / 8 symbol steps.
#![tactic(auto)]

ghost use Rattle.std.specs.Prelude.{◌≡◌, [], ◌∷◌, map, ℕ, ◌+◌, length};
ghost use Rattle.definitions.specs.declared.Order.{Order};
ghost use Rattle.definitions.specs.Words.{lyndon_length, lyndon_array};
ghost use Rattle.definitions.specs.Table.{rank_of};
ghost use Rattle.definitions.specs.Services.{Serves, Answers, done, gives, writes, range_past_end};
ghost use Rattle.lists.specs.Parts.{part};
ghost use Rattle.layout.specs.Layout.{LONGEST};
ghost use Rattle.state.specs.State.{Held};

use definitions::Answer;
use ends::ends;
use layout::LONGEST;
use results::{range_fits, result_fits};
use slices::wide;
use state::text_length;

// The length at a position of the text that is loaded, whose table has so many rules, or refusal 8.
pub fn length_loaded(position: usize, rules: usize, work: &mut [u32]) -> Answer
    requires { (o : Order) × Held o rules work.old }
    ensures { (o : Order) (h : Held o rules work.old) → Serves (gives (range_past_end (length h.text) position 1 ∷ []) (done (lyndon_length (map (rank_of o) h.text) position) 0)) (Answers result) [] }
{
    let n = text_length(rules, work);
    let a = range_fits(n, position, 1);
    let Ok(_) = a else {
        return a;
    };
    place_array(n, work);
    Ok(wide(work[LONGEST + 1 + position]))
}

// Writes the lengths at all positions, or refuses by 9.
pub fn array_loaded(rules: usize, work: &mut [u32], res: &mut [u32]) -> Answer
    requires { (o : Order) × Held o rules work.old }
    ensures { (o : Order) (h : Held o rules work.old) → Serves (writes [] (lyndon_array (map (rank_of o) h.text)) 0 res.old) (Answers result) (res.new ∷ []) }
{
    let n = text_length(rules, work);
    let a = result_fits(n, res.len());
    let Ok(_) = a else {
        return a;
    };
    place_array(n, work);
    let from = LONGEST + 1;
    let end = from + n;
    slices::copy(&work[from..end], res);
    a
}

// Places the Lyndon array of the text that is loaded, of n samples, behind the length of the mark's word.
fn place_array(n: usize, work: &mut [u32])
    requires { (o : Order) × (rules : ℕ) × (h : Held o rules work.old) × (n ≡ length h.text) }
    ensures { (o : Order) (rules : ℕ) (h : Held o rules work.old) → n ≡ length h.text → part (LONGEST + 1) n work.new ≡ lyndon_array (map (rank_of o) h.text) }
{
    ends(work, n + 1);
}
