// Results written to the front of the result slice, or refused by 8 or 9: words, a table that is made, and a text that is loaded or a part of it.
#![tactic(auto)]

ghost use Rattle.std.specs.Prelude.{◌≡◌, [], ◌∷◌, ◌*◌, ◌≤◌, length, take, drop};
ghost use Rattle.definitions.specs.Services.{Serves, Answers, Reads, writes, range_past_end};
ghost use Rattle.lists.specs.Parts.{part};
ghost use Rattle.layout.specs.Layout.{TABLE, WORK};

use definitions::{Answer, ReadAnswer};
use layout::TABLE;
use results::{range_fits, result_fits, with_chair};
use spelling::{spell_text, write_part};
use state::LoadedText;

// Copies words to the front of the result slice, or refuses by 9.
pub fn deliver(words: &[u32], res: &mut [u32]) -> Answer
    ensures { Serves (writes [] words.now 0 res.old) (Answers result) (res.new ∷ []) }
{
    let a = result_fits(words.len(), res.len());
    let Ok(_) = a else {
        return a;
    };
    slices::copy(words, res);
    a
}

// Delivers the table of so many rules that stands in the table area.
pub fn deliver_table(rules: usize, work: &[u32], res: &mut [u32]) -> Answer
    requires { (rules ≤ 2304) × (WORK ≤ length work.now) }
    ensures { Serves (writes [] (part TABLE (2 * rules) work.now) 0 res.old) (Answers result) (res.new ∷ []) }
{
    let end = TABLE + 2 * rules;
    deliver(&work[TABLE..end], res)
}

// Reads a text that is loaded: the text, or refusal 9, and its chair number.
pub fn read_loaded(loaded: &LoadedText<'_>, res: &mut [u8]) -> ReadAnswer
    ensures { Serves (writes [] loaded.now.held.text loaded.now.held.chair res.old) (Reads result) (res.new ∷ []) }
{
    let a = deliver_text(loaded, res);
    with_chair(a, loaded.chair())
}

// Writes a part of a text that is loaded, or refuses by 8 or 9.
pub fn deliver_part(loaded: &LoadedText<'_>, start: usize, count: usize, res: &mut [u8]) -> Answer
    ensures { Serves (writes (range_past_end (length loaded.now.held.text) start count ∷ []) (take count (drop start loaded.now.held.text)) 0 res.old) (Answers result) (res.new ∷ []) }
{
    let range = range_fits(loaded.len(), start, count);
    let Ok(n) = range else {
        return range;
    };
    let a = result_fits(n, res.len());
    let Ok(_) = a else {
        return a;
    };
    write_part(start, n, loaded.work, res);
    a
}

// Spells a text that is loaded, or refuses by 9.
fn deliver_text(loaded: &LoadedText<'_>, res: &mut [u8]) -> Answer
    ensures { Serves (writes [] loaded.now.held.text 0 res.old) (Answers result) (res.new ∷ []) }
{
    let a = result_fits(loaded.len(), res.len());
    let Ok(_) = a else {
        return a;
    };
    spell_text(loaded, res);
    a
}
