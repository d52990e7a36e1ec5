// Reading a table back, whole or in part.
#![tactic(auto)]

ghost use Rattle.std.specs.Prelude.{[], ◌∷◌};
ghost use Rattle.definitions.specs.Services.{Serves, Reads, Answers, sample_order, read_service, extract_service};

use checks::clear_front;
use definitions::{Answer, ReadAnswer};
use delivery::{deliver_part, read_loaded};
use layout::WORK;
use opening::admit;
use ranks::SAMPLE_ORDER;
use results::with_chair;
use state::LoadedText;

// Reads a table back. Refuses by 4 to 7, 9; success answers the number of samples and the chair number.
pub fn read(table: &[u32], work: &mut [u32], res: &mut [u8]) -> ReadAnswer
    ensures { Serves (read_service sample_order table.now work.old res.old) (Reads result) (work.new ∷ res.new ∷ []) }
{
    let a = admit(SAMPLE_ORDER, table, work);
    let Ok(rules) = a else {
        return with_chair(a, 0);
    };
    let loaded = LoadedText::new(rules, &work[0..WORK]);
    let r = read_loaded(&loaded, res);
    clear_front(work);
    r
}

// Reads the part of a drive that begins at `start` and has `count` samples. Refuses by 4 to 9; success answers the number of samples.
pub fn extract(
    table: &[u32],
    start: usize,
    count: usize,
    work: &mut [u32],
    res: &mut [u8],
) -> Answer
    ensures { Serves (extract_service sample_order table.now start count work.old res.old) (Answers result) (work.new ∷ res.new ∷ []) }
{
    let a = admit(SAMPLE_ORDER, table, work);
    let Ok(rules) = a else {
        return a;
    };
    let loaded = LoadedText::new(rules, &work[0..WORK]);
    let b = deliver_part(&loaded, start, count, res);
    clear_front(work);
    b
}
