// Spelling a text that is loaded: whole, by recursion over the rules that begin with the mark, or a part of it from its ranks.
#![tactic(auto)]

ghost use Rattle.std.specs.Prelude.{◌≡◌, map, ℕ, ◌+◌, ◌≤◌, length, take, drop};
ghost use Rattle.definitions.specs.Words.{placed};
ghost use Rattle.definitions.specs.Table.{byte_of};
ghost use Rattle.definitions.specs.Services.{sample_order};
ghost use Rattle.state.specs.State.{Held};
ghost use Rattle.spelling.specs.Spelling.{Ranks, rule_bytes, WithMark, WithoutMark, Spelled};

use decoding::{Rule, rule_in};
use layout::{LENGTHS, PLACES};
use ranks::{SAMPLE_ORDER, byte_of};
use slices::wide;
use state::LoadedText;

// Spells a text that is loaded at the front of a slice.
pub fn spell_text(loaded: &LoadedText<'_>, res: &mut [u8])
    requires { length loaded.now.held.text ≤ length res.old }
    ensures { res.new ≡ placed loaded.now.held.text res.old }
{
    spell(loaded.rules - 1, loaded.work, res);
}

// Spells rule r, which begins with the mark, at the front of a slice: its left half, and in the rest of the slice its right half. Answers how many
// samples there are: the mark is none. It is lent the words alone, as `copy_rule` is: a reference to what is loaded would cost a look-up at each level.
fn spell(r: usize, work: &[u32], res: &mut [u8]) -> usize
    requires { (rules : ℕ) × (h : Held sample_order rules work.now) × WithMark h r × (length (rule_bytes h r) ≤ length res.old) }
    ensures { (rules : ℕ) (h : Held sample_order rules work.now) → WithMark h r → Spelled h r result res.old res.new }
{
    let Rule::Pair(left, right) = rule_in(work, r) else {
        return 0;
    };
    let n = spell(left, work, res);
    n + copy_rule(right, work, &mut res[n..])
}

// Spells rule r, which has no mark, at the front of a slice: its ranks are copied from where it stands. Answers how many samples there are.
fn copy_rule(r: usize, work: &[u32], res: &mut [u8]) -> usize
    requires { (rules : ℕ) × (h : Held sample_order rules work.now) × WithoutMark h r × (length (rule_bytes h r) ≤ length res.old) }
    ensures { (rules : ℕ) (h : Held sample_order rules work.now) → WithoutMark h r → Spelled h r result res.old res.new }
{
    let place = wide(work[PLACES + r]);
    let count = wide(work[LENGTHS + r]);
    let end = place + count;
    write_samples(&work[place..end], res);
    count
}

// Writes a part of a text that is loaded, `count` samples from `start` on, at the front of a slice. It needs the words alone.
pub fn write_part(start: usize, count: usize, work: &[u32], res: &mut [u8])
    requires { (rules : ℕ) × (h : Held sample_order rules work.now) × (start + count ≤ length h.text) × (count ≤ length res.old) }
    ensures { (rules : ℕ) (h : Held sample_order rules work.now) → start + count ≤ length h.text → res.new ≡ placed (take count (drop start h.text)) res.old }
{
    let from = 1 + start;
    let end = from + count;
    write_samples(&work[from..end], res);
}

// Writes the samples of ranks at the front of a slice.
fn write_samples(ranks: &[u32], res: &mut [u8])
    requires { Ranks ranks.now × (length ranks.now ≤ length res.old) }
    ensures { res.new ≡ placed (map (byte_of sample_order) ranks.now) res.old }
{
    for (i, rank) in ranks.iter().enumerate() {
        res[i] = byte_of(SAMPLE_ORDER, *rank);
    }
}
