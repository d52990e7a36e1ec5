// The table of a text's Lyndon grammar, in the work slice and in the order that the services speak of: the ends of its Lyndon words, then its rules, numbered, then
// the chair number.
#![tactic(auto)]

ghost use Rattle.std.specs.Prelude.{◌≡◌, ◌≤◌, length};
ghost use Rattle.lyndon.specs.Stored.{Stored};
ghost use Rattle.definitions.specs.Grammar.{order as order_of};
ghost use Rattle.definitions.specs.Table.{marked};
ghost use Rattle.definitions.specs.Services.{sample_order};
ghost use Rattle.layout.specs.Layout.{WORK};
ghost use Rattle.grammar.specs.Built.{Marked, Built};

use layout::{BESIDE_SYMBOL, CHAIR};
use numbering::rules;
use ranks::SAMPLE_ORDER;

// The table of a text, in the table area of the work slice. Answers the number of rules.
pub fn table(text: &[u8], chair: u16, work: &mut [u32]) -> usize
    requires { (length text.now ≤ 2047) × (WORK ≤ length work.old) }
    ensures { Stored text.now chair × Built sample_order text.now chair work.new × (result ≡ length (order_of (marked sample_order text.now))) }
{
    let n = text.len() + 1;
    ends::place_text(SAMPLE_ORDER, text, work);
    build_table(n, chair, work)
}

// The table of the marked text that stands at the front of the work slice as n ranks. Answers the number of rules.
pub fn build_table(n: usize, chair: u16, work: &mut [u32]) -> usize
    requires { Marked sample_order n chair work.old }
    ensures { (m : Marked sample_order n chair work.old) → Built sample_order m.text chair work.new × (result ≡ length (order_of (marked sample_order m.text))) }
{
    ends::ends(work, n);
    let r = rules(SAMPLE_ORDER, n, work);
    work[CHAIR] = BESIDE_SYMBOL + chair as u32;
    r
}
