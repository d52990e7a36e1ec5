// A pattern placed in the work slice, beside the text that is loaded: its ranks, and its listed cuts with NO_CUT behind them.
#![tactic(auto)]

ghost use Rattle.std.specs.Prelude.{◌≡◌, List, ℕ, ◌≤◌, ◌<◌, length};
ghost use Rattle.layout.specs.Layout.{WORK};
ghost use Rattle.state.specs.State.{Loaded};
ghost use Rattle.joins.specs.Patterns.{InWork};
ghost use Rattle.rule_finds.specs.Searching.{Counting};

use definitions::Order;
use joins::{Placed, longest_tail};
use layout::{CUTS, NO_CUT, PATTERN};
use slices::put;

// Places a pattern's ranks in the work slice, and its listed cuts, NO_CUT behind them. Answers its numbers: samples, cuts, the longest tail.
pub fn place_pattern(order: Order, pattern: &[u8], work: &mut [u32]) -> Placed
    requires { (0 < length pattern.now) × (length pattern.now ≤ 2047) × (WORK ≤ length work.old) }
    ensures size { result.size ≡ length pattern.now }
    ensures in_work { InWork result work.new }
    ensures counting { (text : List ℕ) (chair : ℕ) → Loaded order text chair work.old → Counting order pattern.now text chair result.size result.cuts 0 work.new }
{
    let size = pattern.len();
    ranks::write(order, pattern, &mut work[PATTERN..PATTERN + size]);
    let k = cuts::floor_log2(size);
    let cuts = cuts::list(order, pattern, &mut work[CUTS..CUTS + k + 1]);
    put(work, CUTS + cuts, NO_CUT);
    let longest = longest_tail(work, size, cuts);
    Placed {
        size,
        cuts,
        longest,
    }
}
