// Whether the words of a table from anywhere stand where tables have such words: the lowest that does not is refused.
#![tactic(auto)]

ghost use Rattle.std.specs.Prelude.{◌≡◌, ◌+◌, ◌-◌, ◌*◌, ◌/◌, ◌≤◌, ◌&&◌, length, if◌then◌else◌, Some, None, ◌==◌, nat_eq, nat_le, nat_lt};
ghost use Rattle.definitions.specs.Table.{kind_of, number_of, bad_first, bad_second, rule_count};
ghost use Rattle.definitions.specs.Services.{outcome_of, has_bad_word};
ghost use Rattle.lists.specs.Decisions.{checked};

use definitions::{Answer, Refusal};
use layout::{KIND, LEFT_HALF, RIGHT_HALF};
use slices::wide;

// Refusal 6 at the lowest bad word, or the number of rules.
pub fn words_fit(table: &[u32]) -> Answer
    requires { (length table.now ≡ 2 * (rule_count table.now)) × (length table.now ≤ 4608) }
    ensures { outcome_of result ≡ checked (has_bad_word table.now) (rule_count table.now) }
{
    let n = table.len() / 2;
    for r in 0..n {
        if let Some(word) = bad_of(r, table[2 * r], table[2 * r + 1]) {
            return Err(Refusal::BadWord(2 * r + word));
        }
    }
    Ok(n)
}

// Which of the two words of rule r is bad, where one is: 0 the first, else 1 the second.
fn bad_of(r: usize, x: u32, y: u32) -> Option<usize>
    requires { r ≤ 2304 }
    ensures { result ≡ (if bad_first r x then Some 0 else (if bad_second r x y then Some 1 else None)) }
{
    if is_half(r, x, LEFT_HALF) {
        if is_half(r, y, RIGHT_HALF) {
            None
        } else {
            Some(1)
        }
    } else if 256 < x {
        Some(0)
    } else if is_beside_symbol(r, y) {
        None
    } else {
        Some(1)
    }
}

// Whether a word names a rule before r, as a half whose words begin at `least`. One comparison: smaller words wrap to numbers that are too great.
fn is_half(r: usize, x: u32, least: u32) -> bool
    requires { least + r ≤ 4294967296 }
    ensures { result ≡ nat_le least x && nat_lt (x - least) r }
{
    wide(x.wrapping_sub(least)) < r
}

// Whether y may stand beside the symbol of rule r: a chair number in rule 0, and 0 in any other.
fn is_beside_symbol(r: usize, y: u32) -> bool
    ensures { result ≡ (kind_of y == 3) && nat_le (number_of y) (if nat_eq r 0 then 65535 else 0) }
{
    let most = if r == 0 { 65535 } else { 0 };
    y / KIND == 3 && y % KIND <= most
}
