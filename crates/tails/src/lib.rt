// Two tails of a pattern, compared where they stand: both are parts of the slice that was handed over, and nothing is copied.
#![tactic(auto)]

ghost use Rattle.std.specs.Prelude.{◌≡◌, ◌≤◌};
ghost use Rattle.definitions.specs.Words.{first_difference};

// The first index at which two tails differ, or the shorter one's length where there is none. The samples before `known` are known to agree.
pub fn first_difference(x: &[u8], y: &[u8], known: usize) -> usize
    requires { known ≤ first_difference x.now y.now }
    ensures { result ≡ first_difference x.now y.now }
{
    let short = x.len().min(y.len());
    let mut i = known;
    loop {
        if i == short {
            break short;
        }
        if x[i] != y[i] {
            break i;
        }
        i += 1;
    }
}
