// Whether a drive is in the nine-heading profile, naively and apart from the library: from the last byte down to the first.
#![tactic(auto)]

ghost use Rattle.std.specs.Prelude.{◌≡◌};
ghost use Rattle.definitions.specs.Profile.{first_off, at_rest, is_profile};

// The lowest index of a byte above 8, or the length where there is none.
pub fn lowest_off(drive: &[u8]) -> usize
    ensures { result ≡ first_off drive.now }
{
    let mut lowest = drive.len();
    for i in (0..drive.len()).rev() {
        if 8 < drive[i] {
            lowest = i;
        }
    }
    lowest
}

// Whether a drive is a profile drive.
pub fn is_profile(drive: &[u8]) -> bool
    ensures { result ≡ is_profile drive.now }
{
    lowest_off(drive) == drive.len() && at_rest(drive)
}

// Whether a drive is not empty, and begins and ends at rest.
fn at_rest(drive: &[u8]) -> bool
    ensures { result ≡ at_rest drive.now }
{
    let n = drive.len();
    if n == 0 {
        return false;
    }
    drive[0] == 0 && drive[n - 1] == 0
}
