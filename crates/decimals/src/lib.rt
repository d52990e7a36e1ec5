// A number in decimal, with the end of its line or another byte behind it, written at the front of a lent slice. It takes at most ten digits.
#![tactic(auto)]

ghost use Rattle.std.specs.Prelude.{◌≡◌, [], ◌∷◌, ◌++◌, ◌≤◌, ◌<◌, length};
ghost use Rattle.definitions.specs.Words.{placed};
ghost use Rattle.definitions.specs.Programs.{digits, digit_count, decimal, line};

// Writes a number and the end of its line, and answers how many bytes that is.
pub fn put_decimal_line(number: usize, out: &mut [u8]) -> usize
    requires { 11 ≤ length out.old }
    ensures value { result ≡ length (line (decimal number)) }
    ensures out_after { out.new ≡ placed (line (decimal number)) out.old }
{
    put_decimal(number, b'\n', out)
}

// Writes a number and a byte behind it, and answers how many bytes that is.
pub fn put_decimal(number: usize, behind: u8, out: &mut [u8]) -> usize
    requires { length (decimal number) < length out.old }
    ensures value { result ≡ length (decimal number ++ (behind ∷ [])) }
    ensures out_after { out.new ≡ placed (decimal number ++ (behind ∷ [])) out.old }
{
    let n = digit_count(number);
    put_digits(number, n, out);
    out[n] = behind;
    n + 1
}

// How many digits a number has, ten at most.
fn digit_count(number: usize) -> usize
    ensures { result ≡ digit_count number }
{
    let mut rest = number;
    for n in 1..10 {
        if rest < 10 {
            return n;
        }
        rest /= 10;
    }
    10
}

// The last digits of a number, as many as `count` says: the last is written first.
fn put_digits(number: usize, count: usize, out: &mut [u8])
    requires { count ≤ length out.old }
    ensures { out.new ≡ placed (digits count number) out.old }
{
    let mut rest = number;
    for i in (0..count).rev() {
        out[i] = b'0' + (rest % 10) as u8;
        rest /= 10;
    }
}
