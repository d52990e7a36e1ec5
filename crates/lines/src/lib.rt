// Lines of text gathered in a lent slice: each function writes at the front of `out`, leaves the rest and answers how many bytes it wrote, so
// that the caller lends on the rest.
#![tactic(auto)]

ghost use Rattle.std.specs.Prelude.{◌≡◌, ◌+◌, ◌*◌, ◌≤◌, ◌<◌, length};
ghost use Rattle.definitions.specs.Words.{placed};
ghost use Rattle.definitions.specs.Programs.{decimal, line, named, lines_of, spaced};
ghost use Rattle.lines.specs.Lines.{refusal};

use decimals::{put_decimal, put_decimal_line};
use definitions::Answer;
use refusals::number_of;
use slices::wide;

// Numbers, each on a line.
pub fn put_decimal_lines(numbers: &[u32], out: &mut [u8]) -> usize
    requires { 11 * length numbers.now ≤ length out.old }
    ensures value { result ≡ length (lines_of decimal numbers.now) }
    ensures out_after { out.new ≡ placed (lines_of decimal numbers.now) out.old }
{
    let mut n = 0;
    for number in numbers {
        n += put_decimal_line(wide(*number), &mut out[n..]);
    }
    n
}

// The line of a refusal; nothing where the answer is none.
pub fn put_refusal(answer: Answer, out: &mut [u8]) -> usize
    requires { 19 ≤ length out.old }
    ensures value { result ≡ length (refusal answer) }
    ensures out_after { out.new ≡ placed (refusal answer) out.old }
{
    let Err(r) = answer else {
        return 0;
    };
    put_named(b"refused ", wide(number_of(r)), out)
}

// A line that begins with a name and then has a number.
pub fn put_named(name: &[u8], number: usize, out: &mut [u8]) -> usize
    requires { length name.now + 11 ≤ length out.old }
    ensures value { result ≡ length (named name.now number) }
    ensures out_after { out.new ≡ placed (named name.now number) out.old }
{
    let n = put_bytes(name, out);
    let m = put_decimal_line(number, &mut out[n..]);
    n + m
}

// Bytes as numbers, with a space behind each.
pub fn put_spaced(bytes: &[u8], out: &mut [u8]) -> usize
    requires { 4 * length bytes.now ≤ length out.old }
    ensures value { result ≡ length (spaced bytes.now) }
    ensures out_after { out.new ≡ placed (spaced bytes.now) out.old }
{
    let mut n = 0;
    for byte in bytes {
        n += put_decimal(*byte as usize, 32, &mut out[n..]);
    }
    n
}

// A line of bytes.
pub fn put_line(bytes: &[u8], out: &mut [u8]) -> usize
    requires { length bytes.now < length out.old }
    ensures value { result ≡ length (line bytes.now) }
    ensures out_after { out.new ≡ placed (line bytes.now) out.old }
{
    let n = put_bytes(bytes, out);
    out[n] = 10;
    n + 1
}

// Bytes as they are.
#[tactic(auto, unfolding(definitions::specs::Words::placed))]
fn put_bytes(bytes: &[u8], out: &mut [u8]) -> usize
    requires { length bytes.now ≤ length out.old }
    ensures value { result ≡ length bytes.now }
    ensures out_after { out.new ≡ placed bytes.now out.old }
{
    out[..bytes.len()].copy_from_slice(bytes);
    bytes.len()
}
