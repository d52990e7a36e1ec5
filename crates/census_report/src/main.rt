// The program `census_report`: reads a number q, one byte, and then a drive, and prints every distinct run of q samples of the drive with its count.
// What it prints is `answer` of the bytes that are read (crate `census_output`); `main` reads and writes.
#![tactic(auto)]

use census_output::answer;
use standard_input::read_input;

// Reads at most 2,049 bytes: a longer input is refused, and so many show it. A read or a write that fails is said on standard error.
fn main(rt: HostRuntime) {
    let mut input = [0u8; 2049];
    let Ok(n) = read_input(&mut rt.stdin(), &mut input) else {
        let _ = eprintln!(rt; "census_report: standard input was not read to its end");
        return;
    };
    let mut out = [0u8; 75744];
    let m = answer(&input[..n], &mut out);
    if rt.write_all(&out[..m]).is_err() {
        let _ = eprintln!(rt; "census_report: the answer was not written to its end");
    }
}
