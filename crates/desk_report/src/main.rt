// The program `desk_report`: reads a drive in the nine-heading profile, and prints the name of each of its samples.
// What it prints is `answer` of the bytes that are read (crate `desk_output`); `main` reads and writes.
#![tactic(auto)]

use desk_output::answer;
use standard_input::read_input;

// Reads at most 2,048 bytes: a longer input is refused, and so many show it. A read or a write that fails is said on standard error.
fn main(rt: HostRuntime) {
    let mut input = [0u8; 2048];
    let Ok(n) = read_input(&mut rt.stdin(), &mut input) else {
        let _ = eprintln!(rt; "desk_report: standard input was not read to its end");
        return;
    };
    let mut out = [0u8; 28658];
    let m = answer(&input[..n], &mut out);
    if rt.write_all(&out[..m]).is_err() {
        let _ = eprintln!(rt; "desk_report: the answer was not written to its end");
    }
}
