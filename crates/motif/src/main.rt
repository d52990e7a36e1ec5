// The program `motif`: reads a motif and a drive, and prints how many rules the drive has and where the motif begins in it.
// What it prints is `answer` of the bytes that are read (crate `motif_output`); `main` reads and writes.
#![tactic(auto)]

use motif_output::answer;
use standard_input::read_input;

// Reads at most 4,096 bytes: a longer input is refused, and so many show it. A read or a write that fails is said on standard error.
fn main(rt: HostRuntime) {
    let mut input = [0u8; 4096];
    let Ok(n) = read_input(&mut rt.stdin(), &mut input) else {
        let _ = eprintln!(rt; "motif: standard input was not read to its end");
        return;
    };
    let mut out = [0u8; 22551];
    let m = answer(&input[..n], &mut out);
    if rt.write_all(&out[..m]).is_err() {
        let _ = eprintln!(rt; "motif: the answer was not written to its end");
    }
}
