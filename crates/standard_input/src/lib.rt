// Standard input, as the programs read it: to its end, or until a slice is full.
#![tactic(auto)]

ghost use Rattle.std.specs.Prelude.{◌≡◌, ◌≤◌, IfOk, length, take};
ghost use Rattle.std.specs.Io.KnownBytes.{Consumes};
ghost use Rattle.standard_input.specs.Reading.{HasRead, answer_at};

use std::io;
use std::io::Read;

// Reads until the slice is full or the input ends, and answers how many bytes were read. A read that
// fails is handed on as it is, one that a signal interrupts too.
pub fn read_input<R: Read>(reader: &mut R, input: &mut [u8]) -> io::Result<usize>
    ensures fits { IfOk result (λ n. n ≤ length input.old) }
    ensures bytes { IfOk result (HasRead (R.remaining reader.old) (R.remaining reader.new) input.new) }
{
    let mut n = 0;
    while n < input.len() {
        let got = reader.read(&mut input[n..]);
        let more = got.unwrap_or(0);
        if more == 0 {
            return ended(got, n);
        }
        n += more;
    }
    Ok(n)
}

// What is answered once a read gave no byte, n bytes behind it: the read failed, where it answered an error, or the input ended there.
#[tactic(auto, unfolding(crate::specs::Reading::answer_at))]
fn ended(got: io::Result<usize>, n: usize) -> io::Result<usize>
    ensures { result ≡ answer_at got n }
{
    got.map(|_| n)
}

// Reads until the slice is full, the input ends or a read fails, and answers how many bytes were read.
pub fn read_front<R: Read>(reader: &mut R, input: &mut [u8]) -> usize
    ensures fits { result ≤ length input.new }
    ensures bytes { Consumes (R.remaining reader.old) (R.remaining reader.new) (take result input.new) }
{
    let mut done = 0;
    while done < input.len() {
        let more = reader.read(&mut input[done..]).unwrap_or(0);
        if more == 0 {
            return done;
        }
        done += more;
    }
    done
}
