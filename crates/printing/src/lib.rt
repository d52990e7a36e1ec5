// What the programs that try the library print besides text, which they write themselves: a number behind its name, as bytes; what success gives.
// A caller that ends where a write fails has it written by `print_number`.
#![tactic(auto)]

ghost use Rattle.std.specs.Prelude.{◌≡◌, ◌++◌, ◌+◌, ◌≤◌, length, Ok, MatchOption, IsErr, OnOk};
ghost use Rattle.std.specs.Io.KnownBytes.{Appends};
ghost use Rattle.definitions.specs.Words.{placed};
ghost use Rattle.definitions.specs.Programs.{decimal, named};

use definitions::Answer;
use lines::put_named;
use std::io;
use std::io::Write;

// What success gives.
pub fn told(a: Answer) -> Option<usize>
    ensures { MatchOption result (IsErr a) (λ n. a ≡ Ok n) }
{
    match a {
        Ok(n) => Some(n),
        Err(_) => None,
    }
}

// Bytes and a number in decimal at the front of a slice, the end of a line behind them. Answers how many bytes they are without it.
pub fn put_number(name: &[u8], n: usize, out: &mut [u8]) -> usize
    requires { length name.now + 11 ≤ length out.old }
    ensures value { result ≡ length (name.now ++ decimal n) }
    ensures fits { (length name.now ≤ result) × (result ≤ length out.new) }
    ensures out_after { out.new ≡ placed (named name.now n) out.old }
{
    put_named(name, n, out) - 1
}

// Writes bytes, of any length, and a number of up to ten digits in decimal, and ends at the first write that fails.
pub fn print_number<W: Write>(to: &mut W, name: &[u8], n: usize) -> io::Result<()>
    ensures { OnOk result (Appends (W.contents to.old) (W.contents to.new) (name.now ++ decimal n)) }
{
    let mut room = [0u8; 11];
    let count = put_number(b"", n, &mut room);
    let digits = &room[..count];
    to.write_all(name)?;
    to.write_all(digits)
}

#[cfg(test)]
mod tests {
    use super::*;
    use std::io::{Cursor, ErrorKind};

    // A writer whose first write fails, and how many were tried.
    #[derive(Drop)]
    struct Failing(usize);

    impl Write for Failing {
        fn write(&mut self, buf: &[u8]) -> io::Result<usize> {
            self.0 = self.0.saturating_add(1);
            if self.0 == 1 {
                return Err(ErrorKind::BrokenPipe.into());
            }
            Ok(buf.len())
        }

        fn flush(&mut self) -> io::Result<()> {
            Ok(())
        }
    }

    // Written behind what stands there, however long the name; a writer without room is told.
    #[test]
    fn prints_numbers(rt: HostRuntime) {
        let mut to = Cursor::new([b'-'; 64]);
        assert!(rt; print_number(&mut to, b"found ", 0).is_ok());
        assert!(rt; print_number(&mut to, b" of all the places in the drive ", 2047).is_ok());
        assert!(rt; print_number(&mut to, b"", 4294967295).is_ok());
        let want = b"found 0 of all the places in the drive 20474294967295-";
        assert_eq!(rt; &to.get_ref()[..54], want.as_slice());
        assert!(rt; print_number(&mut to, b" found ", 1000000).is_err());
    }

    // Nothing is written behind a name that was not.
    #[test]
    fn ends_where_a_write_fails(rt: HostRuntime) {
        let mut to = Failing(0);
        assert!(rt; print_number(&mut to, b"found ", 2).is_err());
        assert_eq!(rt; to.0, 1);
    }
}
