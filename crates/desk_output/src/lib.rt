// What the program `desk_report` prints, from the bytes that it reads: the name of each heading of the drive, or a refusal.
#![tactic(auto)]

ghost use Rattle.std.specs.Prelude.{◌≡◌, ◌*◌, ◌≤◌, ◌<◌, length};
ghost use Rattle.definitions.specs.Words.{placed};
ghost use Rattle.definitions.specs.Programs.{lines_of, heading_name, desk_output};

use definitions::Answer;
use lines::{put_line, put_refusal};
use profile::drive_fits;

// Writes what the program prints at the front of `out`, and answers how many bytes that is.
pub fn answer(drive: &[u8], out: &mut [u8]) -> usize
    requires { 28658 ≤ length out.old }
    ensures value { result ≡ length (desk_output drive.now) }
    ensures out_after { out.new ≡ placed (desk_output drive.now) out.old }
{
    let a = drive_fits(drive);
    let Ok(_) = a else {
        return put_refusal(a, out);
    };
    put_headings(drive, out)
}

// The names of headings, each on a line.
fn put_headings(headings: &[u8], out: &mut [u8]) -> usize
    requires { 14 * length headings.now ≤ length out.old }
    ensures value { result ≡ length (lines_of heading_name headings.now) }
    ensures out_after { out.new ≡ placed (lines_of heading_name headings.now) out.old }
{
    let mut n = 0;
    for heading in headings {
        n += put_line(name_of(*heading), &mut out[n..]);
    }
    n
}

// The name of a heading, chosen by its number: 0 is rest; no number above 8 has a name.
fn name_of(heading: u8) -> &'static [u8]
    ensures { result.now ≡ heading_name heading }
{
    match heading {
        0 => b"rest",
        1..=8 => direction(heading),
        _ => b"",
    }
}

// The name of one of the eight headings that are not rest, clockwise from forward.
fn direction(heading: u8) -> &'static [u8]
    requires { (0 < heading) × (heading < 9) }
    ensures { result.now ≡ heading_name heading }
{
    match heading {
        1 => b"forward",
        2 => b"forward-right",
        3 => b"right",
        4 => b"back-right",
        5 => b"back",
        6 => b"back-left",
        7 => b"left",
        _ => b"forward-left",
    }
}
