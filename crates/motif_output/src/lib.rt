// What the program `motif` prints, from the bytes that it reads: how many rules the drive has and where the motif begins in it, or a refusal.
#![tactic(auto)]

ghost use Rattle.std.specs.Prelude.{◌≡◌, [], ◌∷◌, ◌++◌, ◌+◌, ◌*◌, ◌≤◌, length};
ghost use Rattle.definitions.specs.Words.{placed};
ghost use Rattle.definitions.specs.Services.{Serves, Answers, sample_order};
ghost use Rattle.definitions.specs.Programs.{named, rules_name, found_lines, motif_output};
ghost use Rattle.motif_output.specs.Steps.{drive_step, motif_step, Built, search_output};

use definitions::{Answer, Content};
use lines::{put_decimal_lines, put_named, put_refusal};
use motif_input::{drive_start, input_fits, motif_length};

// Writes what the program prints at the front of `out`, and answers how many bytes that is.
pub fn answer(input: &[u8], out: &mut [u8]) -> usize
    requires { 22551 ≤ length out.old }
    ensures value { result ≡ length (motif_output sample_order input.now) }
    ensures out_after { out.new ≡ placed (motif_output sample_order input.now) out.old }
{
    let mut table = [0u32; 4608];
    let a = build_drive(input, &mut table);
    let Ok(words) = a else {
        return put_refusal(a, out);
    };
    answer_built(input, &table[0..words], out)
}

// The same, once the drive's table is built.
fn answer_built(input: &[u8], table: &[u32], out: &mut [u8]) -> usize
    requires { Built input.now table.now × (22551 ≤ length out.old) }
    ensures value { result ≡ length (search_output sample_order input.now) }
    ensures out_after { out.new ≡ placed (search_output sample_order input.now) out.old }
{
    let mut positions = [0u32; 2047];
    let a = locate_motif(input, table, &mut positions);
    let Ok(n) = a else {
        return put_refusal(a, out);
    };
    rules_and_found(table.len() / 2, &positions[0..n], out)
}

// Builds the drive's table. Refuses by 1.
fn build_drive(input: &[u8], table: &mut [u32]) -> Answer
    requires { 4608 ≤ length table.old }
    ensures { Serves (drive_step sample_order input.now table.old) (Answers result) (table.new ∷ []) }
{
    let size = input_fits(input);
    let Ok(_) = size else {
        return size;
    };
    let from = drive_start(input);
    let mut work = [0u32; 16384];
    index::build(&input[from..], 0, &mut work, table)
}

// Lists where the motif begins in the drive, whose table is handed over. Refuses by 2 and 3.
fn locate_motif(input: &[u8], table: &[u32], positions: &mut [u32]) -> Answer
    requires { Built input.now table.now × (2047 ≤ length positions.old) }
    ensures { Serves (motif_step input.now positions.old) (Answers result) (positions.new ∷ []) }
{
    let end = motif_length(input);
    let mut work = [0u32; 16384];
    let found = index::locate(
        table,
        Content::Samples,
        &input[0..end],
        &mut work,
        positions,
    );
    found.answer
}

// The lines of success: how many rules there are, and the positions.
fn rules_and_found(rules: usize, positions: &[u32], out: &mut [u8]) -> usize
    requires { 34 + 11 * length positions.now ≤ length out.old }
    ensures value { result ≡ length (named rules_name rules ++ found_lines positions.now) }
    ensures out_after { out.new ≡ placed (named rules_name rules ++ found_lines positions.now) out.old }
{
    let n = put_named(b"rules ", rules, out);
    let m = found_lines(positions, &mut out[n..]);
    n + m
}

// How many positions there are, and each of them.
fn found_lines(positions: &[u32], out: &mut [u8]) -> usize
    requires { 17 + 11 * length positions.now ≤ length out.old }
    ensures value { result ≡ length (found_lines positions.now) }
    ensures out_after { out.new ≡ placed (found_lines positions.now) out.old }
{
    let n = put_named(b"found ", positions.len(), out);
    let m = put_decimal_lines(positions, &mut out[n..]);
    n + m
}
