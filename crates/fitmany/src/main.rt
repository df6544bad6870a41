// The program: one job and its responses from standard input, the answer to each on standard output. What is printed of the bytes is `manytext`'s contract and its law `printed_is`.
#![tactic(auto)]

ghost use Rattle.std.specs.Prelude.{◌≤◌, length};
ghost use Rattle.manytext.specs.Input.{input_room};
ghost use Rattle.manytext.specs.Text.{response_room};
ghost use Rattle.manytext.specs.Pieces.{PiecesFit};
ghost use Rattle.fitmany.specs.Held.{held_of};

use intake::InputError;
use manytext::Pieces;
use std::io::Read;
use std::ops::ControlFlow;

// Reads until the input ends or fails, or the space is full: what stands behind it changes nothing (`manytext`'s law `room_enough`).
fn read_input<R: Read>(from: &mut R, space: &mut [u8]) -> Result<usize, InputError>
    ensures { held_of result ≤ length space.old }
{
    let end = space.len();
    let mut at = 0;
    while at < end {
        let got = intake::read_some(from, &mut space[at..end]);
        match intake::after_read(end, at, got) {
            ControlFlow::Continue(n) => at = n,
            ControlFlow::Break(input) => return input,
        }
    }
    Ok(end)
}

// Some bytes on standard output; where they cannot be written, a line on standard error says so.
fn put(bytes: &[u8]) -> bool {
    if io::write_all(1, bytes) {
        return true;
    }
    io::write_all(2, b"fitmany: standard output cannot be written\n");
    false
}

// The pieces in order, each as soon as it is made.
fn put_pieces(pieces: Pieces, counts: &[u64], results: &[f64], out: &mut [u8])
    requires { (response_room ≤ length out.old) × PiecesFit pieces counts.now results.now }
{
    let count = manytext::count_of(pieces);
    for i in 0..count {
        let n = manytext::put_piece(out, pieces, i, counts, results);
        if !put(&out[0..n]) {
            return;
        }
    }
}

// The call that the bytes ask for, and what is printed of it.
fn answer(input: &[u8])
    requires { length input.now ≤ input_room }
{
    let mut results = [0.0; 121984];
    let mut counts = [0u64; 896];
    let mut out = [0u8; 131136];
    let pieces = manytext::fit_input(input, &mut results, &mut counts);
    put_pieces(pieces, &counts, &results, &mut out);
}

// What was read; a line on standard error where it could not be. No read brings more bytes than it has room for.
fn answer_held(input: Result<usize, InputError>, space: &[u8])
    requires { (held_of input ≤ length space.now) × (length space.now ≤ input_room) }
{
    match input {
        Err(InputError::Failed) => {
            io::write_all(2, b"fitmany: standard input cannot be read\n");
        }
        Err(InputError::TooLong) => {
            io::write_all(2, b"fitmany: standard input cannot be read\n");
        }
        Ok(n) => answer(&space[0..n]),
    }
}

fn main(rt: HostRuntime) {
    let mut space = [0u8; 331779];
    let mut from = rt.stdin();
    let input = read_input(&mut from, &mut space);
    answer_held(input, &space);
}
