// The program: one job from standard input, its answer on standard output. What each read leads to is `intake`'s contract, what is printed of a job is `respond`'s.
#![tactic(auto)]

ghost use Rattle.std.specs.Prelude.{◌≤◌, length};
ghost use Rattle.fitjob.specs.Input.{held_of, Printed};

use intake::InputError;
use std::io::Read;
use std::ops::ControlFlow;

// After a full space: whether the input ends there.
fn read_past<R: Read>(from: &mut R, room: usize) -> Result<usize, InputError>
    ensures { held_of result ≤ room }
{
    let mut one = [0u8; 1];
    let got = intake::read_some(from, &mut one);
    match intake::after_read(room, room, got) {
        ControlFlow::Continue(_) => Err(InputError::TooLong),
        ControlFlow::Break(input) => input,
    }
}

// Reads until the input ends, fails, or goes on behind a full space.
fn read_input<R: Read>(from: &mut R, space: &mut [u8]) -> Result<usize, InputError>
    ensures { held_of result ≤ length space.old }
{
    let end = space.len();
    let mut at = 0;
    while at < end {
        let got = intake::read_some(from, &mut space[at..end]);
        match intake::after_read(end, at, got) {
            ControlFlow::Continue(n) => at = n,
            ControlFlow::Break(input) => return input,
        }
    }
    read_past(from, end)
}

// What is to be printed of an input: it stands in the front of out, and its length is told.
fn answer(
    input: Result<usize, InputError>,
    space: &[u8],
    terms: &mut [f64],
    out: &mut [u8],
) -> usize
    requires { held_of input ≤ length space.now }
    ensures { Printed input space.now terms.old out.old result terms.new out.new }
{
    match input {
        Err(InputError::Failed) => 0,
        Err(InputError::TooLong) => respond::respond_long(out),
        Ok(n) => respond::respond(&space[0..n], terms, out),
    }
}

// Some bytes on standard output; where they cannot be written, a line on standard error says so.
fn put(bytes: &[u8]) {
    if !io::write_all(1, bytes) {
        io::write_all(2, b"fitjob: standard output cannot be written\n");
    }
}

// A line on standard error where the input could not be read.
fn put_fault(input: Result<usize, InputError>) {
    match input {
        Err(InputError::Failed) => {
            io::write_all(2, b"fitjob: standard input cannot be read\n");
        }
        Err(InputError::TooLong) => {}
        Ok(_) => {}
    }
}

fn main(rt: HostRuntime) {
    let mut space = [0u8; 65536];
    let mut terms = [0.0; 7000];
    let mut out = [0u8; 131072];
    let mut from = rt.stdin();
    let input = read_input(&mut from, &mut space);
    put_fault(input);
    let n = answer(input, &space, &mut terms, &mut out);
    put(&out[0..n]);
}
