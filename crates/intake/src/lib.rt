// Reading an input of unknown length into a space: what one read leads to.
#![tactic(auto)]

ghost use Rattle.std.specs.Prelude.{◌≡◌, length};
ghost use Rattle.intake.specs.Intake.{after_bytes, after_read, Brought};

use std::io::Read;
use std::ops::ControlFlow;

// Why an input is not held whole: it goes on behind a full space, or it could not be read.
#[derive(Clone, Copy, Debug, PartialEq, Eq)]
pub enum InputError {
    TooLong,
    Failed,
}

// What one read leads to: so many bytes are there and the input may go on, or reading has ended.
pub type Step = ControlFlow<Result<usize, InputError>, usize>;

// n bytes more, `held` being there in a space of `room`.
fn after_bytes(room: usize, held: usize, n: usize) -> Step
    ensures { result ≡ after_bytes room held n }
{
    if n == 0 {
        return ControlFlow::Break(Ok(held));
    }
    if room < held || room - held < n {
        return ControlFlow::Break(Err(InputError::TooLong));
    }
    ControlFlow::Continue(held + n)
}

// What a read answered, `held` bytes being there in a space of `room`.
pub fn after_read(room: usize, held: usize, got: isize) -> Step
    ensures { result ≡ after_read room held got }
{
    match usize::try_from(got) {
        Ok(n) => after_bytes(room, held, n),
        Err(_) => ControlFlow::Break(Err(InputError::Failed)),
    }
}

// One read into a space, as `after_read` takes its answer: how many bytes it brought, or -1 where it failed.
// The answer is the operating system's and not a Result: `Brought` says which number stands for a failure, and the edit failed_read_as_minus_two tries another.
pub fn read_some<R: Read>(from: &mut R, space: &mut [u8]) -> isize
    ensures { Brought (length space.old) result }
{
    match from.read(space) {
        Ok(n) => n as isize,
        Err(_) => -1,
    }
}
