// The counts of a call, and the number that it returns.
ghost use Rattle.std.specs.Prelude.{◌≡◌, cond, ◌≤◌, length};
ghost use Rattle.model.specs.Account.{no_counts};
ghost use Rattle.model.specs.Answer.{blank_answer};
ghost use Rattle.job.specs.Lists.{laid};
ghost use Rattle.jobcall.specs.Told.{counts_length, counts_of, returned_by};

use model::{Account, Answer};

fn flag(t: bool) -> u64
    ensures { result ≡ cond t 1 0 }
{
    if t { 1 } else { 0 }
}

pub fn put_counts(answer: Answer, byte: usize, counts: &mut [u64])
    requires { counts_length ≤ length counts.old }
    ensures { counts.new ≡ laid (counts_of answer byte) counts.old }
{
    let account = answer.account;
    let settled = flag(answer.converged);
    counts[0] = answer.number as u64;
    counts[1] = answer.order as u64;
    counts[2] = settled;
    counts[3] = answer.iterations as u64;
    counts[4] = account.fits;
    counts[5] = account.solves;
    counts[6] = account.tries;
    counts[7] = account.points;
    counts[8] = byte as u64;
    counts[9] = answer.why as u64;
    counts[10] = account.eta;
    counts[11] = account.mean;
    counts[12] = account.pwrss;
    counts[13] = account.ok;
}

// Nothing was done for a job that cannot be read.
pub fn put_refusal(number: u64, byte: usize, counts: &mut [u64])
    requires { counts_length ≤ length counts.old }
    ensures { counts.new ≡ laid (counts_of (blank_answer number no_counts) byte) counts.old }
{
    let account = Account::none();
    let refused = Answer {
        number: number as usize,
        deviance: 0.0,
        phi: 0.0,
        order: 0,
        why: 0,
        converged: false,
        iterations: 0,
        account,
    };
    put_counts(refused, byte, counts)
}

// The refusal's number, 0 where the call was accepted.
pub fn returned(number: usize) -> u64
    ensures { result ≡ returned_by number }
{
    if model::is_end(number) {
        return 0;
    }
    number as u64
}
