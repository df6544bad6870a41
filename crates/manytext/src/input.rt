// The bytes that the program read: a job behind its length, and responses behind the job.
ghost use Rattle.std.specs.Prelude.{◌≡◌, ◌+◌, ◌*◌, ◌/◌, ◌<◌, ◌≤◌, min, length};
ghost use Rattle.base.specs.List.{build};
ghost use Rattle.job.specs.Job.{read_of};
ghost use Rattle.job.specs.Lists.{laid};
ghost use Rattle.manytext.specs.Input.{job_size, word_at, input_room, reading_of};
ghost use Rattle.manytext.specs.Pieces.{fitted, fit_all_of, fit_read, fit_parts, fit_input_of};

use crate::pieces::Pieces;
use job::Fault;
use model::Settings;
use reader::Header;

fn least(a: usize, b: usize) -> usize
    ensures { result ≡ min a b }
{
    if a < b {
        return a;
    }
    b
}

// The job's length, in three bytes.
fn job_size(input: &[u8]) -> usize
    ensures { (result ≡ job_size input.now) × (result < 16777216) }
{
    let high = bits::field_at(input, 0, 16);
    let low = bits::field_at(input, 16, 8);
    high * 256 + low
}

// The doubles of all whole words, into the front of out.
fn read_doubles(bytes: &[u8], out: &mut [f64])
    requires { (length bytes.now ≤ input_room) × (length bytes.now ≤ 8 * length out.old) }
    ensures { out.new ≡ laid (build (word_at bytes.now) (length bytes.now / 8)) out.old }
{
    let n = bytes.len() / 8;
    for i in 0..n {
        let v = bits::double_at(bytes, 8 * i);
        out[i] = v;
    }
}

// What is told of a job, read into arrays of its own.
fn reading_of(job: &[u8]) -> Result<Header, Fault>
    ensures { result ≡ reading_of (read_of job.now) }
{
    let mut theta = [0.0; 288];
    let mut y = [0.0; 512];
    let mut weights = [0.0; 512];
    let mut offset = [0.0; 512];
    let mut x = [0.0; 8192];
    let mut starts = [0usize; 33];
    let mut columns = [0usize; 8192];
    let mut values = [0.0; 8192];
    let found = reader::read_job(
        job,
        &mut theta,
        &mut y,
        &mut weights,
        &mut offset,
        &mut x,
        &mut starts,
        &mut columns,
        &mut values,
    )?;
    Ok(found.header)
}

// How many whole responses of n numbers there are; a job that can be read has some.
fn responses_in(words: usize, n: usize) -> usize
    ensures { result ≡ words / n }
{
    if n == 0 {
        return 0;
    }
    words / n
}

// The call, over work buffers of its own.
fn fit_all(
    job: &[u8],
    settings: Settings,
    responses: usize,
    ys: &[f64],
    results: &mut [f64],
    counts: &mut [u64],
) -> Pieces
    ensures { fitted result results.new counts.new
        ≡ fit_all_of job.now settings responses ys.now results.old counts.old }
{
    let mut rows = [0.0; 8192];
    let mut matrices = [0.0; 5696];
    let mut terms = [0.0; 7000];
    let number = many::fit_many(
        job,
        ys,
        responses,
        &mut rows,
        &mut matrices,
        &mut terms,
        results,
        counts,
    );
    if number == 0 {
        return Pieces::Responses(responses, settings);
    }
    Pieces::Refusal(number, 0)
}

// The call of a job with these numbers, of which so many stand in whole words.
fn fit_read(job: &[u8], words: usize, ys: &[f64], results: &mut [f64], counts: &mut [u64]) -> Pieces
    ensures { fitted result results.new counts.new
        ≡ fit_read (read_of job.now) job.now words ys.now results.old counts.old }
{
    match reading_of(job) {
        Err(fault) => Pieces::Refusal(fault.number, fault.byte),
        Ok(header) => {
            let settings = header.settings;
            let responses = responses_in(words, settings.n);
            fit_all(job, settings, responses, ys, results, counts)
        }
    }
}

// The call of a job and of the responses behind it; bytes left over count as one number more.
fn fit_parts(job: &[u8], rest: &[u8], results: &mut [f64], counts: &mut [u64]) -> Pieces
    requires { length rest.now ≤ input_room }
    ensures { fitted result results.new counts.new
        ≡ fit_parts job.now rest.now results.old counts.old }
{
    let mut ys = [0.0; 41473];
    read_doubles(rest, &mut ys);
    let bytes = rest.len();
    let words = bytes / 8;
    let numbers = (bytes + 7) / 8;
    fit_read(job, words, &ys[0..numbers], results, counts)
}

// The call that the bytes ask for.
pub fn fit_input(input: &[u8], results: &mut [f64], counts: &mut [u64]) -> Pieces
    requires { length input.now ≤ input_room }
    ensures { fitted result results.new counts.new
        ≡ fit_input_of input.now results.old counts.old }
{
    let end = input.len();
    let from = least(3, end);
    let size = job_size(input);
    let left = end - from;
    let held = least(size, left);
    let to = from + held;
    fit_parts(&input[from..to], &input[to..end], results, counts)
}
