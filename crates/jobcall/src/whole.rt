// A whole call: a job is read into arrays of the call's own, then refused or fitted.
ghost use Rattle.std.specs.Prelude.{◌≡◌, true, cond, ◌≤◌, length, take};
ghost use Rattle.job.specs.Job.{read_of};
ghost use Rattle.reader.specs.Reading.{roomy};
ghost use Rattle.model.specs.Inputs.{inputs, inputs_in};
ghost use Rattle.jobfit.specs.Done.{done_for};
ghost use Rattle.jobfit.specs.Room.{Fronts, fronts_of};
ghost use Rattle.jobcall.specs.Told.{buffers, told, counts_length, told_by, answered, counted, theta_by, fit_job_of, fit_job_theta_of};

use crate::counts::{put_counts, put_refusal, returned};
use jobfit::fit_fronts;
use model::{Inputs, Shape};
use reader::Header;

// The fit of a job that has been read, and its counts.
fn fit_read(
    header: Header,
    shape: Shape,
    lists: &Inputs<'_>,
    rows: &mut [f64],
    matrices: &mut [f64],
    terms: &mut [f64],
    results: &mut [f64],
    counts: &mut [u64],
) -> u64
    requires { (counts_length ≤ length counts.old)
        × Fronts header (inputs_in lists.now) }
    ensures { told result (buffers rows.new matrices.new terms.new results.new counts.new)
        ≡ told_by
        (done_for header.settings shape
        (fronts_of header (inputs_in lists.now))
        rows.old matrices.old terms.old results.old)
        counts.old }
{
    let answer = fit_fronts(header, shape, lists, rows, matrices, terms, results);
    put_counts(answer, 0, counts);
    returned(answer.number)
}

// The theta of a call: the job's own, which was read into the front of a slice, or the one beside the job.
fn theta_of<'a>(own: bool, read: &'a [f64], thetas: usize, given: &'a [f64]) -> &'a [f64]
    requires { thetas ≤ length read.now }
    ensures { result.now ≡ cond own (take thetas read.now) given.now }
{
    if own {
        return &read[0..thetas];
    }
    given
}

// A job with its own theta or with the one beside it, read into lent slices.
fn call_read(
    job: &[u8],
    own: bool,
    given: &[f64],
    theta: &mut [f64],
    y: &mut [f64],
    weights: &mut [f64],
    offset: &mut [f64],
    x: &mut [f64],
    starts: &mut [usize],
    columns: &mut [usize],
    values: &mut [f64],
    rows: &mut [f64],
    matrices: &mut [f64],
    terms: &mut [f64],
    results: &mut [f64],
    counts: &mut [u64],
) -> u64
    requires { (counts_length ≤ length counts.old)
        × (roomy (inputs theta.old y.old weights.old offset.old x.old starts.old columns.old values.old) ≡ true) }
    ensures { told result (buffers rows.new matrices.new terms.new results.new counts.new)
        ≡ answered (theta_by own given.now (read_of job.now))
        (buffers rows.old matrices.old terms.old results.old counts.old) }
{
    match reader::read_job(job, theta, y, weights, offset, x, starts, columns, values) {
        Err(fault) => {
            put_refusal(fault.number, fault.byte, counts);
            fault.number
        }
        Ok(found) => {
            let header = found.header;
            let thetas = header.thetas;
            let chosen = theta_of(own, theta, thetas, given);
            fit_read(
                header,
                found.shape,
                &Inputs {
                    theta: chosen,
                    y,
                    weights,
                    offset,
                    x,
                    starts,
                    columns,
                    values,
                },
                rows,
                matrices,
                terms,
                results,
                counts,
            )
        }
    }
}

// A call with arrays of its own for the job's lists.
fn call(
    job: &[u8],
    own: bool,
    given: &[f64],
    rows: &mut [f64],
    matrices: &mut [f64],
    terms: &mut [f64],
    results: &mut [f64],
    counts: &mut [u64],
) -> u64
    ensures { told result (buffers rows.new matrices.new terms.new results.new counts.new)
        ≡ counted (theta_by own given.now (read_of job.now))
        (buffers rows.old matrices.old terms.old results.old counts.old) }
{
    if counts.len() < 14 {
        return 2;
    }
    let mut theta = [0.0; 288];
    let mut y = [0.0; 512];
    let mut weights = [0.0; 512];
    let mut offset = [0.0; 512];
    let mut x = [0.0; 8192];
    let mut starts = [0usize; 33];
    let mut columns = [0usize; 8192];
    let mut values = [0.0; 8192];
    call_read(
        job,
        own,
        given,
        &mut theta,
        &mut y,
        &mut weights,
        &mut offset,
        &mut x,
        &mut starts,
        &mut columns,
        &mut values,
        rows,
        matrices,
        terms,
        results,
        counts,
    )
}

// The fit of a job; nothing is required.
pub fn fit_job(
    job: &[u8],
    rows: &mut [f64],
    matrices: &mut [f64],
    terms: &mut [f64],
    results: &mut [f64],
    counts: &mut [u64],
) -> u64
    ensures { told result (buffers rows.new matrices.new terms.new results.new counts.new)
        ≡ fit_job_of job.now
        (buffers rows.old matrices.old terms.old results.old counts.old) }
{
    let none = [0.0; 1];
    call(job, true, &none, rows, matrices, terms, results, counts)
}

// The fit of a job at a theta beside it; nothing is required.
pub fn fit_job_theta(
    job: &[u8],
    given: &[f64],
    rows: &mut [f64],
    matrices: &mut [f64],
    terms: &mut [f64],
    results: &mut [f64],
    counts: &mut [u64],
) -> u64
    ensures { told result (buffers rows.new matrices.new terms.new results.new counts.new)
        ≡ fit_job_theta_of job.now given.now
        (buffers rows.old matrices.old terms.old results.old counts.old) }
{
    call(job, false, given, rows, matrices, terms, results, counts)
}
