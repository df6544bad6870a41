// A whole call of many responses: a job is read once, and all responses are refused together or fitted one by one.
ghost use Rattle.std.specs.Prelude.{◌≡◌, true, ◌≤◌, length};
ghost use Rattle.job.specs.Job.{read_of};
ghost use Rattle.reader.specs.Reading.{roomy};
ghost use Rattle.model.specs.Inputs.{inputs, inputs_in};
ghost use Rattle.jobcall.specs.Told.{buffers, told, counts_length};
ghost use Rattle.many.specs.Many.{many_of, many_answered, fit_many_of};
ghost use Rattle.many.specs.Room.{few_of, DesignFronts, many_fronts};

use crate::lent::{lengths_for, verdict_fronts};
use crate::responses::fit_each;
use jobcall::put_refusal;
use model::{Inputs, Shape};
use reader::Header;

// No product is formed of more responses than these; where there are more the table refuses them before it looks at a length.
fn few_of(responses: usize) -> usize
    ensures { result ≡ few_of responses }
{
    if responses <= 64 {
        return responses;
    }
    64
}

// The call for a job that has been read: the responses stand one behind another in y, the lists of the design in the fronts of the slices. theta is taken whole.
pub fn fit_fronts_many(
    responses: usize,
    header: Header,
    shape: Shape,
    lists: &Inputs<'_>,
    rows: &mut [f64],
    matrices: &mut [f64],
    terms: &mut [f64],
    results: &mut [f64],
    counts: &mut [u64],
) -> u64
    requires { (counts_length ≤ length counts.old)
        × DesignFronts header (inputs_in lists.now) }
    ensures { told result (buffers rows.new matrices.new terms.new results.new counts.new)
        ≡ many_of responses header.settings shape
        (many_fronts header
        (inputs_in lists.now))
        (buffers rows.old matrices.old terms.old results.old counts.old) }
{
    let settings = header.settings;
    let few = few_of(responses);
    let lent = lengths_for(
        few,
        settings,
        rows.len(),
        matrices.len(),
        terms.len(),
        results.len(),
        counts.len(),
    );
    let verdict = verdict_fronts(responses, header, shape, lists, lent);
    match verdict {
        Err(refusal) => {
            let number = model::refusal_number(refusal) as u64;
            put_refusal(number, 0, counts);
            number
        }
        Ok((_, _)) => {
            fit_each(
                responses, header, shape, lists, rows, matrices, terms, results, counts,
            );
            0
        }
    }
}

// A job is read into lent slices; its own y is not looked at any further.
fn read_many(
    job: &[u8],
    responses: &[f64],
    count: usize,
    theta: &mut [f64],
    y: &mut [f64],
    weights: &mut [f64],
    offset: &mut [f64],
    x: &mut [f64],
    starts: &mut [usize],
    columns: &mut [usize],
    values: &mut [f64],
    rows: &mut [f64],
    matrices: &mut [f64],
    terms: &mut [f64],
    results: &mut [f64],
    counts: &mut [u64],
) -> u64
    requires { (counts_length ≤ length counts.old)
        × (roomy (inputs theta.old y.old weights.old offset.old x.old starts.old columns.old values.old) ≡ true) }
    ensures { told result (buffers rows.new matrices.new terms.new results.new counts.new)
        ≡ many_answered (read_of job.now) count responses.now
        (buffers rows.old matrices.old terms.old results.old counts.old) }
{
    match reader::read_job(job, theta, y, weights, offset, x, starts, columns, values) {
        Err(fault) => {
            put_refusal(fault.number, fault.byte, counts);
            fault.number
        }
        Ok(found) => {
            let header = found.header;
            let thetas = header.thetas;
            fit_fronts_many(
                count,
                header,
                found.shape,
                &Inputs {
                    theta: &theta[0..thetas],
                    y: responses,
                    weights,
                    offset,
                    x,
                    starts,
                    columns,
                    values,
                },
                rows,
                matrices,
                terms,
                results,
                counts,
            )
        }
    }
}

// The fit of a job with each of `count` responses in place of its own; nothing is required.
pub fn fit_many(
    job: &[u8],
    responses: &[f64],
    count: usize,
    rows: &mut [f64],
    matrices: &mut [f64],
    terms: &mut [f64],
    results: &mut [f64],
    counts: &mut [u64],
) -> u64
    ensures { told result (buffers rows.new matrices.new terms.new results.new counts.new)
        ≡ fit_many_of job.now responses.now count
        (buffers rows.old matrices.old terms.old results.old counts.old) }
{
    if counts.len() < 14 {
        return 2;
    }
    let mut theta = [0.0; 288];
    let mut y = [0.0; 512];
    let mut weights = [0.0; 512];
    let mut offset = [0.0; 512];
    let mut x = [0.0; 8192];
    let mut starts = [0usize; 33];
    let mut columns = [0usize; 8192];
    let mut values = [0.0; 8192];
    read_many(
        job,
        responses,
        count,
        &mut theta,
        &mut y,
        &mut weights,
        &mut offset,
        &mut x,
        &mut starts,
        &mut columns,
        &mut values,
        rows,
        matrices,
        terms,
        results,
        counts,
    )
}
