// A whole job: read, refused or called, and reported.
ghost use Rattle.std.specs.Prelude.{◌≡◌, true, ◌≤◌, length};
ghost use Rattle.job.specs.Job.{read_of};
ghost use Rattle.reader.specs.Reading.{roomy};
ghost use Rattle.model.specs.Inputs.{inputs, inputs_in};
ghost use Rattle.call.specs.Call.{call_of};
ghost use Rattle.report.specs.Report.{out_room};
ghost use Rattle.jobfit.specs.Room.{Fronts, fronts_of};
ghost use Rattle.output.specs.Output.{slices_with, response, left_response, response_by, respond_of, RespondLong};

use crate::flat::put_flat;
use job::Fault;
use model::{Inputs, Shape};
use reader::Header;

// The fit of a job that has been read, over the lent terms and arrays of its own, and its report. The array of the results has room for the largest sizes.
fn answer_read(
    header: Header,
    shape: Shape,
    lists: &Inputs<'_>,
    terms: &mut [f64],
    out: &mut [u8],
) -> usize
    requires { (out_room ≤ length out.old)
        × Fronts header (inputs_in lists.now) }
    ensures { response result terms.new out.new ≡ left_response
        (call_of header.settings shape
        (fronts_of header (inputs_in lists.now))
        (slices_with terms.old header.settings))
        out.old }
{
    let settings = header.settings;
    let mut rows = [0.0; 8192];
    let mut matrices = [0.0; 5696];
    let mut results = [0.0; 1906];
    let answer = jobfit::fit_fronts(
        header,
        shape,
        lists,
        &mut rows,
        &mut matrices,
        terms,
        &mut results,
    );
    put_flat(out, settings, answer, &results)
}

// Reads a job into lent slices and answers it.
fn respond_with(
    job: &[u8],
    theta: &mut [f64],
    y: &mut [f64],
    weights: &mut [f64],
    offset: &mut [f64],
    x: &mut [f64],
    starts: &mut [usize],
    columns: &mut [usize],
    values: &mut [f64],
    terms: &mut [f64],
    out: &mut [u8],
) -> usize
    requires { (out_room ≤ length out.old)
        × (roomy (inputs theta.old y.old weights.old offset.old x.old starts.old columns.old values.old) ≡ true) }
    ensures { response result terms.new out.new
        ≡ response_by (read_of job.now) terms.old out.old }
{
    match reader::read_job(job, theta, y, weights, offset, x, starts, columns, values) {
        Err(fault) => lines::refused_line(out, fault),
        Ok(found) => {
            let header = found.header;
            let thetas = header.thetas;
            answer_read(
                header,
                found.shape,
                &Inputs {
                    theta: &theta[0..thetas],
                    y,
                    weights,
                    offset,
                    x,
                    starts,
                    columns,
                    values,
                },
                terms,
                out,
            )
        }
    }
}

// Answers a job: what is to be printed stands in the front of out, and its length is told; nothing and 0 where out has no room for the longest output.
pub fn respond(job: &[u8], terms: &mut [f64], out: &mut [u8]) -> usize
    ensures { response result terms.new out.new
        ≡ respond_of job.now terms.old out.old }
{
    if out.len() < 131072 {
        return 0;
    }
    let mut theta = [0.0; 288];
    let mut y = [0.0; 512];
    let mut weights = [0.0; 512];
    let mut offset = [0.0; 512];
    let mut x = [0.0; 8192];
    let mut starts = [0usize; 33];
    let mut columns = [0usize; 8192];
    let mut values = [0.0; 8192];
    respond_with(
        job,
        &mut theta,
        &mut y,
        &mut weights,
        &mut offset,
        &mut x,
        &mut starts,
        &mut columns,
        &mut values,
        terms,
        out,
    )
}

// Answers any job that is longer than 65,536 bytes, whatever they are.
pub fn respond_long(out: &mut [u8]) -> usize
    ensures { RespondLong out.old result out.new }
{
    if out.len() < 131072 {
        return 0;
    }
    lines::refused_line(
        out,
        Fault {
            number: 25,
            byte: 65536,
        },
    )
}
