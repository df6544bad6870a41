// The single calls, one by one.
ghost use Rattle.std.specs.Prelude.{◌≡◌, ◌<◌};
ghost use Rattle.model.specs.Inputs.{inputs_in};
ghost use Rattle.jobcall.specs.Told.{buffers};
ghost use Rattle.many.specs.Many.{after_one, after_to};
ghost use Rattle.many.specs.Room.{many_fronts, Roomy};

use jobcall::put_counts;
use jobfit::{fit_fronts, results_length};
use model::{Inputs, Shape};
use reader::Header;

// Response i: its own numbers, its own block of the results, its own counts.
fn fit_response(
    i: usize,
    responses: usize,
    header: Header,
    shape: Shape,
    lists: &Inputs<'_>,
    rows: &mut [f64],
    matrices: &mut [f64],
    terms: &mut [f64],
    results: &mut [f64],
    counts: &mut [u64],
)
    requires { (i < responses)
        × Roomy responses header (inputs_in lists.now) results.old
        counts.old }
    ensures { buffers rows.new matrices.new terms.new results.new counts.new
        ≡ after_one header.settings shape
        (many_fronts header
        (inputs_in lists.now)) i
        (buffers rows.old matrices.old terms.old results.old counts.old) }
{
    let settings = header.settings;
    let n = settings.n;
    let block = results_length(n, settings.p, settings.rows);
    let from = base::offset(i, responses, n);
    let to = from + n;
    let first = base::offset(i, responses, block);
    let end = first + block;
    let at = base::offset(i, responses, 14);
    let past = at + 14;
    let answer = fit_fronts(
        header,
        shape,
        &Inputs {
            y: &lists.y[from..to],
            ..*lists
        },
        rows,
        matrices,
        terms,
        &mut results[first..end],
    );
    put_counts(answer, 0, &mut counts[at..past]);
}

// The responses in order.
pub fn fit_each(
    responses: usize,
    header: Header,
    shape: Shape,
    lists: &Inputs<'_>,
    rows: &mut [f64],
    matrices: &mut [f64],
    terms: &mut [f64],
    results: &mut [f64],
    counts: &mut [u64],
)
    requires { Roomy responses header (inputs_in lists.now) results.old
        counts.old }
    ensures { buffers rows.new matrices.new terms.new results.new counts.new
        ≡ after_to header.settings shape
        (many_fronts header
        (inputs_in lists.now)) responses
        (buffers rows.old matrices.old terms.old results.old counts.old) }
{
    for i in 0..responses {
        fit_response(
            i, responses, header, shape, lists, rows, matrices, terms, results, counts,
        );
    }
}
