// The call of the fit for a job that has been read; what it fits is written into the lent buffer.
ghost use Rattle.std.specs.Prelude.{◌≡◌, ◌≤◌};
ghost use Rattle.results.specs.Nine.{nine};
ghost use Rattle.model.specs.Inputs.{inputs_in};
ghost use Rattle.call.specs.Call.{lent, call_of};
ghost use Rattle.jobfit.specs.Done.{results_length, beta_length, done, done_of, done_for};
ghost use Rattle.jobfit.specs.Room.{SizesFew, Fronts, fronts_of, RoomFor};

use crate::copies::put_numbers;
use glmm::fit;
use model::{Answer, Inputs, Settings, Shape};
use reader::Header;

// How many numbers a fitted call writes.
pub fn results_length(n: usize, p: usize, q: usize) -> usize
    requires { (n ≤ 512) × (p ≤ 16) × (q ≤ 32) }
    ensures { result ≡ results_length n p q }
{
    let cells = p * p;
    2 + 3 * p + 2 * q + 3 * n + cells
}

// How much of beta is lent: none where the results have no room.
fn beta_length(settings: Settings, room: usize) -> usize
    requires { SizesFew settings }
    ensures { result ≡ beta_length settings room }
{
    let asked = results_length(settings.n, settings.p, settings.rows);
    if asked <= room {
        return settings.p;
    }
    0
}

// The fit over lent slices; a fitted call's numbers go into `results`.
fn fit_written(
    settings: Settings,
    shape: Shape,
    lists: &Inputs<'_>,
    beta: &mut [f64],
    se: &mut [f64],
    z: &mut [f64],
    u: &mut [f64],
    b: &mut [f64],
    mu: &mut [f64],
    eta: &mut [f64],
    residual: &mut [f64],
    v: &mut [f64],
    rows: &mut [f64],
    matrices: &mut [f64],
    terms: &mut [f64],
    results: &mut [f64],
) -> Answer
    requires { RoomFor (nine beta.old se.old z.old u.old b.old mu.old eta.old residual.old v.old) results.old }
    ensures { done result rows.new matrices.new terms.new results.new
        ≡ done_of
        (call_of settings shape
        (inputs_in lists.now)
        (lent beta.old se.old z.old u.old b.old mu.old eta.old
        residual.old v.old rows.old matrices.old terms.old)) results.old }
{
    let answer = fit(
        settings, shape, lists, beta, se, z, u, b, mu, eta, residual, v, rows, matrices, terms,
    );
    if answer.number != 0 {
        return answer;
    }
    put_numbers(answer, beta, se, z, u, b, mu, eta, residual, v, results);
    answer
}

// The fit over nine arrays of its own, of which the parts are lent that the sizes ask for.
fn fit_results(
    settings: Settings,
    shape: Shape,
    lists: &Inputs<'_>,
    rows: &mut [f64],
    matrices: &mut [f64],
    terms: &mut [f64],
    results: &mut [f64],
) -> Answer
    requires { SizesFew settings }
    ensures { done result rows.new matrices.new terms.new results.new
        ≡ done_for settings shape
        (inputs_in lists.now) rows.old matrices.old terms.old results.old }
{
    let n = settings.n;
    let p = settings.p;
    let q = settings.rows;
    let cells = p * p;
    let room = results.len();
    let width = beta_length(settings, room);
    let mut beta = [0.0; 16];
    let mut se = [0.0; 16];
    let mut z = [0.0; 16];
    let mut u = [0.0; 32];
    let mut b = [0.0; 32];
    let mut mu = [0.0; 512];
    let mut eta = [0.0; 512];
    let mut residual = [0.0; 512];
    let mut v = [0.0; 256];
    fit_written(
        settings,
        shape,
        lists,
        &mut beta[0..width],
        &mut se[0..p],
        &mut z[0..p],
        &mut u[0..q],
        &mut b[0..q],
        &mut mu[0..n],
        &mut eta[0..n],
        &mut residual[0..n],
        &mut v[0..cells],
        rows,
        matrices,
        terms,
        results,
    )
}

// The fit of the lists that stand in the fronts of the slices; an absent list is an empty part. theta is taken whole.
pub fn fit_fronts(
    header: Header,
    shape: Shape,
    lists: &Inputs<'_>,
    rows: &mut [f64],
    matrices: &mut [f64],
    terms: &mut [f64],
    results: &mut [f64],
) -> Answer
    requires { Fronts header (inputs_in lists.now) }
    ensures { done result rows.new matrices.new terms.new results.new
        ≡ done_for header.settings shape
        (fronts_of header
        (inputs_in lists.now)) rows.old matrices.old terms.old results.old }
{
    let settings = header.settings;
    let weighted = header.weights;
    let shifted = header.offset;
    let n = settings.n;
    let p = settings.p;
    let cells = n * p;
    let marks = settings.rows + 1;
    let entries = settings.entries;
    fit_results(
        settings,
        shape,
        &Inputs {
            theta: lists.theta,
            y: &lists.y[0..n],
            weights: &lists.weights[0..weighted],
            offset: &lists.offset[0..shifted],
            x: &lists.x[0..cells],
            starts: &lists.starts[0..marks],
            columns: &lists.columns[0..entries],
            values: &lists.values[0..entries],
        },
        rows,
        matrices,
        terms,
        results,
    )
}
