// What the table is told and asked of a call of many responses.
ghost use Rattle.std.specs.Prelude.{◌≡◌, ◌≤◌};
ghost use Rattle.model.specs.Inputs.{inputs_in};
ghost use Rattle.table.specs.Table.{table_of};
ghost use Rattle.jobfit.specs.Room.{SizesFew};
ghost use Rattle.many.specs.Many.{beta_for, lengths_for};
ghost use Rattle.many.specs.Room.{DesignFronts, many_fronts};

use family::{CarriedFamily, CarriedLink};
use jobfit::results_length;
use model::{Inputs, Refusal, Settings, Shape};
use reader::Header;
use table::LentLengths;

// How much of beta the table is told of: none where the results or the counts have no room for all responses.
fn beta_for(responses: usize, settings: Settings, results: usize, counts: usize) -> usize
    requires { (responses ≤ 64) × SizesFew settings }
    ensures { result ≡ beta_for responses settings results counts }
{
    let block = results_length(settings.n, settings.p, settings.rows);
    let asked = responses * block;
    if results < asked {
        return 0;
    }
    let told = responses * 14;
    if counts < told {
        return 0;
    }
    responses * settings.p
}

// The lengths that the table is told.
pub fn lengths_for(
    responses: usize,
    settings: Settings,
    rows: usize,
    matrices: usize,
    terms: usize,
    results: usize,
    counts: usize,
) -> LentLengths
    requires { (responses ≤ 64) × SizesFew settings }
    ensures { result ≡ lengths_for responses settings rows matrices terms results counts }
{
    let beta = beta_for(responses, settings, results, counts);
    let fixed = responses * settings.p;
    let effects = responses * settings.rows;
    let observations = responses * settings.n;
    let v = fixed * settings.p;
    LentLengths {
        beta,
        se: fixed,
        z: fixed,
        u: effects,
        b: effects,
        mu: observations,
        eta: observations,
        residual: observations,
        v,
        rows,
        matrices,
        terms,
    }
}

// The verdict on the lists that stand in the fronts of the slices, with all responses; theta is taken whole.
pub fn verdict_fronts(
    responses: usize,
    header: Header,
    shape: Shape,
    lists: &Inputs<'_>,
    lent: LentLengths,
) -> Result<(CarriedFamily, CarriedLink), Refusal>
    requires { DesignFronts header (inputs_in lists.now) }
    ensures { result
        ≡ table_of responses header.settings shape
        (many_fronts header
        (inputs_in lists.now)) lent }
{
    let settings = header.settings;
    let weighted = header.weights;
    let shifted = header.offset;
    let cells = settings.n * settings.p;
    let marks = settings.rows + 1;
    let entries = settings.entries;
    table::verdict_of(
        responses,
        settings,
        shape,
        &Inputs {
            theta: lists.theta,
            y: lists.y,
            weights: &lists.weights[0..weighted],
            offset: &lists.offset[0..shifted],
            x: &lists.x[0..cells],
            starts: &lists.starts[0..marks],
            columns: &lists.columns[0..entries],
            values: &lists.values[0..entries],
        },
        lent,
    )
}
