// The tests of the table, asked in its order.
ghost use Rattle.std.specs.Prelude.{◌≡◌};
ghost use Rattle.model.specs.Inputs.{inputs_in};
ghost use Rattle.table.specs.Table.{table_of};

use crate::lengths::{count_ok, inputs_ok, results_ok, work_ok};
use crate::numbers::{numbers_ok, responses_ok, start_ok};
use family::{CarriedFamily, CarriedLink};
use model::{Inputs, Refusal, Settings, Shape};

// How long the lent results and the lent work slices are.
#[derive(Clone, Copy)]
pub struct LentLengths {
    pub beta: usize,
    pub se: usize,
    pub z: usize,
    pub u: usize,
    pub b: usize,
    pub mu: usize,
    pub eta: usize,
    pub residual: usize,
    pub v: usize,
    pub rows: usize,
    pub matrices: usize,
    pub terms: usize,
}

// The first test that fails gives the refusal. Each test may rely on those before it: no product is formed of sizes or of a number of responses out of range, and no entry is read past a length.
pub fn verdict_of(
    responses: usize,
    settings: Settings,
    shape: Shape,
    lists: &Inputs<'_>,
    lent: LentLengths,
) -> Result<(CarriedFamily, CarriedLink), Refusal>
    ensures { result
        ≡ table_of responses settings shape
        (inputs_in lists.now) lent }
{
    if !model::sizes_ok(settings, shape) {
        return Err(Refusal::OutOfRange);
    }
    if !count_ok(responses) {
        return Err(Refusal::Responses);
    }
    if !inputs_ok(responses, settings, shape, lists) {
        return Err(Refusal::Lengths);
    }
    if !results_ok(responses, settings, lent) {
        return Err(Refusal::Lengths);
    }
    if !work_ok(settings, lent) {
        return Err(Refusal::Work);
    }
    if !base::rows_ok(lists.starts, lists.columns, settings.rows, settings.n) {
        return Err(Refusal::SparseRows);
    }
    if !numbers_ok(
        lists.theta,
        lists.y,
        lists.weights,
        lists.offset,
        lists.x,
        lists.values,
    ) {
        return Err(Refusal::NotFinite);
    }
    let family = settings.family;
    let link = settings.link;
    if !family::valid_for(link, family) {
        return Err(Refusal::LinkForFamily);
    }
    let carried = family::carried_family(family);
    if !responses_ok(carried, lists.y) {
        return Err(Refusal::ResponseRange);
    }
    let start = settings.start;
    if !start_ok(start, carried, lists.weights) {
        return Err(Refusal::StartFit);
    }
    Ok((carried, family::carried_link(link)))
}
