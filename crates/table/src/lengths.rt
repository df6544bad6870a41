// The tests of the number of responses and of the lengths, after the sizes have passed theirs.
ghost use Rattle.std.specs.Prelude.{◌≡◌, true, ◌≤◌};
ghost use Rattle.model.specs.Settings.{good_sizes, Sizes};
ghost use Rattle.table.specs.Tests.{good_count, absent_or, good_inputs, good_results, good_work};
ghost use Rattle.model.specs.Inputs.{inputs_in};

use crate::verdicts::LentLengths;
use model::{Inputs, Settings, Shape};

// Whether a call may have so many responses.
pub fn count_ok(responses: usize) -> bool
    ensures { result ≡ good_count responses }
{
    if responses < 1 {
        return false;
    }
    responses <= 64
}

// A list that may be absent is empty or has one number for each observation.
fn absent_or(n: usize, length: usize) -> bool
    ensures { result ≡ absent_or n length }
{
    if length == 0 {
        return true;
    }
    length == n
}

// Whether each lent input is as long as the sizes say.
pub fn inputs_ok(responses: usize, settings: Settings, shape: Shape, lists: &Inputs<'_>) -> bool
    requires { (good_sizes settings shape ≡ true) × (responses ≤ 64) }
    ensures { result
        ≡ good_inputs responses settings shape
        (inputs_in lists.now) }
{
    if lists.theta.len() != model::theta_length(shape) {
        return false;
    }
    if lists.y.len() != responses * settings.n {
        return false;
    }
    if !absent_or(settings.n, lists.weights.len()) {
        return false;
    }
    if !absent_or(settings.n, lists.offset.len()) {
        return false;
    }
    if lists.x.len() != settings.n * settings.p {
        return false;
    }
    if lists.starts.len() != settings.rows + 1 {
        return false;
    }
    if lists.columns.len() != settings.entries {
        return false;
    }
    lists.values.len() == settings.entries
}

// Whether each lent result is as long as the sizes say.
pub fn results_ok(responses: usize, settings: Settings, lent: LentLengths) -> bool
    requires { (Sizes settings.n settings.p settings.rows) × (responses ≤ 64) }
    ensures { result ≡ good_results responses settings lent }
{
    let fixed = responses * settings.p;
    let effects = responses * settings.rows;
    let observations = responses * settings.n;
    if lent.beta != fixed {
        return false;
    }
    if lent.se != fixed {
        return false;
    }
    if lent.z != fixed {
        return false;
    }
    if lent.u != effects {
        return false;
    }
    if lent.b != effects {
        return false;
    }
    if lent.mu != observations {
        return false;
    }
    if lent.eta != observations {
        return false;
    }
    if lent.residual != observations {
        return false;
    }
    lent.v == fixed * settings.p
}

// Whether each lent work slice has the room that is named.
pub fn work_ok(settings: Settings, lent: LentLengths) -> bool
    requires { Sizes settings.n settings.p settings.rows }
    ensures { result ≡ good_work settings lent }
{
    if lent.rows < layout::rows_length(settings.n) {
        return false;
    }
    if lent.matrices < layout::matrices_length(settings.p, settings.rows) {
        return false;
    }
    layout::terms_length() <= lent.terms
}
