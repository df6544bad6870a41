// The report of a fit whose results stand in one buffer, a list behind another.
ghost use Rattle.std.specs.Prelude.{◌≤◌, length};
ghost use Rattle.lines.specs.Lines.{Written};
ghost use Rattle.report.specs.Report.{out_room, answer_text};
ghost use Rattle.jobfit.specs.Done.{results_length};
ghost use Rattle.jobfit.specs.Room.{SizesFew};
ghost use Rattle.respond.specs.Flat.{lists_of};

use model::{Answer, Settings};

// The sizes say where each list begins.
pub fn put_flat(out: &mut [u8], settings: Settings, answer: Answer, results: &[f64]) -> usize
    requires { (out_room ≤ length out.old) × SizesFew settings × (results_length settings.n settings.p settings.rows ≤ length results.now) }
    ensures { Written (answer_text answer (lists_of settings.n settings.p settings.rows results.now)) out.old result out.new }
{
    let n = settings.n;
    let p = settings.p;
    let q = settings.rows;
    let cells = p * p;
    let se = 2 + p;
    let z = se + p;
    let u = z + p;
    let b = u + q;
    let mu = b + q;
    let eta = mu + n;
    let residual = eta + n;
    let v = residual + n;
    let end = v + cells;
    report::put_answer(
        out,
        answer,
        &results[2..se],
        &results[se..z],
        &results[z..u],
        &results[u..b],
        &results[b..mu],
        &results[mu..eta],
        &results[eta..residual],
        &results[residual..v],
        &results[v..end],
    )
}
