// One call of the fit: the table of refusals, then the fit of an accepted call.
ghost use Rattle.std.specs.Prelude.{◌≡◌};
ghost use Rattle.model.specs.Inputs.{inputs_in};
ghost use Rattle.call.specs.Call.{lent, left, call_of};

use crate::accepted::fit_accepted;
use model::{Answer, Inputs, Settings, Shape};
use rule::{Design, Given};
use stored::Sparse;
use table::{LentLengths, verdict_of};

// Nothing is asked of the arguments: what cannot be fitted is refused, and then every slice stays as it is.
pub fn fit(
    settings: Settings,
    shape: Shape,
    lists: &Inputs<'_>,
    beta: &mut [f64],
    se: &mut [f64],
    z: &mut [f64],
    u: &mut [f64],
    b: &mut [f64],
    mu: &mut [f64],
    eta: &mut [f64],
    residual: &mut [f64],
    v: &mut [f64],
    rows: &mut [f64],
    matrices: &mut [f64],
    terms: &mut [f64],
) -> Answer
    ensures { left result
        (lent beta.new se.new z.new u.new b.new mu.new eta.new residual.new
        v.new rows.new matrices.new terms.new)
        ≡ call_of settings shape
        (inputs_in lists.now)
        (lent beta.old se.old z.old u.old b.old mu.old eta.old
        residual.old v.old rows.old matrices.old terms.old) }
{
    let lengths = LentLengths {
        beta: beta.len(),
        se: se.len(),
        z: z.len(),
        u: u.len(),
        b: b.len(),
        mu: mu.len(),
        eta: eta.len(),
        residual: residual.len(),
        v: v.len(),
        rows: rows.len(),
        matrices: matrices.len(),
        terms: terms.len(),
    };
    let verdict = verdict_of(1, settings, shape, lists, lengths);
    match verdict {
        Ok((family, link)) => {
            let zt = Sparse {
                starts: lists.starts,
                columns: lists.columns,
                values: lists.values,
            };
            let design = Design {
                n: settings.n,
                p: settings.p,
                q: settings.rows,
                shape,
                theta: lists.theta,
                offset: lists.offset,
                x: lists.x,
                zt,
            };
            let given = Given {
                family,
                link,
                y: lists.y,
                weights: lists.weights,
                design,
            };
            let limit = model::limit_of(settings.limit, settings.link);
            fit_accepted(
                &given,
                limit,
                settings.n_agq,
                settings.start,
                beta,
                se,
                z,
                u,
                b,
                mu,
                eta,
                residual,
                v,
                rows,
                matrices,
                terms,
            )
        }
        Err(refusal) => Answer::refused(refusal),
    }
}
