// The fit under C's calling convention, for include/glmm.h: a slice is a pointer and a length. Nothing is required of any argument.
// The elementary functions stand here again, by the definitions of elementary_c's: an archive has the functions of one crate.
#![tactic(auto)]

ghost use Rattle.std.specs.Prelude.{◌≡◌};
ghost use Rattle.elementary.specs.Exp.{exp_of};
ghost use Rattle.elementary.specs.Expm1.{expm1_of};
ghost use Rattle.elementary.specs.Log.{ln_of};
ghost use Rattle.elementary.specs.Log1p.{ln1p_of};
ghost use Rattle.log_gamma.specs.LogGamma.{ln_gamma_of};
ghost use Rattle.normal.specs.Normal.{norm_cdf, norm_pdf};
ghost use Rattle.normal.specs.Quantile.{norm_quantile};
ghost use Rattle.root.specs.Sqrt.{sqrt_of};
ghost use Rattle.layout.specs.WorkTerms.{terms_length};
ghost use Rattle.jobcall.specs.Told.{buffers, told, fit_job_of, fit_job_theta_of};
ghost use Rattle.many.specs.Many.{fit_many_of};
ghost use Rattle.lengths.specs.Asked.{rows_asked, matrices_asked};
ghost use Rattle.jobcall.specs.Results.{results_asked};

#[unsafe(no_mangle)]
pub extern "C" fn glmm_rows_length(n: usize) -> usize
    ensures { result ≡ rows_asked n }
{
    lengths::rows_asked(n)
}

#[unsafe(no_mangle)]
pub extern "C" fn glmm_matrices_length(p: usize, q: usize) -> usize
    ensures { result ≡ matrices_asked p q }
{
    lengths::matrices_asked(p, q)
}

#[unsafe(no_mangle)]
pub extern "C" fn glmm_terms_length() -> usize
    ensures { result ≡ terms_length }
{
    layout::terms_length()
}

#[unsafe(no_mangle)]
pub extern "C" fn glmm_results_length(n: usize, p: usize, q: usize) -> usize
    ensures { result ≡ results_asked n p q }
{
    jobcall::results_asked(n, p, q)
}

#[unsafe(no_mangle)]
pub extern "C" fn glmm_fit_job(
    job: &[u8],
    rows: &mut [f64],
    matrices: &mut [f64],
    terms: &mut [f64],
    results: &mut [f64],
    counts: &mut [u64],
) -> u64
    ensures { told result (buffers rows.new matrices.new terms.new results.new counts.new)
        ≡ fit_job_of job.now (buffers rows.old matrices.old terms.old results.old counts.old) }
{
    jobcall::fit_job(job, rows, matrices, terms, results, counts)
}

#[unsafe(no_mangle)]
pub extern "C" fn glmm_fit_job_theta(
    job: &[u8],
    theta: &[f64],
    rows: &mut [f64],
    matrices: &mut [f64],
    terms: &mut [f64],
    results: &mut [f64],
    counts: &mut [u64],
) -> u64
    ensures { told result (buffers rows.new matrices.new terms.new results.new counts.new)
        ≡ fit_job_theta_of job.now theta.now
        (buffers rows.old matrices.old terms.old results.old counts.old) }
{
    jobcall::fit_job_theta(job, theta, rows, matrices, terms, results, counts)
}

#[unsafe(no_mangle)]
pub extern "C" fn glmm_fit_many(
    job: &[u8],
    responses: &[f64],
    count: usize,
    rows: &mut [f64],
    matrices: &mut [f64],
    terms: &mut [f64],
    results: &mut [f64],
    counts: &mut [u64],
) -> u64
    ensures { told result (buffers rows.new matrices.new terms.new results.new counts.new)
        ≡ fit_many_of job.now responses.now count
        (buffers rows.old matrices.old terms.old results.old counts.old) }
{
    many::fit_many(
        job, responses, count, rows, matrices, terms, results, counts,
    )
}

#[unsafe(no_mangle)]
pub extern "C" fn glmm_exp(x: f64) -> f64
    ensures { result ≡ exp_of x }
{
    elementary::exp(x)
}

#[unsafe(no_mangle)]
pub extern "C" fn glmm_exp_m1(x: f64) -> f64
    ensures { result ≡ expm1_of x }
{
    elementary::exp_m1(x)
}

#[unsafe(no_mangle)]
pub extern "C" fn glmm_ln(x: f64) -> f64
    ensures { result ≡ ln_of x }
{
    elementary::ln(x)
}

#[unsafe(no_mangle)]
pub extern "C" fn glmm_ln_1p(x: f64) -> f64
    ensures { result ≡ ln1p_of x }
{
    elementary::ln_1p(x)
}

#[unsafe(no_mangle)]
pub extern "C" fn glmm_ln_gamma(x: f64) -> f64
    ensures { result ≡ ln_gamma_of x }
{
    log_gamma::ln_gamma(x)
}

#[unsafe(no_mangle)]
pub extern "C" fn glmm_sqrt(x: f64) -> f64
    ensures { result ≡ sqrt_of x }
{
    root::sqrt(x)
}

#[unsafe(no_mangle)]
pub extern "C" fn glmm_norm_cdf(x: f64) -> f64
    ensures { result ≡ norm_cdf x }
{
    normal::norm_cdf(x)
}

#[unsafe(no_mangle)]
pub extern "C" fn glmm_norm_pdf(x: f64) -> f64
    ensures { result ≡ norm_pdf x }
{
    normal::norm_pdf(x)
}

#[unsafe(no_mangle)]
pub extern "C" fn glmm_norm_quantile(x: f64) -> f64
    ensures { result ≡ norm_quantile x }
{
    normal::norm_quantile(x)
}
