// The elementary functions under C's calling convention: `double` to `double`, any argument.
#![tactic(auto)]

ghost use Rattle.std.specs.Prelude.{◌≡◌};
ghost use Rattle.elementary.specs.Exp.{exp_of};
ghost use Rattle.elementary.specs.Expm1.{expm1_of};
ghost use Rattle.elementary.specs.Log.{ln_of};
ghost use Rattle.elementary.specs.Log1p.{ln1p_of};
ghost use Rattle.log_gamma.specs.LogGamma.{ln_gamma_of};
ghost use Rattle.normal.specs.Normal.{norm_cdf, norm_pdf};
ghost use Rattle.normal.specs.Quantile.{norm_quantile};
ghost use Rattle.root.specs.Sqrt.{sqrt_of};

#[unsafe(no_mangle)]
pub extern "C" fn glmm_exp(x: f64) -> f64
    ensures { result ≡ exp_of x }
{
    elementary::exp(x)
}

#[unsafe(no_mangle)]
pub extern "C" fn glmm_exp_m1(x: f64) -> f64
    ensures { result ≡ expm1_of x }
{
    elementary::exp_m1(x)
}

#[unsafe(no_mangle)]
pub extern "C" fn glmm_ln(x: f64) -> f64
    ensures { result ≡ ln_of x }
{
    elementary::ln(x)
}

#[unsafe(no_mangle)]
pub extern "C" fn glmm_ln_1p(x: f64) -> f64
    ensures { result ≡ ln1p_of x }
{
    elementary::ln_1p(x)
}

#[unsafe(no_mangle)]
pub extern "C" fn glmm_ln_gamma(x: f64) -> f64
    ensures { result ≡ ln_gamma_of x }
{
    log_gamma::ln_gamma(x)
}

#[unsafe(no_mangle)]
pub extern "C" fn glmm_sqrt(x: f64) -> f64
    ensures { result ≡ sqrt_of x }
{
    root::sqrt(x)
}

#[unsafe(no_mangle)]
pub extern "C" fn glmm_norm_cdf(x: f64) -> f64
    ensures { result ≡ norm_cdf x }
{
    normal::norm_cdf(x)
}

#[unsafe(no_mangle)]
pub extern "C" fn glmm_norm_pdf(x: f64) -> f64
    ensures { result ≡ norm_pdf x }
{
    normal::norm_pdf(x)
}

#[unsafe(no_mangle)]
pub extern "C" fn glmm_norm_quantile(x: f64) -> f64
    ensures { result ≡ norm_quantile x }
{
    normal::norm_quantile(x)
}
