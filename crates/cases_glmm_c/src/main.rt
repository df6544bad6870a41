// Calls what glmm_c's exports hand on to, but for many responses: the lengths, the elementary functions, and the fit of a job with lent buffers of given lengths. Prints what is
// returned and what stands in every buffer. Every array holds 9.25, or 77, before a call, and a call is lent the beginnings of the arrays: what stands
// behind must stay. It is fed as tools/cases/glmm_c.py says.
#![tactic(auto)]

// The lengths for n observations, p columns and q effects.
fn put_lengths() {
    let n = fed::count();
    let p = fed::count();
    let q = fed::count();
    text::put_word(b"lengths");
    text::put_count(lengths::rows_asked(n) as u64);
    text::put_count(lengths::matrices_asked(p, q) as u64);
    text::put_count(layout::terms_length() as u64);
    text::put_count(jobcall::results_asked(n, p, q) as u64);
    text::end_line();
}

// The elementary functions at the next number.
fn put_values(x: f64) {
    text::put_word(b"at");
    text::put_double(x);
    text::put_double(root::sqrt(x));
    text::put_double(elementary::exp(x));
    text::put_double(elementary::ln(x));
    text::put_double(elementary::ln_1p(x));
    text::put_double(elementary::exp_m1(x));
    text::put_double(log_gamma::ln_gamma(x));
    text::put_double(normal::norm_cdf(x));
    text::put_double(normal::norm_pdf(x));
    text::put_double(normal::norm_quantile(x));
    text::end_line();
}

fn put_counts(counts: &[u64]) {
    for count in counts {
        text::put_count(*count);
    }
}

// The fit of a job at its own theta, or at the one beside it.
fn call(
    job: &[u8],
    beside: Option<&[f64]>,
    rows: &mut [f64],
    matrices: &mut [f64],
    terms: &mut [f64],
    results: &mut [f64],
    counts: &mut [u64],
) -> u64 {
    match beside {
        Some(theta) => {
            jobcall::fit_job_theta(job, theta, rows, matrices, terms, results, counts)
        }
        None => jobcall::fit_job(job, rows, matrices, terms, results, counts),
    }
}

// Fills the arrays, calls and prints.
fn lend(job: &[u8], beside: Option<&[f64]>) {
    let mut rows = [9.25; 72];
    let mut matrices = [9.25; 152];
    let mut terms = [9.25; 7008];
    let mut results = [9.25; 40];
    let mut counts = [77u64; 16];
    let returned = call(
        job,
        beside,
        fed::lent(&mut rows),
        fed::lent(&mut matrices),
        fed::lent(&mut terms),
        fed::lent(&mut results),
        fed::lent(&mut counts),
    );
    text::put_word(b": returned");
    text::put_count(returned);
    text::put_word(b" counts");
    put_counts(&counts);
    fed::put_work(b" rows", &rows);
    fed::put_work(b" matrices", &matrices);
    fed::put_work(b" terms", &terms);
    text::end_line();
    text::put_list(b"results", &results, 40);
}

// Whether there is a theta beside the job, the bytes of the job behind their count, and the numbers that the theta is a part of.
fn next_call() {
    let beside = fed::count() == 1;
    let mut space = [0u8; 1024];
    let job = fed::bytes(&mut space, fed::count());
    let xs = fed::next_numbers::<4>();
    let theta = fed::part(&xs, 0);
    lend(job, beside.then_some(theta));
}

fn main() {
    for _ in 0..16 {
        put_lengths();
    }
    for _ in 0..16 {
        put_values(fed::number());
    }
    fed::each_call(next_call);
}
