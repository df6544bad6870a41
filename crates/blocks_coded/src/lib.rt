// The fit over a list of blocks by codes and plain numbers: settings with codes for names, and an answer of numbers alone, both laid out as C's structs.
// Nothing is required of any argument. `blocks_c` hands it to C.
#![tactic(auto)]

ghost use Rattle.std.specs.Prelude.{◌≡◌, cond};
ghost use Rattle.model.specs.Names.{link_coded, start_coded};
ghost use Rattle.job.specs.Job.{limit_from};
ghost use Rattle.model.specs.Inputs.{inputs};
ghost use Rattle.call.specs.Call.{lent};
ghost use Rattle.blocks_coded.specs.Coded.{named, unnamed, with_start, with_link, settings_of};
ghost use Rattle.blocks_coded.specs.Plain.{plain_of, shown, fit_blocks_of};

use blocks::Block;
use model::{Answer, Family, Link, Settings, Start};

// The settings of a call with the family, the link, the limit and the start as a job has them: by their codes, and 1023 for a limit that is not given. What requests append stands last, so that no field moves.
#[repr(C)]
#[derive(Clone, Copy)]
pub struct CodedSettings {
    pub family: usize,
    pub link: usize,
    pub n_agq: usize,
    pub limit: usize,
    pub n: usize,
    pub p: usize,
    pub rows: usize,
    pub entries: usize,
    pub start: usize,
}

// An answer as plain numbers; the flag is 0 or 1. What requests append stands last, so that no field moves.
#[repr(C)]
#[derive(Clone, Copy)]
pub struct PlainAnswer {
    pub number: u64,
    pub deviance: f64,
    pub phi: f64,
    pub order: u64,
    pub flag: u64,
    pub iterations: u64,
    pub fits: u64,
    pub solves: u64,
    pub tries: u64,
    pub points: u64,
    pub why: u64,
    pub eta: u64,
    pub mean: u64,
    pub pwrss: u64,
    pub ok: u64,
}

fn limit_in(code: usize) -> Option<usize>
    ensures { result ≡ limit_from code }
{
    if code == 1023 {
        return None;
    }
    Some(code)
}

fn with_names(coded: CodedSettings, family: Family, link: Link, start: Start) -> Settings
    ensures { result ≡ named coded family link start }
{
    let limit = limit_in(coded.limit);
    Settings {
        family,
        link,
        n_agq: coded.n_agq,
        limit,
        n: coded.n,
        p: coded.p,
        rows: coded.rows,
        entries: coded.entries,
        start,
    }
}

// A code that names nothing is a link that is not valid for its family: 4.
fn without_name(coded: CodedSettings) -> Settings
    ensures { result ≡ unnamed coded }
{
    with_names(coded, Family::Poisson, Link::Logit, Start::Usual)
}

fn with_start(coded: CodedSettings, family: Family, link: Link) -> Settings
    ensures { result ≡ with_start coded family link (start_coded coded.start) }
{
    match model::start_coded(coded.start) {
        Some(start) => with_names(coded, family, link, start),
        None => without_name(coded),
    }
}

fn with_link(coded: CodedSettings, family: Family) -> Settings
    ensures { result ≡ with_link coded family (link_coded coded.link) }
{
    match model::link_coded(coded.link) {
        Some(link) => with_start(coded, family, link),
        None => without_name(coded),
    }
}

fn settings_of(coded: CodedSettings) -> Settings
    ensures { result ≡ settings_of coded }
{
    match model::family_coded(coded.family) {
        Some(family) => with_link(coded, family),
        None => without_name(coded),
    }
}

fn flag(t: bool) -> u64
    ensures { result ≡ cond t 1 0 }
{
    if t { 1 } else { 0 }
}

fn plain(answer: Answer) -> PlainAnswer
    ensures { result ≡ plain_of answer }
{
    let account = answer.account;
    let settled = flag(answer.converged);
    PlainAnswer {
        number: answer.number as u64,
        deviance: answer.deviance,
        phi: answer.phi,
        order: answer.order as u64,
        flag: settled,
        iterations: answer.iterations as u64,
        fits: account.fits,
        solves: account.solves,
        tries: account.tries,
        points: account.points,
        why: answer.why as u64,
        eta: account.eta,
        mean: account.mean,
        pwrss: account.pwrss,
        ok: account.ok,
    }
}

// One call of the fit: `blocks::fit_blocks` of the settings that are named.
pub fn fit_coded(
    coded: CodedSettings,
    blocks: &[Block],
    theta: &[f64],
    y: &[f64],
    weights: &[f64],
    offset: &[f64],
    x: &[f64],
    starts: &[usize],
    columns: &[usize],
    values: &[f64],
    beta: &mut [f64],
    se: &mut [f64],
    z: &mut [f64],
    u: &mut [f64],
    b: &mut [f64],
    mu: &mut [f64],
    eta: &mut [f64],
    residual: &mut [f64],
    v: &mut [f64],
    rows: &mut [f64],
    matrices: &mut [f64],
    terms: &mut [f64],
) -> PlainAnswer
    ensures { shown result
        (lent beta.new se.new z.new u.new b.new mu.new eta.new residual.new
        v.new rows.new matrices.new terms.new)
        ≡ fit_blocks_of coded blocks.now
        (inputs theta.now y.now weights.now offset.now x.now starts.now columns.now
        values.now)
        (lent beta.old se.old z.old u.old b.old mu.old eta.old
        residual.old v.old rows.old matrices.old terms.old) }
{
    let settings = settings_of(coded);
    let answer = blocks::fit_blocks(
        settings, blocks, theta, y, weights, offset, x, starts, columns, values, beta, se, z, u, b,
        mu, eta, residual, v, rows, matrices, terms,
    );
    plain(answer)
}
