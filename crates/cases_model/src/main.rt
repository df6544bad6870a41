// Runs the functions of `model` and `layout` on sizes in and out of range and prints every answer, one line a call.
// The calls, and the words that their lines begin with, are fed by tools/cases/model.py; sums and places, which have their ranges, stand here.
#![tactic(auto)]

ghost use Rattle.std.specs.Prelude.{◌≡◌, true, ◌≤◌};
ghost use Rattle.model.specs.Account.{SumFits};
ghost use Rattle.model.specs.Shape.{good_shape};

use model::{Account, Answer, End, Family, Link, Refusal, Settings, Shape, Start};

fn put_size(n: usize) {
    text::put_count(n as u64);
}

fn put_family(family: Family) {
    match family {
        Family::Binomial => text::put_word(b" binomial"),
        Family::Poisson => text::put_word(b" Poisson"),
        Family::Gaussian => text::put_word(b" Gaussian"),
        Family::Gamma => text::put_word(b" Gamma"),
    }
}

fn put_link(link: Link) {
    match link {
        Link::Logit => text::put_word(b" logit"),
        Link::Probit => text::put_word(b" probit"),
        Link::Cloglog => text::put_word(b" cloglog"),
        Link::Log => text::put_word(b" log"),
        Link::Identity => text::put_word(b" identity"),
        Link::Inverse => text::put_word(b" inverse"),
        Link::Sqrt => text::put_word(b" sqrt"),
    }
}

fn put_start(start: Start) {
    match start {
        Start::Usual => text::put_word(b" usual"),
        Start::Trials => text::put_word(b" trials"),
    }
}

// From a code to the family, and back.
fn family() {
    match model::family_coded(fed::count()) {
        Some(f) => {
            put_family(f);
            put_size(model::family_code(f));
        }
        None => text::put_word(b" none"),
    }
}

// From a code to the link, and back.
fn link() {
    match model::link_coded(fed::count()) {
        Some(l) => {
            put_link(l);
            put_size(model::link_code(l));
        }
        None => text::put_word(b" none"),
    }
}

// From a code to the start, and back.
fn start() {
    match model::start_coded(fed::count()) {
        Some(s) => {
            put_start(s);
            put_size(model::start_code(s));
        }
        None => text::put_word(b" none"),
    }
}

// The limit that a link has by itself, and limits that are given.
fn limit(link: Link) {
    put_link(link);
    text::put_test(model::is_inverse(link));
    put_size(model::limit_of(None, link));
    put_size(model::limit_of(Some(0), link));
    put_size(model::limit_of(Some(1), link));
    put_size(model::limit_of(Some(1000), link));
}

// How many effects and numbers of theta there are, and where those of each block begin.
fn put_blocks(shape: Shape)
    requires { good_shape shape ≡ true }
{
    put_size(model::effects(shape));
    put_size(model::theta_length(shape));
    for i in 0..shape.count {
        put_size(model::first_effect(shape, i));
        put_size(model::first_theta(shape, i));
    }
}

fn put_shape(shape: Shape) {
    let good = model::shape_ok(shape);
    text::put_test(good);
    if good {
        put_blocks(shape);
    }
}

fn next_shape() -> Shape {
    Shape {
        count: fed::count(),
        m: fed::next_counts(),
        k: fed::next_counts(),
    }
}

fn next_settings() -> Settings {
    let limit = fed::limit();
    Settings {
        family: Family::Poisson,
        link: Link::Log,
        n_agq: 1,
        limit,
        n: fed::count(),
        p: fed::count(),
        rows: fed::count(),
        entries: fed::count(),
        start: Start::Usual,
    }
}

fn put_answer(answer: Answer) {
    put_size(answer.number);
    text::put_double(answer.deviance);
    text::put_double(answer.phi);
    put_size(answer.order);
    put_size(answer.why);
    text::put_test(answer.converged);
    put_size(answer.iterations);
    fed::put_account(answer.account);
}

// The refusal of the next code, in the order of the table.
fn next_refusal() -> Refusal {
    match fed::count() {
        0 => Refusal::OutOfRange,
        1 => Refusal::Responses,
        2 => Refusal::Lengths,
        3 => Refusal::Work,
        4 => Refusal::SparseRows,
        5 => Refusal::NotFinite,
        6 => Refusal::LinkForFamily,
        7 => Refusal::ResponseRange,
        _ => Refusal::StartFit,
    }
}

fn refused(refusal: Refusal) {
    put_size(model::refusal_number(refusal));
    put_answer(Answer::refused(refusal));
}

// An account whose eight counts differ.
const WORK: Account = Account {
    fits: 241,
    solves: 1205,
    tries: 4820,
    points: 14461,
    eta: 2400,
    mean: 1000,
    pwrss: 220,
    ok: 1200,
};

fn next_end() -> End {
    match fed::count() {
        0 => End::SystemPivot,
        1 => End::NormalPivot,
        2 => End::NoStep,
        _ => End::NoStop,
    }
}

fn unfitted(end: End) {
    put_size(model::end_number(end));
    put_answer(Answer::unfitted(end, WORK));
}

fn fitted() {
    put_answer(Answer::fitted(
        fed::number(),
        fed::number(),
        fed::count(),
        fed::count(),
        fed::count() == 1,
        fed::count(),
        WORK,
    ));
}

// What an account is summed from.
fn items() {
    fed::put_account(Account::none());
    fed::put_account(Account::of_points(fed::word()));
    fed::put_account(Account::one_fit());
    fed::put_account(Account::one_solve());
}

// The call of a code.
fn run(code: usize) {
    match code {
        0 => family(),
        1 => link(),
        2 => limit(fed::link()),
        3 => put_shape(next_shape()),
        4 => text::put_test(model::sizes_ok(next_settings(), next_shape())),
        5 => refused(next_refusal()),
        6 => unfitted(next_end()),
        7 => fitted(),
        8 => items(),
        9 => start(),
        _ => text::put_test(model::is_end(fed::count())),
    }
    text::end_line();
}

fn sum(a: Account, b: Account)
    requires { SumFits a b }
{
    fed::put_name();
    fed::put_account(a.plus(b));
    text::end_line();
}

// A sum whose eight counts differ, and sums at the end of the range.
fn sums() {
    let b = Account {
        fits: 3,
        solves: 50,
        tries: 700,
        points: 11000,
        eta: 500,
        mean: 30,
        pwrss: 120,
        ok: 50,
    };
    sum(WORK, b);
    let most = Account {
        fits: 18446744073709551615,
        solves: 9223372036854775808,
        tries: 0,
        points: 1,
        eta: 18446744073709551613,
        mean: 0,
        pwrss: 4611686018427387904,
        ok: 18446744073709551615,
    };
    let rest = Account {
        fits: 0,
        solves: 9223372036854775807,
        tries: 18446744073709551615,
        points: 18446744073709551614,
        eta: 2,
        mean: 18446744073709551615,
        pwrss: 13835058055282163711,
        ok: 0,
    };
    sum(most, rest);
}

fn put_quadrature_rows(n: usize)
    requires { n ≤ 512 }
{
    put_size(layout::xbeta_row(n));
    put_size(layout::deviance_row(n));
    put_size(layout::point_row(n));
    put_size(layout::mark_row(n));
}

fn rows(n: usize)
    requires { n ≤ 512 }
{
    fed::put_name();
    put_size(layout::second_eta_row(n));
    put_size(layout::mu_row(n));
    put_size(layout::raw_row(n));
    put_quadrature_rows(n);
    put_size(layout::weighted_row(n));
    put_size(layout::working_row(n));
    put_size(layout::rows_length(n));
    text::end_line();
}

fn put_vectors(p: usize, q: usize)
    requires { (p ≤ 16) × (q ≤ 32) }
{
    put_size(layout::wy_at(p, q));
    put_size(layout::u_at(p, q));
    put_size(layout::b_at(p, q));
}

fn put_more_vectors(p: usize, q: usize)
    requires { (p ≤ 16) × (q ≤ 32) }
{
    put_size(layout::trial_u_at(p, q));
    put_size(layout::beta_at(p, q));
    put_size(layout::beta_end(p, q));
}

fn matrices(p: usize, q: usize)
    requires { (p ≤ 16) × (q ≤ 32) }
{
    fed::put_name();
    put_size(layout::inverse_at(q));
    put_size(layout::solved_at(q));
    put_size(layout::root_inverse_at(p, q));
    put_vectors(p, q);
    put_more_vectors(p, q);
    put_size(layout::matrices_length(p, q));
    text::end_line();
}

fn terms(n: usize, p: usize, q: usize)
    requires { (n ≤ 512) × (p ≤ 16) × (q ≤ 32) }
{
    fed::put_name();
    put_size(layout::factor_at());
    put_size(layout::w_at(q));
    put_size(layout::z_at(n, q));
    put_size(layout::unsolved_at(n, q));
    put_size(layout::normal_at(n, p, q));
    put_size(layout::spare_at(n, p, q));
    put_size(layout::terms_length());
    text::end_line();
}

// Every place of the three work slices.
fn places(n: usize, p: usize, q: usize)
    requires { (n ≤ 512) × (p ≤ 16) × (q ≤ 32) }
{
    rows(n);
    matrices(p, q);
    terms(n, p, q);
}

fn main() {
    fed::each_call(|| run(fed::count()));
    sums();
    places(1, 1, 1);
    places(512, 16, 32);
    places(7, 3, 5);
    places(100, 16, 2);
}
