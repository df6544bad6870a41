// Reads jobs from standard input, each behind one more than its length, and prints what reading answers and leaves in the lent slices.
// The slices hold 9 before; of each list one number more is printed than the job has, which stays.
#![tactic(auto)]

ghost use Rattle.std.specs.Prelude.{◌≤◌, length};

use job::Fault;
use model::{Account, Answer, Inputs, Shape};
use reader::Header;

fn put_refused(fault: Fault) {
    let mut buffer = [0u8; 256];
    let n = lines::refused_line(&mut buffer, fault);
    text::put_word(fed::front(&buffer, n));
}

fn put_end(answer: Answer) {
    let mut buffer = [0u8; 512];
    let n = lines::end_line(&mut buffer, answer);
    text::put_word(fed::front(&buffer, n));
}

fn put_value(name: &[u8], index: usize, x: f64)
    requires { length name.now ≤ 128 }
{
    let mut buffer = [0u8; 256];
    let n = lines::value_line(&mut buffer, name, index, x);
    text::put_word(fed::front(&buffer, n));
}

// The first n counts, after a word.
fn put_counts(word: &[u8], xs: &[usize], n: usize) {
    text::put_word(word);
    for x in fed::front(xs, n) {
        text::put_count(*x as u64);
    }
    text::end_line();
}

// The first n doubles and the one behind them, after a word.
fn put_doubles(word: &[u8], xs: &[f64], n: usize) {
    text::put_list(word, xs, (n.min(8192) + 1).min(xs.len()));
}

fn put_limit(limit: Option<usize>) {
    match limit {
        Some(l) => text::put_count(l as u64),
        None => text::put_word(b" none"),
    }
}

fn put_header(header: Header) {
    let settings = header.settings;
    text::put_word(b"accepted");
    text::put_count(model::family_code(settings.family) as u64);
    text::put_count(model::link_code(settings.link) as u64);
    text::put_count(settings.n_agq as u64);
    put_limit(settings.limit);
    text::put_count(settings.n as u64);
    text::put_count(settings.p as u64);
    text::put_count(settings.rows as u64);
    text::put_count(settings.entries as u64);
    text::put_count(model::start_code(settings.start) as u64);
    text::put_count(header.thetas as u64);
    text::put_count(header.weights as u64);
    text::put_count(header.offset as u64);
    text::end_line();
}

fn put_shape(shape: Shape) {
    text::put_word(b"blocks");
    text::put_count(shape.count as u64);
    for (m, k) in shape.m.iter().zip(&shape.k) {
        text::put_count(*m as u64);
        text::put_count(*k as u64);
    }
    text::end_line();
}

// Each double of y on a line of its own, as the program prints its results.
fn put_values(y: &[f64], n: usize) {
    for (i, x) in fed::front(y, n).iter().enumerate() {
        put_value(b"y", i, *x);
    }
}

// How many numbers X has, which are at most 8192.
#[tactic(auto, using(job::proofs::SizeLaws::grid_few))]
fn cells(n: usize, p: usize) -> usize
    ensures { result ≤ 8192 }
{
    if n <= 512 && p <= 16 { n * p } else { 0 }
}

// The lists of an accepted job.
fn put_lists(header: Header, lists: &Inputs<'_>) {
    let settings = header.settings;
    put_doubles(b"theta", lists.theta, header.thetas);
    put_doubles(b"y", lists.y, settings.n);
    put_doubles(b"weights", lists.weights, header.weights);
    put_doubles(b"offset", lists.offset, header.offset);
    put_doubles(b"x", lists.x, cells(settings.n, settings.p));
}

// The rows of Z' of an accepted job.
fn put_rows(header: Header, lists: &Inputs<'_>) {
    let settings = header.settings;
    let entries = settings.entries;
    put_counts(b"starts", lists.starts, settings.rows.min(32) + 2);
    put_counts(b"columns", lists.columns, entries.min(8192) + 1);
    put_doubles(b"values", lists.values, entries);
}

fn put_accepted(header: Header, shape: Shape, lists: &Inputs<'_>) {
    put_header(header);
    put_shape(shape);
    put_lists(header, lists);
    put_rows(header, lists);
    put_values(lists.y, header.settings.n);
}

// What reading answers and leaves in the slices.
fn one_job(job: &[u8]) {
    let mut theta = [9.0; 289];
    let mut y = [9.0; 513];
    let mut weights = [9.0; 513];
    let mut offset = [9.0; 513];
    let mut x = [9.0; 8193];
    let mut starts = [9usize; 34];
    let mut columns = [9usize; 8193];
    let mut values = [9.0; 8193];
    let reading = reader::read_job(
        job,
        &mut theta,
        &mut y,
        &mut weights,
        &mut offset,
        &mut x,
        &mut starts,
        &mut columns,
        &mut values,
    );
    match reading {
        Err(fault) => put_refused(fault),
        Ok(found) => put_accepted(
            found.header,
            found.shape,
            &Inputs {
                theta: &theta,
                y: &y,
                weights: &weights,
                offset: &offset,
                x: &x,
                starts: &starts,
                columns: &columns,
                values: &values,
            },
        ),
    }
}

// Case J's end line, and the longest.
fn end_lines() {
    put_end(Answer {
        number: 13,
        deviance: 0.0,
        phi: 0.0,
        order: 0,
        why: 0,
        converged: false,
        iterations: 0,
        account: Account {
            fits: 1,
            solves: 0,
            tries: 0,
            points: 0,
            eta: 0,
            mean: 0,
            pwrss: 0,
            ok: 0,
        },
    });
    put_end(Answer {
        number: 18446744073709551615,
        deviance: 0.0,
        phi: 0.0,
        order: 10000000000000000000,
        why: 6,
        converged: true,
        iterations: 9999999999999999999,
        account: Account {
            fits: 241,
            solves: 241000,
            tries: 24100000,
            points: 1687000,
            eta: 23000000,
            mean: 800000,
            pwrss: 59000,
            ok: 241000,
        },
    });
    put_value(b"phi", 0, 0.0 / 0.0);
    put_value(b"beta", 15, -0.0);
    put_value(b"v", 255, 1.0 / 0.0);
}

// The next job, behind one more than its length; whether there was one.
fn next_job() -> bool {
    let n = fed::count();
    if n == 0 {
        return false;
    }
    let mut space = [0u8; 1024];
    one_job(fed::bytes(&mut space, n - 1));
    true
}

fn all_jobs() {
    for _ in 0..2000 {
        if !next_job() {
            return;
        }
    }
}

fn main() {
    end_lines();
    let long = [0u8; 65537];
    one_job(&long);
    all_jobs();
}
