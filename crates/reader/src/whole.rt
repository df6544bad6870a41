// A whole job: first every fault is looked for, in one walk that also finds the sizes, then the numbers are read.
ghost use Rattle.std.specs.Prelude.{◌≡◌, true};
ghost use Rattle.model.specs.Names.{family_coded, link_coded, start_coded};
ghost use Rattle.job.specs.Format.{rows_in, start_of};
ghost use Rattle.job.specs.Faults.{is_sound, fault_of};
ghost use Rattle.job.specs.Heads.{head_of};
ghost use Rattle.job.specs.Places.{counts_of, places_of};
ghost use Rattle.job.specs.Job.{family_from, link_from, limit_from, start_from, start_in, job_of};
ghost use Rattle.reader.specs.Reading.{roomy, header_of, filled, ReadDone};
ghost use Rattle.model.specs.Inputs.{inputs};

use crate::lists::{read_numbers, read_rows};
use job::{Counts, Fault, Head, Places};
use model::{Family, Link, Settings, Shape, Start};

// What is told of an accepted job beside its lists: the plain numbers of the call, and the lengths of theta, weights and offset.
#[derive(Clone, Copy)]
pub struct Header {
    pub settings: Settings,
    pub thetas: usize,
    pub weights: usize,
    pub offset: usize,
}

// What reading a sound job finds: what is told of it, and its blocks.
#[derive(Clone, Copy)]
pub struct Found {
    pub header: Header,
    pub shape: Shape,
}

// Two bits always name a family.
#[tactic(auto, unfolding(job::specs::Job::family_from))]
fn family_in(code: usize) -> Family
    ensures { result ≡ family_from (family_coded code) }
{
    model::family_coded(code).unwrap_or(Family::Binomial)
}

// The link 7 is refused before.
#[tactic(auto, unfolding(job::specs::Job::link_from))]
fn link_in(code: usize) -> Link
    ensures { result ≡ link_from (link_coded code) }
{
    model::link_coded(code).unwrap_or(Link::Logit)
}

// The code 1023 leaves the limit to the link.
#[tactic(auto, unfolding(job::specs::Job::limit_from))]
fn limit_in(code: usize) -> Option<usize>
    ensures { result ≡ limit_from code }
{
    (code != 1023).then_some(code)
}

// The start's bit is there in version 2 alone; one bit always names a start.
#[tactic(auto, unfolding(job::specs::Job::start_in, job::specs::Job::start_from))]
fn start_in(s: &[u8], head: Head) -> Start
    requires { head ≡ head_of s.now }
    ensures { result ≡ start_in s.now }
{
    if head.version == 2 {
        model::start_coded(bits::field_at(s, 48, 1)).unwrap_or(Start::Usual)
    } else {
        Start::Usual
    }
}

// What is told of a job, given its header, its counts and how many entries its rows have.
fn header_in(s: &[u8], head: Head, c: Counts, entries: usize) -> Header
    requires { (head ≡ head_of s.now) × (c ≡ counts_of s.now) × (entries ≡ start_of s.now (rows_in s.now)) }
    ensures { result ≡ header_of (job_of s.now) }
{
    Header {
        settings: Settings {
            family: family_in(head.family),
            link: link_in(head.link),
            n_agq: head.n_agq,
            limit: limit_in(head.limit),
            n: c.n,
            p: head.p,
            rows: c.q,
            entries,
            start: start_in(s, head),
        },
        thetas: c.thetas,
        weights: c.weights,
        offset: c.offset,
    }
}

// Whether the slices have room for any job that is not refused.
#[tactic(auto, unfolding(crate::specs::Reading::roomy))]
fn room_in(
    theta: &[f64],
    y: &[f64],
    weights: &[f64],
    offset: &[f64],
    x: &[f64],
    starts: &[usize],
    columns: &[usize],
    values: &[f64],
) -> bool
    ensures { result
        ≡ roomy
        (inputs theta.now y.now weights.now offset.now x.now starts.now columns.now
        values.now) }
{
    288 <= theta.len()
        && 512 <= y.len()
        && 512 <= weights.len()
        && 512 <= offset.len()
        && 8192 <= x.len()
        && 33 <= starts.len()
        && 8192 <= columns.len()
        && 8192 <= values.len()
}

// Every list of a sound job into the lent slices; answers the number of entries of Z'.
fn fill_job(
    s: &[u8],
    c: Counts,
    at: Places,
    theta: &mut [f64],
    y: &mut [f64],
    weights: &mut [f64],
    offset: &mut [f64],
    x: &mut [f64],
    starts: &mut [usize],
    columns: &mut [usize],
    values: &mut [f64],
) -> usize
    requires s_value { is_sound (fault_of s.now) ≡ true }
    requires c_value { (c ≡ counts_of s.now) × (at ≡ places_of s.now) }
    requires values_value { roomy (inputs theta.old y.old weights.old offset.old x.old starts.old columns.old values.old) ≡ true }
    ensures { (result ≡ start_of s.now (rows_in s.now))
        ×
        (inputs theta.new y.new weights.new offset.new x.new starts.new columns.new
        values.new
        ≡ filled (job_of s.now)
        (inputs theta.old y.old weights.old offset.old x.old starts.old
        columns.old values.old)) }
{
    read_numbers(s, at.theta, c.thetas, theta);
    read_numbers(s, at.y, c.n, y);
    read_numbers(s, at.weights, c.weights, weights);
    read_numbers(s, at.offset, c.offset, offset);
    read_numbers(s, at.x, c.x, x);
    read_rows(s, at.z, c.q, starts, columns, values)
}

// Reads a job. Slices without room for any job are refused with 2 at byte 0, whatever the job.
pub fn read_job(
    s: &[u8],
    theta: &mut [f64],
    y: &mut [f64],
    weights: &mut [f64],
    offset: &mut [f64],
    x: &mut [f64],
    starts: &mut [usize],
    columns: &mut [usize],
    values: &mut [f64],
) -> Result<Found, Fault>
    ensures { ReadDone s.now
        (inputs theta.old y.old weights.old offset.old x.old starts.old columns.old values.old)
        result
        (inputs theta.new y.new weights.new offset.new x.new starts.new columns.new values.new) }
{
    if !room_in(theta, y, weights, offset, x, starts, columns, values) {
        return Err(Fault { number: 2, byte: 0 });
    }
    let survey = job::survey_in(s)?;
    let c = survey.counts;
    let entries = fill_job(
        s,
        c,
        survey.places,
        theta,
        y,
        weights,
        offset,
        x,
        starts,
        columns,
        values,
    );
    let header = header_in(s, survey.head, c, entries);
    Ok(Found {
        header,
        shape: survey.shape,
    })
}
