// Answers jobs from standard input, each behind its length in three bytes, as `fitjob` answers one; before each stands a line with its number.
// The first job is one byte longer than a job may be, and stands here.
#![tactic(auto)]

ghost use Rattle.std.specs.Prelude.{◌≤◌};

fn put_job(number: u64, job: &[u8], terms: &mut [f64], out: &mut [u8]) {
    text::put_word(b"job");
    text::put_count(number);
    text::end_line();
    let n = respond::respond(job, terms, out);
    text::put_word(&out[0..n]);
}

// A length in three bytes, the high byte first; at most as long as a job may be.
fn job_size(size: [u8; 3]) -> usize
    ensures { result ≤ 65536 }
{
    let n = u32::from_be_bytes([0, size[0], size[1], size[2]]) as usize;
    n.min(65536)
}

// One job from standard input; whether there was one.
fn next_job(number: u64, space: &mut [u8; 65536], terms: &mut [f64], out: &mut [u8]) -> bool {
    let mut size = [0u8; 3];
    if io::read_full(0, &mut size) < 3 {
        return false;
    }
    let n = job_size(size);
    let got = io::read_full(0, &mut space[..n]);
    put_job(number, &space[..got], terms, out);
    true
}

fn main() {
    let mut space = [0u8; 65536];
    let mut terms = [0.0; 7000];
    let mut out = [0u8; 131072];
    let long = [0u8; 65537];
    put_job(0, &long, &mut terms, &mut out);
    for number in 1..1000 {
        if !next_job(number, &mut space, &mut terms, &mut out) {
            return;
        }
    }
}
