// The text of a piece, in the front of a lent buffer.
ghost use Rattle.std.specs.Prelude.{◌≡◌, ◌<◌, ◌≤◌, length};
ghost use Rattle.lines.specs.Lines.{Written};
ghost use Rattle.jobfit.specs.Room.{SizesFew};
ghost use Rattle.jobcall.specs.Told.{counts_length};
ghost use Rattle.many.specs.Many.{block_length};
ghost use Rattle.manytext.specs.Text.{answer_from, response_text, response_room};
ghost use Rattle.manytext.specs.Pieces.{part_text, piece_text, pieces_of, PartsFit, PiecesFit};

use crate::pieces::Pieces;
use job::Fault;
use model::{Account, Answer, Settings};

// The answer of a response: its counts in their places, deviance and phi from the front of its block.
fn answer_from(counts: &[u64], results: &[f64]) -> Answer
    requires { (counts_length ≤ length counts.now) × (2 ≤ length results.now) }
    ensures { result ≡ answer_from counts.now results.now }
{
    let number = counts[0] as usize;
    let order = counts[1] as usize;
    let converged = counts[2] == 1;
    let iterations = counts[3] as usize;
    let why = counts[9] as usize;
    let deviance = results[0];
    let phi = results[1];
    let account = Account {
        fits: counts[4],
        solves: counts[5],
        tries: counts[6],
        points: counts[7],
        eta: counts[10],
        mean: counts[11],
        pwrss: counts[12],
        ok: counts[13],
    };
    Answer {
        number,
        deviance,
        phi,
        order,
        why,
        converged,
        iterations,
        account,
    }
}

// The line of response i, and behind it what its counts and its block tell.
pub fn put_response(
    out: &mut [u8],
    i: usize,
    settings: Settings,
    counts: &[u64],
    results: &[f64],
) -> usize
    requires { (response_room ≤ length out.old) × SizesFew settings × (counts_length ≤ length counts.now) × (block_length settings ≤ length results.now) }
    ensures { Written (response_text i settings counts.now results.now) out.old result out.new }
{
    let answer = answer_from(counts, results);
    let at = lines::response_line(out, i);
    let end = out.len();
    let n = respond::put_flat(&mut out[at..end], settings, answer, results);
    at + n
}

// Response i of so many, from its parts of the buffers.
fn put_part(
    out: &mut [u8],
    i: usize,
    responses: usize,
    settings: Settings,
    counts: &[u64],
    results: &[f64],
) -> usize
    requires { (response_room ≤ length out.old) × (i < responses) × PartsFit responses settings counts.now results.now }
    ensures { Written (part_text i settings counts.now results.now) out.old result out.new }
{
    let block = jobfit::results_length(settings.n, settings.p, settings.rows);
    let first = base::offset(i, responses, block);
    let end = first + block;
    let at = base::offset(i, responses, 14);
    let past = at + 14;
    put_response(out, i, settings, &counts[at..past], &results[first..end])
}

// Piece i: the line of a refusal, or a response.
pub fn put_piece(out: &mut [u8], pieces: Pieces, i: usize, counts: &[u64], results: &[f64]) -> usize
    requires { (response_room ≤ length out.old) × (i < pieces_of pieces) × PiecesFit pieces counts.now results.now }
    ensures { Written (piece_text pieces counts.now results.now i) out.old result out.new }
{
    match pieces {
        Pieces::Refusal(number, byte) => lines::refused_line(out, Fault { number, byte }),
        Pieces::Responses(responses, settings) => {
            put_part(out, i, responses, settings, counts, results)
        }
    }
}
