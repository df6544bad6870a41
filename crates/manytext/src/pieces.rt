// What is printed of a call, as pieces that are made one after another.
ghost use Rattle.std.specs.Prelude.{◌≡◌};
ghost use Rattle.manytext.specs.Pieces.{pieces_of};

use model::Settings;

// One line of a refusal, its number and its byte; or as many responses, with the sizes that say where each stands.
#[derive(Clone, Copy)]
pub enum Pieces {
    Refusal(u64, usize),
    Responses(usize, Settings),
}

// How many pieces there are.
pub fn count_of(pieces: Pieces) -> usize
    ensures { result ≡ pieces_of pieces }
{
    match pieces {
        Pieces::Refusal(_, _) => 1,
        Pieces::Responses(responses, _) => responses,
    }
}
