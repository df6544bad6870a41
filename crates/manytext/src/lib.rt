// What is printed of a call of many responses: from the bytes that were read to the buffers of the call, and from these to the text, piece by piece.
#![tactic(auto)]

mod input;
mod pieces;
mod texts;

pub use input::fit_input;
pub use pieces::{Pieces, count_of};
pub use texts::{put_piece, put_response};
