// What a search tells from one event to the next.

use lp_model::Ending;

/// The lines of the next answer, or how the search ended.
#[derive(Drop)]
pub enum Piece {
    Answer(Vec<u8>),
    Over(Ending),
}
