// What is due on both lines at a moment. Definitions in specs/, proofs in proofs/; no code: a step of a run calls the
// loops over both lines itself.
#![tactic(auto)]

use acks::AckSide;
use notes::Notes;
use path::Path;
use receiving::ReceivingSide;

// What arriving datagrams change besides the lent slices.
#[derive(Clone, Copy)]
pub struct Arrivals {
    pub forward: Path,
    pub receiving: ReceivingSide,
    pub notes: Notes,
    pub reverse: Path,
    pub acks: AckSide,
}
