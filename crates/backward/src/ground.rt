// What the walk reads.
ghost use Rattle.std.specs.Prelude.{◌≤◌};
ghost use Rattle.incoming.specs.Owners.{IsIncoming, IsIncoming-prop};
ghost use Rattle.backward.specs.Covered.{Covered, Covered-prop};

use incoming::Incoming;
use marking::{Board, Marked};

// What the walk reads: a coalition's game, who leads where in it, whether a choice of the coalition is looked for or that each of its choices fails,
// and the positions that may be passed through, where not all may.
#[derive(Clone, Copy)]
pub struct Ground<'a> {
    pub board: Board<'a>,
    pub incoming: Incoming<'a>,
    pub want: bool,
    pub through: Option<Marked<'a>>,
    pub ghost leads: { IsIncoming board.joints.n board.joints.starts.now board.joints.successors.now incoming.froms.now incoming.index.now incoming.owners.now } by { IsIncoming-prop board.joints.n board.joints.starts.now board.joints.successors.now incoming.froms.now incoming.index.now incoming.owners.now },
    pub ghost few: { board.joints.n ≤ 1024 },
    pub ghost covered: { Covered board.joints.n through } by { Covered-prop board.joints.n through },
}
