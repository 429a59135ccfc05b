// A model in tables.
ghost use Rattle.incoming.specs.Owners.{IsIncoming, IsIncoming-prop};
ghost use Rattle.marks.specs.Model.{positions_limit, joints_limit, Model, Model-prop};

use incoming::Incoming;
use radix::Joints;

// A model in tables: its joint moves, four roles' counts of choices a position, and who leads where.
#[derive(Clone, Copy)]
pub struct Arena<'a> {
    pub joints: Joints<'a>,
    pub counts: &'a [u16],
    pub incoming: Incoming<'a>,
    pub ghost model: { Model positions_limit joints_limit joints.n joints.starts.now joints.successors.now counts.now } by { Model-prop positions_limit joints_limit joints.n joints.starts.now joints.successors.now counts.now },
    pub ghost leads: { IsIncoming joints.n joints.starts.now joints.successors.now incoming.froms.now incoming.index.now incoming.owners.now } by { IsIncoming-prop joints.n joints.starts.now joints.successors.now incoming.froms.now incoming.index.now incoming.owners.now },
}

// The roles `mask` together, in a model.
#[derive(Clone, Copy)]
pub struct Coalition<'a> {
    pub arena: Arena<'a>,
    pub mask: u8,
}
