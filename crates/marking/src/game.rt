// A game in tables, as one coalition meets it.
ghost use Rattle.marking.specs.Table.{Tables, Tables-prop};

use radix::Joints;

// The joint moves, and `classes` with the number of the class of each in its position: the same for those in which the coalition does the same.
#[derive(Clone, Copy)]
pub struct Board<'a> {
    pub joints: Joints<'a>,
    pub classes: &'a [u16],
    pub ghost tables: { Tables joints.n joints.starts.now joints.successors.now classes.now } by { Tables-prop joints.n joints.starts.now joints.successors.now classes.now },
}
