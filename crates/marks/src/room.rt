// Room to work in.
ghost use Rattle.std.specs.Prelude.{◌≤◌, length};
ghost use Rattle.marks.specs.Model.{joints_limit};

// Room to work in, for the classes of the joint moves and for their flags: what it holds before and after a call does not matter.
#[derive(Drop)]
pub struct Room<'a> {
    pub classes: &'a mut [u16],
    pub flags: &'a mut [u16],
    pub ghost classed: { joints_limit ≤ length classes.now },
    pub ghost flagged: { joints_limit ≤ length flags.now },
}
