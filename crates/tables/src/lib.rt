// Lent tables: their lengths, and an entry of one. No function here asks anything of its caller.
#![tactic(auto)]

ghost use Rattle.std.specs.Prelude.{◌≡◌, get_or};
ghost use Rattle.tables.specs.Lengths.{state_limit, move_limit, right_lengths};

// The most states and the most joint moves that a model may have.
pub const STATE_LIMIT: usize = 1024;

pub const MOVE_LIMIT: usize = 8192;

// Have the six tables exactly their lengths? Six numbers, as `engine::solve` has six lent slices and is the only caller: a struct for that call would be no plainer.
pub fn right_lengths(
    states: usize,
    starts: usize,
    successors: usize,
    rounds: usize,
    choices: usize,
    marks: usize,
) -> bool
    ensures { result ≡ right_lengths 1 state_limit move_limit states starts successors rounds choices marks }
{
    states == STATE_LIMIT
        && starts == STATE_LIMIT + 1
        && successors == MOVE_LIMIT
        && rounds == STATE_LIMIT
        && choices == STATE_LIMIT
        && marks == STATE_LIMIT
}

// Entry i of a table; the default, zero for a number, behind its end.
pub fn entry<T: Copy + Default>(table: &[T], i: usize) -> T
    ensures { (zero : T) → ((d : T) → T.is_default d → d ≡ zero) → result ≡ get_or table.now i zero }
{
    table.get(i).copied().unwrap_or_default()
}
