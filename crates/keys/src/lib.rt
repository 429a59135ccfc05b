// Successors by keys: what the rules give is gathered once a position, by the moves that they wait for, and looked up for each joint move.
#![tactic(auto)]

ghost use Rattle.std.specs.Prelude.{◌≡◌, ◌+◌, ◌*◌, ◌%◌, ◌≤◌, ◌<◌, MatchOption, length, replicate};
ghost use Rattle.sheet.specs.Limits.{most_rules};
ghost use Rattle.meaning.specs.Lists.{place};
ghost use Rattle.codes.specs.Codes.{made_by, joint_of};
ghost use Rattle.codes.specs.Table.{width};
ghost use Rattle.keys.specs.Keys.{own_moves, kind_of, mask_of, upper_stirred, lower_stirred, key_of, key_room, kind_room, gift_room, hint_room, keys_in, Findable, Blank, Housed, Filing, alive, Gathered, Homes, given, Remembers};

use facts::FactSet;
use firing::{Slot, with_member};
use lookup::Tree;
use rules::Look;

// How many rules may be filed: no more than a sheet has.
pub const RULE_ROOM: usize = 512;

// How many keys there may be: one of each rule, and the first.
pub const KEY_ROOM: usize = 513;

// How many gifts there may be: one of each key, and one of what has no key.
pub const GIFT_ROOM: usize = 514;

// How many hints there are.
pub const HINT_ROOM: usize = 2048;

// How many kinds of rules there are, by the roles that they name.
pub const KIND_ROOM: usize = 16;

// How many roles there may be.
const ROLES: u8 = 4;

// Half of the digits of a word, as a factor.
const HALF: u64 = 0x100000000;

// How the rules are filed by the keys of the moves that they wait for: the tree of the keys and their hints, the mask of each kind, how many keys there are, and one more than the
// highest kind. The tables of the keys and of each rule's home stand beside it and are lent to each call that needs them, to be written only where rules are filed. No ghost field
// says that the keys can be found (`Findable`): the ways of a tree are data, and a ghost field holds facts alone. A hint is a place and one, 0 for none: an `Option` a hint would take
// twice the memory.
#[derive(Clone, Copy)]
pub struct Keys {
    pub tree: Tree,
    pub hints: [u16; HINT_ROOM],
    pub masks: [u64; KIND_ROOM],
    pub count: usize,
    pub kinds: usize,
}

// For each kind the set of moves that was asked for last, and the place of its key. Of which keys it remembers the places stands in contracts (`Remembers`): it does not hold the keys.
#[derive(Clone, Copy)]
pub struct Memo {
    pub asked: [u64; KIND_ROOM],
    pub places: [u16; KIND_ROOM],
}

// ---- sets of moves

// The set x with a role's move in it. No role has a move from 16 on.
fn made_by(role: usize, m: u16, x: u64) -> u64
    requires { role < 4 }
    ensures { result ≡ made_by role m x }
{
    if m < 16 {
        with_member(x, 16 * role as u64 + u64::from(m))
    } else {
        x
    }
}

// A joint move as a set.
#[tactic(auto, using(crate::proofs::Laws::made_all))]
pub fn joint_of(moves: [u16; 4]) -> u64
    ensures { result ≡ joint_of moves }
{
    let mut x = 0;
    for (role, m) in moves.iter().enumerate() {
        x = made_by(role, *m, x);
    }
    x
}

// All moves of a role, as a set.
#[tactic(auto, using(crate::proofs::Parts::own_shifted))]
fn own_moves(role: u8) -> u64
    requires { role < 4 }
    ensures { result ≡ own_moves role }
{
    0xffff << (16 * role)
}

// The kind of a rule that waits for the moves d: the set of the roles that make them.
#[tactic(auto, using(crate::proofs::Laws::named_none, crate::proofs::Laws::named_more))]
fn kind_of(d: u64) -> u64
    ensures { result ≡ kind_of d }
{
    let mut kind = FactSet::default();
    for role in 0..ROLES {
        if own_moves(role) & d != 0 {
            kind = kind.with(role);
        }
    }
    kind.bits
}

// All moves of the roles of a kind.
#[tactic(auto, using(crate::proofs::Laws::moves_none, crate::proofs::Laws::moves_more))]
fn mask_of(kind: u64) -> u64
    ensures { result ≡ mask_of kind }
{
    let roles = FactSet::from(kind);
    let mut x = 0;
    for role in 0..ROLES {
        if roles.has(role) {
            x |= own_moves(role);
        }
    }
    x
}

// ---- keys

// A set, with its upper half stirred by its lower one.
#[tactic(auto, unfolding(crate::specs::Keys::upper_stirred))]
fn stir_upper(x: u64) -> u64
    ensures { result ≡ upper_stirred x }
{
    x ^ ((x % HALF * 2654435761) << 32)
}

// A set, with its lower half stirred by its upper one.
#[tactic(auto, unfolding(crate::specs::Keys::lower_stirred))]
fn stir_lower(x: u64) -> u64
    ensures { result ≡ lower_stirred x }
{
    x ^ (x / HALF * 2246822519 / HALF % HALF)
}

// The key of a set of moves: no other set has it, and keys differ in their low digits, so that few tests tell them apart.
#[tactic(auto, unfolding(crate::specs::Keys::key_of))]
fn key_of(d: u64) -> u64
    ensures { result ≡ key_of d }
{
    stir_lower(stir_upper(d))
}

// The low digits of a key.
fn low_of(key: u64) -> usize
    ensures { result ≡ key % hint_room }
{
    key as usize % HINT_ROOM
}

impl Keys {
    // Nothing is filed.
    pub fn new() -> Self
        ensures blank { Blank result }
        ensures none { (result.count ≡ 0) × (result.kinds ≡ 0) }
    {
        Self {
            tree: Tree::new(),
            hints: [0; HINT_ROOM],
            masks: [0; KIND_ROOM],
            count: 0,
            kinds: 0,
        }
    }

    // The place of a key. Mostly a hint tells: there is none where no key has these low digits.
    fn find(&self, table: &[u64], key: u64) -> Option<usize>
        requires { Findable table.now self.now }
        ensures { MatchOption result (place key (keys_in table.now self.now) ≡ self.now.count)
            (λ at. (at < self.now.count) × (place key (keys_in table.now self.now) ≡ at)) }
    {
        let hint = usize::from(self.hints[low_of(key)]);
        let at = hint.checked_sub(1)?;
        if table[at] == key {
            return Some(at);
        }
        self.tree.seek(table, self.count, key)
    }

    // ---- once a sheet

    // A key more, if it is new, and its place noted in entry c.
    fn house(&mut self, table: &mut [u64], homes: &mut [u16], key: u64, c: usize)
        requires { Findable table.old self.old × (self.old.count < key_room) × (length table.old ≡ key_room) × (c < length homes.old) }
        ensures { Housed key c table.old homes.old self.old table.new homes.new self.new }
    {
        if let Some(at) = self.find(table, key) {
            homes[c] = at as u16;
            return;
        }
        let n = self.count;
        homes[c] = n as u16;
        self.tree.enroll(table, n, key);
        table[n] = key;
        self.hints[low_of(key)] = (n + 1) as u16;
        self.count = n + 1;
    }

    // Slot c is filed: its key, its home, and the mask of its kind.
    #[tactic(auto, using(crate::proofs::Parts::kind_low))]
    fn file_slot(&mut self, table: &mut [u64], homes: &mut [u16], code: &[u64], c: usize)
        requires { (width * (c + 1) ≤ length code.now) × (c < most_rules) × Filing code.now c table.old homes.old self.old }
        ensures { Filing code.now (c + 1) table.new homes.new self.new }
    {
        let d = code[6 * c + 4];
        let kind = kind_of(d);
        let k = kind as usize;
        self.masks[k] = mask_of(kind);
        self.kinds = self.kinds.max(k + 1);
        self.house(table, homes, key_of(d), c);
    }

    // The slots below `to` are filed, in two empty tables that are lent.
    pub fn file(&mut self, code: &[u64], to: usize, table: &mut [u64], homes: &mut [u16])
        requires { (width * to ≤ length code.now) × (to ≤ most_rules) × Blank self.old × (table.old ≡ replicate key_room 0) × (homes.old ≡ replicate most_rules 0) }
        ensures { Filing code.now to table.new homes.new self.new }
    {
        self.hints[0] = 1;
        self.count = 1;
        self.kinds = 0;
        for c in 0..to {
            self.file_slot(table, homes, code, c);
        }
    }

    // ---- once a joint move

    // The place of the key of a set of moves, `count` for none: that entry of the gifts stays empty. It is looked up where the set is not the one that was asked for before.
    fn recall(&self, table: &[u64], part: u64, k: usize, memo: &mut Memo) -> usize
        requires { Findable table.now self.now × (k < kind_room) × Remembers (keys_in table.now self.now) memo.old }
        ensures { (result ≡ place (key_of part) (keys_in table.now self.now)) × Remembers (keys_in table.now self.now) memo.new }
    {
        if memo.asked[k] == part {
            return usize::from(memo.places[k]);
        }
        let at = self.find(table, key_of(part)).unwrap_or(self.count);
        memo.asked[k] = part;
        memo.places[k] = at as u16;
        at
    }

    // What the gifts have for a joint move: for each kind that of the key of what the move has of its roles.
    pub fn give(&self, table: &[u64], gifts: &[u64], joint: u64, memo: &mut Memo) -> u64
        requires { Findable table.now self.now × (self.now.kinds ≤ kind_room) × (self.now.count < length gifts.now)
            × Remembers (keys_in table.now self.now) memo.old }
        ensures { (result ≡ given (keys_in table.now self.now) self.now.masks gifts.now joint self.now.kinds)
            × Remembers (keys_in table.now self.now) memo.new }
    {
        let mut x = 0;
        for k in 0..self.kinds {
            let at = self.recall(table, self.masks[k] & joint, k, memo);
            x |= gifts[at];
        }
        x
    }
}

// ---- once a position

// What the slots below `to` give whose facts and views hold, gathered by their homes; n is the number of keys. Homes and number stay two parameters: whoever gathers lends no keys.
pub fn gather(code: &[u64], to: usize, look: Look, homes: &[u16], n: usize, gifts: &mut [u64])
    requires { Homes code.now to homes.now n × (length gifts.old ≡ gift_room) }
    ensures { Gathered code.now homes.now n (alive code.now look.facts.bits look.views.bits to) gifts.new }
{
    gifts[..=n].fill(0);
    for c in 0..to {
        let slot = Slot { code, c };
        if slot.is_calm(look.facts.bits, look.views.bits) {
            let home = usize::from(homes[c]);
            gifts[home] = with_member(gifts[home], slot.member());
        }
    }
}

impl Memo {
    // The empty set was asked for, of every kind.
    pub fn new() -> Self
        ensures asked { result.asked ≡ replicate kind_room 0 }
        ensures places { result.places ≡ replicate kind_room 0 }
    {
        Self {
            asked: [0; KIND_ROOM],
            places: [0; KIND_ROOM],
        }
    }
}
