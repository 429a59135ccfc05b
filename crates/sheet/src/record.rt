// The parts of a lent sheet as values that borrow its bytes: a head or a literal, a body, a rule, and the rules one after another.
ghost use Rattle.std.specs.Prelude.{◌≡◌, ◌≤◌, length};
ghost use Rattle.sheet.specs.Data.{rules_end, rules_from};
ghost use Rattle.sheet.specs.Records.{rules_of};

// A kind with its fields a and b: a rule's head, or a literal. The kind is the sheet's byte, known or not: `literal_fits`, `head_fits` and `rules::literal_holds` speak of all bytes.
#[derive(Clone, Copy, Debug, PartialEq, Eq)]
pub struct Part {
    pub kind: u8,
    pub a: u8,
    pub b: u8,
}

// A node of the question: a kind with its fields a and b, and a coalition. The kind is the sheet's byte, known or not: `node_fits` speaks of all bytes.
#[derive(Clone, Copy, Debug, PartialEq, Eq)]
pub struct Node {
    pub kind: u8,
    pub a: u8,
    pub b: u8,
    pub coalition: u8,
}

// The literals of a body that are left, three bytes each.
#[derive(Clone, Copy)]
pub struct Body<'a> {
    pub bytes: &'a [u8],
}

// A rule: its head holds where all literals of its body do.
#[derive(Clone, Copy)]
pub struct Rule<'a> {
    pub head: Part,
    pub body: Body<'a>,
}

// The rules of a sheet that are left: so many, from the first of the bytes on.
#[derive(Clone, Copy)]
pub struct Rules<'a> {
    bytes: &'a [u8],
    left: usize,
}

impl<'a> Iterator for Body<'a> {
    ghost use Rattle.std.specs.Iterator.{YieldsFirst, item_count};
    ghost use Rattle.sheet.specs.Records.{literals};

    type Item = Part;

    ghost next_gives = { YieldsFirst literals };

    ghost remaining = { item_count literals };

    fn next(&mut self) -> Option<Part> {
        let &[kind, a, b, ref rest @ ..] = self.bytes else {
            return None;
        };
        self.bytes = rest;
        Some(Part { kind, a, b })
    }
}

impl<'a> Rules<'a> {
    // The n rules from an offset on.
    pub fn of(s: &'a [u8], first: usize, n: usize) -> Rules<'a>
        ensures { rules_end s.now first n ≤ length s.now → rules_of result ≡ rules_from s.now first n }
    {
        Rules {
            bytes: &s[first.min(s.len())..],
            left: n,
        }
    }
}

impl<'a> Iterator for Rules<'a> {
    ghost use Rattle.std.specs.Iterator.{YieldsFirstBy, item_count};
    ghost use Rattle.sheet.specs.Records.{rule_of, rules_of};

    type Item = Rule<'a>;

    ghost next_gives = { YieldsFirstBy rule_of rules_of };

    ghost remaining = { item_count rules_of };

    fn next(&mut self) -> Option<Rule<'a>> {
        if self.left == 0 {
            return None;
        }
        let &[_, _, kind, a, b, n, ref rest @ ..] = self.bytes else {
            return None;
        };
        let size = 3 * usize::from(n);
        let (bytes, rest) = rest.split_at(size.min(rest.len()));
        self.bytes = rest;
        self.left -= 1;
        Some(Rule {
            head: Part { kind, a, b },
            body: Body { bytes },
        })
    }
}
