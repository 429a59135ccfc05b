// A text that grows in a lent buffer.

ghost use Rattle.std.specs.Prelude.{◌≤◌, length};

// What the rounds and choices tables hold where there is no count or no choice, by document 01.
const ABSENT: u16 = 65535;

// A lent buffer, and where the text in it ends.
#[derive(Drop)]
pub(crate) struct Text<'a> {
    pub(crate) out: &'a mut [u8],
    pub(crate) at: usize,
    ghost within: { at ≤ length out.now },
}

impl<'a> Text<'a> {
    ghost use Rattle.std.specs.Prelude.{◌≡◌};

    // No text yet, at the buffer's start.
    pub(crate) fn new(out: &'a mut [u8]) -> Text<'a>
        ensures same { result.out.ghost_name ≡ out.entry.ghost_name }
        ensures now { result.out.now ≡ out.old }
        ensures at { result.at ≡ 0 }
    {
        Text { out, at: 0 }
    }
}

impl Text<'_> {
    ghost use Rattle.std.specs.Prelude.{◌≡◌, ◌∷◌, [], ◌++◌};
    ghost use Rattle.listing.specs.Text.{decimal};
    ghost use Rattle.listing.specs.Listing.{shown};
    ghost use Rattle.listing.specs.Wrote.{Adds};

    // Writes one byte, if the buffer reaches so far.
    pub(crate) fn byte(&mut self, byte: u8)
        ensures { Adds self.old (byte ∷ []) self.new }
    {
        if self.at < self.out.len() {
            self.out[self.at] = byte;
            self.at += 1;
        }
    }

    // Writes bytes.
    pub(crate) fn bytes(&mut self, bytes: &[u8])
        ensures { Adds self.old bytes.now self.new }
    {
        for byte in bytes {
            self.byte(*byte);
        }
    }

    // Writes n in decimal, and the byte that follows it.
    pub(crate) fn number(&mut self, n: u64, stop: u8)
        ensures { Adds self.old (decimal n ++ (stop ∷ [])) self.new }
    {
        let mut digits = [0u8; 20];
        let k = io::decimal(n, &mut digits);
        self.bytes(&digits[..k]);
        self.byte(stop);
    }

    // Writes a round count or a choice, or `-` for it, and the byte that follows it.
    pub(crate) fn shown(&mut self, eventually: bool, x: u16, stop: u8)
        ensures { Adds self.old (shown eventually x ++ (stop ∷ [])) self.new }
    {
        if eventually && x != ABSENT {
            self.number(u64::from(x), stop);
        } else {
            self.bytes(&[b'-', stop]);
        }
    }
}
