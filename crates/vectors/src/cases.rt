// A file of cases, read field by field.
ghost use Rattle.std.specs.Prelude.{◌*◌, ◌+◌, ◌<◌, ◌≡◌, ◌≤◌, drop, false, length, slice_index, take, true};
ghost use Rattle.vectors.specs.Pieces.{two_bytes, whole};
ghost use Rattle.vectors.specs.Tallies.{Answers};

use crate::Tally;

// The bytes that are still to be read. What a file cut short lacks reads as zeros, or as no bytes.
#[derive(Drop)]
pub struct Cases<'a> {
    pub rest: &'a [u8],
}

impl<'a> Cases<'a> {
    // The fields of these bytes, from the first on.
    pub fn new(rest: &'a [u8]) -> Cases<'a>
        ensures { result.rest.now ≡ rest.now }
    {
        Cases { rest }
    }

    // The next byte.
    pub fn byte(&mut self) -> u8
        ensures value { result ≡ slice_index self.old.rest.now 0 }
        ensures left { self.new.rest.now ≡ drop 1 self.old.rest.now }
    {
        match self.rest.split_off_first() {
            Some(b) => *b,
            None => 0,
        }
    }

    // A number of two bytes, the low one first.
    pub fn number(&mut self) -> usize
        ensures small { result < 65536 }
        ensures value { result ≡ two_bytes self.old.rest.now }
        ensures left { self.new.rest.now ≡ drop 2 self.old.rest.now }
    {
        let low = self.byte();
        let high = self.byte();
        usize::from(u16::from_le_bytes([low, high]))
    }

    // So many bytes; where there are fewer, none, and nothing is left.
    pub fn bytes(&mut self, n: usize) -> &'a [u8]
        ensures value { result.now ≡ whole n self.old.rest.now }
        ensures left { self.new.rest.now ≡ drop n self.old.rest.now }
    {
        match self.rest.split_off(..n) {
            Some(bytes) => bytes,
            None => {
                self.rest = &[];
                &[]
            }
        }
    }

    // A part: its length in two bytes, and then so many bytes, as far as there are.
    pub fn part(&mut self) -> &'a [u8]
        ensures { result.now ≡ take (two_bytes self.old.rest.now) (drop 2 self.old.rest.now) }
    {
        let n = self.number();
        self.bytes(n.min(self.rest.len()))
    }

    // The same where the length has four bytes.
    pub fn long_part(&mut self) -> &'a [u8]
        ensures { result.now ≡ take (two_bytes self.old.rest.now + 65536 * two_bytes (drop 2 self.old.rest.now)) (drop 4 self.old.rest.now) }
    {
        let low = self.number();
        let n = low + 65536 * self.number();
        self.bytes(n.min(self.rest.len()))
    }
}

// Compares one case of a file after another.
pub fn corpus<F: Fn(&mut Cases) -> bool>(bytes: &[u8], case: F) -> Tally
    requires { F.IsAlwaysCallable case }
    ensures some { 0 < length bytes.now → 0 < result.compared }
    ensures most { result.compared ≤ length bytes.now }
    ensures differ { result.differ ≤ result.compared }
    ensures agree { Answers (F.post case) true → result.differ ≡ 0 }
    ensures disagree { Answers (F.post case) false → result.differ ≡ result.compared }
{
    let mut cases = Cases::new(bytes);
    let mut tally = Tally::new();
    // a `while`: each case says where the next one begins
    while !cases.rest.is_empty() {
        let left = cases.rest.len();
        tally = tally.counted(case(&mut cases));
        // a case without a byte would be compared for ever
        if left <= cases.rest.len() {
            return tally;
        }
    }
    tally
}
