// A record's bytes as they are read, from the front on: single bytes and fields.
ghost use Rattle.std.specs.Prelude.{◌≡◌, ◌<◌, List, ℕ};
ghost use Rattle.model.specs.Bits.{bit};
ghost use Rattle.model.specs.Refusals.{number_of};
ghost use Rattle.record.specs.Held.{answered};
ghost use Rattle.record.specs.Reader.{parse_byte, parse_field, parse_ranged};

use model::{Refusal, need};
use std::marker::Model;
use std::ops::Range;

// The bytes that are left.
#[derive(Drop)]
pub struct Reader<'a> {
    pub rest: &'a [u8],
}

impl<'a> Model for Reader<'a> {
    ghost Value = { List ℕ };

    ghost view = { λ r. r.rest.now };
}

impl Reader<'_> {
    // A field with a bit in the map: where it is absent it takes no byte, and where it says what absence would, that is needless.
    #[tactic(auto, unfolding(crate::specs::Reader::parse_field))]
    pub fn field(
        &mut self,
        present: bool,
        refusal: Refusal,
        range: Range<u8>,
        absent: u8,
    ) -> Result<u8, Refusal>
        ensures { answered result self.new ≡ parse_field present (number_of refusal) range.start range.end absent self.old }
    {
        if !present {
            return Ok(absent);
        }
        let b = self.ranged(refusal, range)?;
        need(b != absent, Refusal::Needless)?;
        Ok(b)
    }

    // A byte in a range.
    #[tactic(auto, unfolding(crate::specs::Reader::parse_ranged))]
    pub fn ranged(&mut self, refusal: Refusal, range: Range<u8>) -> Result<u8, Refusal>
        ensures { answered result self.new ≡ parse_ranged (number_of refusal) range.start range.end self.old }
    {
        let b = self.byte()?;
        need(range.contains(&b), refusal)?;
        Ok(b)
    }

    // The next byte.
    #[tactic(auto, unfolding(crate::specs::Reader::parse_byte))]
    pub fn byte(&mut self) -> Result<u8, Refusal>
        ensures { answered result self.new ≡ parse_byte self.old }
    {
        match self.rest {
            [] => Err(Refusal::CutShort),
            [b, rest @ ..] => {
                self.rest = rest;
                Ok(*b)
            }
        }
    }
}

// Whether a bit of a map stands.
pub fn bit(map: u8, place: u8) -> bool
    requires { place < 8 }
    ensures { result ≡ bit place map }
{
    (map >> place) % 2 == 1
}
