// The readers of the target byte, and of the second map that its bit 7 announces.
ghost use Rattle.std.specs.Prelude.{◌≡◌};
ghost use Rattle.record.specs.Held.{answered, answered_as, said_of};
ghost use Rattle.record.specs.Reader.{announces, state_of, parse_target, parse_top, parse_marks, parse_extras, parse_second};

use crate::bytes::{Reader, bit};
use model::{Refusal, Symbol, Top, need};

// What the fields of a second map say of a thread: its top, the marks of its held rules, and its symbol count.
#[derive(Clone, Copy)]
pub struct Extra {
    pub top: Top,
    pub held: [u8; 8],
    pub symbols: u8,
}

// The same of A and of B.
#[derive(Clone, Copy)]
pub struct Second {
    pub a: Extra,
    pub b: Extra,
}

impl Reader<'_> {
    // The target byte, whose state is below G.
    #[tactic(auto, unfolding(crate::specs::Reader::parse_target))]
    pub fn target(&mut self, g: u8) -> Result<u8, Refusal>
        ensures { answered result self.new ≡ parse_target g self.old }
    {
        let b = self.byte()?;
        need(state_of(b) < g, Refusal::Head)?;
        Ok(b)
    }

    // The second map and its fields; no byte is taken where it is absent.
    #[tactic(auto, unfolding(crate::specs::Reader::parse_second))]
    pub fn second(&mut self, present: bool) -> Result<Second, Refusal>
        ensures { answered_as said_of result self.new ≡ parse_second present self.old }
    {
        let map = self.field(present, Refusal::Head, 0..64, 0)?;
        self.extras(map)
    }

    // The fields that a second map names, in bit order.
    #[tactic(auto, unfolding(crate::specs::Reader::parse_extras))]
    fn extras(&mut self, map: u8) -> Result<Second, Refusal>
        ensures { answered_as said_of result self.new ≡ parse_extras map self.old }
    {
        let top_a = self.top(bit(map, 0))?;
        let top_b = self.top(bit(map, 1))?;
        let held_a = self.marks(bit(map, 2))?;
        let held_b = self.marks(bit(map, 3))?;
        let symbols_a = self.field(bit(map, 4), Refusal::Head, 1..17, 16)?;
        let symbols_b = self.field(bit(map, 5), Refusal::Head, 1..17, 16)?;
        Ok(Second {
            a: Extra {
                top: top_a,
                held: held_a,
                symbols: symbols_a,
            },
            b: Extra {
                top: top_b,
                held: held_b,
                symbols: symbols_b,
            },
        })
    }

    // The top of a thread: any, where its bit does not stand. (What absence means is one `if` here, in `marks` and in `field`: a common form
    // would take the reading as a closure, and be longer.)
    #[tactic(auto, unfolding(crate::specs::Reader::parse_top))]
    fn top(&mut self, present: bool) -> Result<Top, Refusal>
        ensures { answered result self.new ≡ parse_top present self.old }
    {
        if !present {
            return Ok(None);
        }
        let x = self.ranged(Refusal::Head, 0..16)?;
        Ok(Some(Symbol(x)))
    }

    // The marks of a thread's held rules, of which one stands at least; none, where their bit does not stand.
    #[tactic(auto, unfolding(crate::specs::Reader::parse_marks))]
    fn marks(&mut self, present: bool) -> Result<[u8; 8], Refusal>
        ensures { answered result self.new ≡ parse_marks present self.old }
    {
        if !present {
            return Ok([0u8; 8]);
        }
        let Some((held, rest)) = self.rest.split_first_chunk::<8>() else {
            return Err(Refusal::CutShort);
        };
        need(!model::all_zero(*held), Refusal::Needless)?;
        self.rest = rest;
        Ok(*held)
    }
}

// Whether a target byte announces a second map: its bit 7 stands.
pub fn announces(b: u8) -> bool
    ensures { result ≡ announces b }
{
    128 <= b
}

// The state of a target byte: its low seven bits.
pub fn state_of(b: u8) -> u8
    ensures { result ≡ state_of b }
{
    if announces(b) { b - 128 } else { b }
}
