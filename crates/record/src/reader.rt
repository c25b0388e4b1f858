// The readers of a record and of its head.
ghost use Rattle.std.specs.Prelude.{◌≡◌};
ghost use Rattle.record.specs.Held.{Reads, extra_of, front_of, fields_of, answered_as};
ghost use Rattle.record.specs.Reader.{parse_front, parse_head, thread_from, model_of};

use crate::Front;
use crate::bytes::{Reader, bit};
use crate::rules::{RuleList, read_rules};
use crate::targets::{Extra, Second, announces, state_of};
use model::{Model, Refusal, Shared, Symbol, Thread, need};

// The head fields, with the map and what a second map says.
#[derive(Clone, Copy)]
struct Head {
    map: u8,
    g: u8,
    k: u8,
    start: u8,
    target: u8,
    second: Second,
    a: u8,
    b: u8,
}

// A record at the front of a slice. What the head leaves, from the first rule count onward, is passed to the reader of rule lists.
#[tactic(auto, using(crate::proofs::Fronts::head_shorter, crate::proofs::Fronts::rules_shorter, crate::proofs::Fronts::sized), unfolding(crate::specs::Reader::parse_front))]
pub fn front(bytes: &[u8]) -> Result<Front, Refusal>
    ensures { Reads bytes.now (front_of result) (parse_front bytes.now) }
{
    let mut reader = Reader { rest: bytes };
    let head = reader.head()?;
    // by `match`: through `?` the check does not follow a rule list, which is `Copy` and keeps a fact
    let (rules_a, rest_a) = match read_rules(reader.rest, bit(head.map, 6), head.g) {
        Ok(read) => read,
        Err(refusal) => return Err(refusal),
    };
    let (rules_b, rest) = match read_rules(rest_a, bit(head.map, 7), head.g) {
        Ok(read) => read,
        Err(refusal) => return Err(refusal),
    };
    let model = model_of(head, rules_a, rules_b);
    model::check_across(model)?;
    Ok(Front {
        model,
        size: bytes.len() - rest.len(),
    })
}

impl Reader<'_> {
    // The head: the map, and the fields that it names, in bit order.
    #[tactic(auto, unfolding(crate::specs::Reader::parse_head))]
    fn head(&mut self) -> Result<Head, Refusal>
        ensures { answered_as fields_of result self.new ≡ parse_head self.old }
    {
        let map = self.byte()?;
        need(bit(map, 3), Refusal::NoTarget)?;
        let g = self.field(bit(map, 0), Refusal::Head, 1..5, 4)?;
        let k = self.field(bit(map, 1), Refusal::Head, 1..4, 2)?;
        let start = self.field(bit(map, 2), Refusal::Head, 0..g, 0)?;
        let target = self.target(g)?;
        let second = self.second(announces(target))?;
        let a = self.field(bit(map, 4), Refusal::Head, 0..16, 0)?;
        let b = self.field(bit(map, 5), Refusal::Head, 0..16, 0)?;
        Ok(Head {
            map,
            g,
            k,
            start,
            target: state_of(target),
            second,
            a,
            b,
        })
    }
}

// The model of a head and the rules of both threads.
fn model_of(h: Head, a: RuleList, b: RuleList) -> Model
    ensures { result ≡ model_of (fields_of h) a b }
{
    Model {
        g: h.g,
        k: h.k,
        start: Shared(h.start),
        target: Shared(h.target),
        a: thread(h.a, h.second.a, a),
        b: thread(h.b, h.second.b, b),
    }
}

// A thread with the rules that were read.
fn thread(first: u8, x: Extra, l: RuleList) -> Thread
    ensures { result ≡ thread_from first (extra_of x) l }
{
    // read out first: with both in place below, the proof did not close
    let held = x.held;
    let rules = l.rules;
    Thread {
        symbols: x.symbols,
        first: Symbol(first),
        top: x.top,
        held,
        count: l.count,
        rules,
    }
}
