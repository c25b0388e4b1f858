// The readers of rules: a thread's list, one rule, its new symbols.
ghost use Rattle.std.specs.Prelude.{◌++◌, ◌-◌, ◌≡◌, List, length, replicate, take};
ghost use Rattle.model.specs.declared.Rule.{Rule};
ghost use Rattle.model.specs.Rules.{zero_rule};
ghost use Rattle.model.specs.Zero.{Padded, in_places};
ghost use Rattle.model.proofs.Padded.{counts, fills};
ghost use Rattle.std.proofs.Common.{ap, ◌∙◌};
ghost use Rattle.record.specs.Held.{answered, leaves};
ghost use Rattle.record.specs.Reader.{parse_right, parse_rule, rule_map, parse_rules};

use crate::bytes::{Reader, bit};
use model::{Refusal, Right, Rule, Shared, Symbol, ZERO_RULE, need};
use std::marker::Model;

// The rules of a thread: the first `count`; the places after them are zero. There is no heap, so the count stands beside 64 places.
#[derive(Clone, Copy)]
pub struct RuleList {
    pub count: usize,
    pub rules: [Rule; 64],
}

impl Model for RuleList {
    ghost Value = { List Rule };

    ghost view = { λ l. take l.count l.rules };

    ghost invariant = { λ l. Padded zero_rule l.count l.rules };

    ghost inverse = { λ l. record { count = length l; rules = in_places zero_rule l } };

    ghost inverse_ok = { λ l h i. record {
      count = counts h i;
      rules = (ap (λ n. take l.count l.rules ++ replicate (64 - n) zero_rule) (counts h) ∙ fills h) i;
    } };
}

// The rules of a thread, from the place of their count, and what follows them; no byte is taken where they are absent. The least key that
// the next rule may have is one above the last. The record's part is passed, as document 01 says ("Form by location").
#[tactic(auto, using(crate::proofs::Lists::uncounted, crate::proofs::Lists::breaks, crate::proofs::Lists::stops))]
pub fn read_rules(part: &[u8], present: bool, g: u8) -> Result<(RuleList, &[u8]), Refusal>
    ensures { leaves result ≡ parse_rules present g part.now }
{
    let mut reader = Reader { rest: part };
    let n = reader.field(present, Refusal::Rule, 0..65, 0)? as usize;
    let mut rules = [ZERO_RULE; 64];
    let mut least = 0u64;
    for i in 0..n {
        let rule = reader.rule(g)?;
        let place = model::key(rule) as u64;
        need(least <= place, Refusal::Order)?;
        rules[i] = rule;
        least = place + 1;
    }
    Ok((RuleList { count: n, rules }, reader.rest))
}

impl Reader<'_> {
    // A rule. Its after state is absent where it is the before state.
    #[tactic(auto, unfolding(crate::specs::Reader::parse_rule))]
    fn rule(&mut self, g: u8) -> Result<Rule, Refusal>
        ensures { answered result self.new ≡ parse_rule g self.old }
    {
        let map = self.byte()?;
        need(map_fits(map), Refusal::Rule)?;
        let pair = self.byte()?;
        let before = pair / 16;
        need(before < g, Refusal::Rule)?;
        let after = self.field(bit(map, 0), Refusal::Rule, 0..g, before)?;
        let right = self.right(bit(map, 1), bit(map, 2))?;
        Ok(Rule {
            before: Shared(before),
            symbol: Symbol(pair % 16),
            after: Shared(after),
            right,
        })
    }

    // The new symbols of a rule: none, one or two.
    #[tactic(auto, unfolding(crate::specs::Reader::parse_right))]
    fn right(&mut self, first: bool, second: bool) -> Result<Right, Refusal>
        ensures { answered result self.new ≡ parse_right first second self.old }
    {
        if !first {
            return Ok(Right::Remove);
        }
        let a = self.ranged(Refusal::Rule, 0..16)?;
        if !second {
            return Ok(Right::Swap(Symbol(a)));
        }
        let b = self.ranged(Refusal::Rule, 0..16)?;
        Ok(Right::Push(Symbol(a), Symbol(b)))
    }
}

// A rule's map has bits 0 to 2 alone, and bit 2 only beside bit 1.
fn map_fits(map: u8) -> bool
    ensures { result ≡ rule_map map }
{
    map < 8 && (bit(map, 1) || !bit(map, 2))
}
