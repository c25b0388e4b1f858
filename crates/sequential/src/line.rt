// The line of a rule.
ghost use Rattle.std.specs.Prelude.{[], ◌∷◌, ◌≡◌, ◌≤◌, length};
ghost use Rattle.model.specs.Rules.{put};
ghost use Rattle.sequential.specs.Parts.{state_of, rule_in};
ghost use Rattle.sequential.specs.Text.{state_text, symbols_text, rule_text};
ghost use Rattle.writer.specs.Output.{Appends, HasRoom};

use crate::state::{State, Transition};
use model::Right;
use writer::Output;

// How many bytes a line has.
pub fn length(r: Transition) -> usize
    ensures { result ≡ length (rule_text (rule_in r)) }
{
    2 * r.from.rounds as usize + 5 + text::digits_of(r.top as u64) + new_length(r.new)
}

// How many bytes new symbols have, with a blank before each.
fn new_length(new: Right) -> usize
    ensures { (result ≡ length (symbols_text (put new []))) × (result ≤ 10) }
{
    match new {
        Right::Remove => 0,
        Right::Swap(a) => 1 + text::digits_of(a.0 as u64),
        Right::Push(a, b) => 2 + text::digits_of(a.0 as u64) + text::digits_of(b.0 as u64),
    }
}

// Puts the line of a rule.
#[tactic(auto, using(writer::proofs::Outputs::appended), unfolding(crate::specs::Text::rule_text))]
pub fn put_line(out: &mut Output, r: Transition)
    requires { HasRoom out.old (rule_text (rule_in r)) }
    ensures { Appends out.old out.new (rule_text (rule_in r)) }
{
    put_digits(out, r.from);
    put_symbol(out, r.top);
    out.byte(b' ');
    put_digits(out, r.to);
    put_new(out, r.new);
    out.byte(b'\n');
}

// Puts the digits of a state.
fn put_digits(out: &mut Output, s: State)
    requires { HasRoom out.old (state_text (state_of s)) }
    ensures { Appends out.old out.new (state_text (state_of s)) }
{
    out.byte(b'0' + s.counter);
    for copy in &s.copies[..s.rounds as usize] {
        out.byte(b'0' + *copy);
    }
}

// Puts new symbols, with a blank before each.
fn put_new(out: &mut Output, new: Right)
    requires { HasRoom out.old (symbols_text (put new [])) }
    ensures { Appends out.old out.new (symbols_text (put new [])) }
{
    match new {
        Right::Remove => {}
        Right::Swap(a) => put_symbol(out, a.0),
        Right::Push(a, b) => {
            put_symbol(out, a.0);
            put_symbol(out, b.0);
        }
    }
}

// Puts a blank and a symbol.
#[tactic(auto, using(crate::proofs::Widths::one_symbol, crate::proofs::Widths::length_one, writer::proofs::Outputs::then_put))]
fn put_symbol(out: &mut Output, symbol: u8)
    requires { HasRoom out.old (symbols_text (symbol ∷ [])) }
    ensures { Appends out.old out.new (symbols_text (symbol ∷ [])) }
{
    out.byte(b' ');
    text::put_number(out, symbol as u64);
}
