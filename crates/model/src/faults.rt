// The checks of a model, part by part: each answers its first fault, if there is one.
ghost use Rattle.std.specs.Prelude.{◌≡◌, ◌<◌};
ghost use Rattle.model.specs.Refusals.{due, number_of};
ghost use Rattle.model.specs.Valid.{head_fault, range_fault, fields_fault, thread_fault, rule_fault, mark_fault};
ghost use Rattle.model.specs.Valid.{symbols_fault, used_fault, right_fault, top_fault, symbol_fault};

use crate::{Model, Refusal, Right, Rule, Symbol, Thread, Top, need};

// A head field out of its range: those of the model, then those of A and of B.
#[tactic(auto, unfolding(crate::specs::Valid::head_fault, crate::specs::Results::first_of))]
pub fn head(m: Model) -> Result<(), Refusal>
    ensures { due result ≡ head_fault m }
{
    range(m)?;
    fields(m.a)?;
    fields(m.b)
}

// A thread's symbol count that is not 1 to 16, or its top or first symbol above 15.
#[tactic(auto, unfolding(crate::specs::Valid::fields_fault, crate::specs::Results::first_of))]
fn fields(t: Thread) -> Result<(), Refusal>
    ensures { due result ≡ fields_fault t }
{
    need((1..=16).contains(&t.symbols), Refusal::Head)?;
    top(Refusal::Head, 16, t.top)?;
    symbol(Refusal::Head, 16, t.first)
}

// G, K, the start or the target state out of range.
#[tactic(auto, unfolding(crate::specs::Valid::range_fault, crate::specs::Results::first_of))]
fn range(m: Model) -> Result<(), Refusal>
    ensures { due result ≡ range_fault m }
{
    need((1..=4).contains(&m.g), Refusal::Head)?;
    need((1..=3).contains(&m.k), Refusal::Head)?;
    need(m.start.0 < m.g, Refusal::Head)?;
    need(m.target.0 < m.g, Refusal::Head)
}

// A count above 64; then of the first `count` rules one that is out of range, or not above the one before it. The least key that the next
// rule may have is one above the last.
#[tactic(auto, using(crate::proofs::Order::split, crate::proofs::Order::from_start, crate::proofs::Order::runs_out, crate::proofs::Order::next_least, crate::proofs::Order::among), unfolding(crate::specs::Valid::thread_fault, crate::specs::Results::first_of))]
pub fn thread(g: u8, t: Thread) -> Result<(), Refusal>
    ensures { due result ≡ thread_fault g t }
{
    need(t.count <= 64, Refusal::Rule)?;
    let mut least = 0u64;
    for r in &t.rules[..t.count] {
        rule(g, *r)?;
        let place = crate::key(*r) as u64;
        need(least <= place, Refusal::Order)?;
        least = place + 1;
    }
    Ok(())
}

// A rule with a state not below G or a symbol above 15.
#[tactic(auto, unfolding(crate::specs::Valid::rule_fault, crate::specs::Valid::symbol_fault, crate::specs::Results::first_of))]
fn rule(g: u8, r: Rule) -> Result<(), Refusal>
    ensures { due result ≡ rule_fault g r }
{
    need(r.before.0 < g, Refusal::Rule)?;
    symbol(Refusal::Rule, 16, r.symbol)?;
    need(r.after.0 < g, Refusal::Rule)?;
    right(Refusal::Rule, 16, r.right)
}

// A mark at a rule number that a list of `count` rules lacks.
#[tactic(auto, using(crate::proofs::Marks::found, crate::proofs::Marks::onward, crate::proofs::Marks::past, crate::proofs::Marks::all_free), unfolding(crate::specs::Valid::mark_fault, crate::specs::Results::first_of))]
pub fn marks(marks: [u8; 8], count: usize) -> Result<(), Refusal>
    ensures { due result ≡ mark_fault marks count }
{
    if crate::all_zero(marks) {
        return Ok(());
    }
    for r in count..64 {
        need(!crate::is_held(marks, r), Refusal::Mark)?;
    }
    Ok(())
}

// A symbol of a thread that is not below its count: the first, the top, and then those of its rules.
#[tactic(auto, using(crate::proofs::Ranges::symbol), unfolding(crate::specs::Valid::symbols_fault, crate::specs::Results::first_of))]
pub fn symbols(t: Thread) -> Result<(), Refusal>
    ensures { due result ≡ symbols_fault t }
{
    symbol(Refusal::Symbol, t.symbols, t.first)?;
    top(Refusal::Symbol, t.symbols, t.top)?;
    used(t)
}

// The same of the symbols of its rules. There are 64 places, whatever the count says.
#[tactic(auto, using(crate::proofs::Symbols::split, crate::proofs::Symbols::from_start, crate::proofs::Symbols::runs_out, crate::proofs::Symbols::no_place, crate::proofs::Order::among), unfolding(crate::specs::Results::first_of))]
fn used(t: Thread) -> Result<(), Refusal>
    requires above { 0 < t.symbols }
    ensures { due result ≡ used_fault t.symbols t 0 t.count }
{
    for r in &t.rules[..t.count.min(64)] {
        symbol(Refusal::Symbol, t.symbols, r.symbol)?;
        right(Refusal::Symbol, t.symbols, r.right)?;
    }
    Ok(())
}

// A new symbol of a rule that is not below a limit. The refusal and the limit, here and below, are two words of one check, of unlike
// types, in no call kept together.
#[tactic(auto, unfolding(crate::specs::Valid::right_fault, crate::specs::Results::first_of))]
fn right(refusal: Refusal, limit: u8, x: Right) -> Result<(), Refusal>
    ensures { due result ≡ right_fault (number_of refusal) limit x }
{
    match x {
        Right::Remove => Ok(()),
        Right::Swap(a) => symbol(refusal, limit, a),
        Right::Push(a, b) => {
            symbol(refusal, limit, a)?;
            symbol(refusal, limit, b)
        }
    }
}

// The same of a top that is named.
#[tactic(auto, unfolding(crate::specs::Valid::top_fault))]
fn top(refusal: Refusal, limit: u8, t: Top) -> Result<(), Refusal>
    ensures { due result ≡ top_fault (number_of refusal) limit t }
{
    match t {
        None => Ok(()),
        Some(s) => symbol(refusal, limit, s),
    }
}

// The same of one symbol.
#[tactic(auto, unfolding(crate::specs::Valid::symbol_fault))]
fn symbol(refusal: Refusal, limit: u8, s: Symbol) -> Result<(), Refusal>
    ensures { due result ≡ symbol_fault (number_of refusal) limit s }
{
    need(s.0 < limit, refusal)
}
