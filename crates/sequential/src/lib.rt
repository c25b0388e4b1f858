// The sequential system of a model: a pushdown system with one stack that stands for both threads, so that a checker of single-threaded
// rule tables can decide what K rounds reach. Its rules are defined in specs/, and what they are for is proved in proofs/.
#![tactic(auto)]

ghost use Rattle.std.specs.Prelude.{◌≡◌, ◌≤◌, length};
ghost use Rattle.model.specs.Fits.{Fits};
ghost use Rattle.model.specs.Refusals.{due, told};
ghost use Rattle.sequential.specs.Answer.{plain, model_refusal, text_for, printed_of, print_store};

use model::{Model, Refusal};
use sink::{Count, Sink};
pub use state::Transition;
use writer::Output;

mod line;
mod rules;
mod sink;
mod state;
mod threads;

// Prints the rules at the front of the store, which stays as it was where the call refuses: how long the text is.
pub fn print(m: Model, store: &mut [u8]) -> Result<usize, Refusal>
    ensures answer { told result ≡ printed_of m (length store.old) }
    ensures stored { store.new ≡ print_store m store.old }
{
    check(m)?;
    let mut count = Count { bytes: 0 };
    put_rules(&mut count, m);
    if store.len() < count.bytes {
        return Err(Refusal::Store);
    }
    let mut out = Output::new(store);
    put_rules(&mut out, m);
    Ok(out.at)
}

// A model can be printed: it has no fault, no held rule and no named top.
#[tactic(auto, unfolding(crate::specs::Answer::model_refusal, model::specs::Results::first_of))]
fn check(m: Model) -> Result<(), Refusal>
    ensures { due result ≡ model_refusal m }
{
    model::check(m)?;
    model::need(is_plain(m), Refusal::NotPlain)
}

// Whether a model has no held rule and names no top.
#[tactic(auto, unfolding(crate::specs::Answer::plain))]
fn is_plain(m: Model) -> bool
    ensures { result ≡ plain m }
{
    threads::is_plain(m.a) && threads::is_plain(m.b)
}

// Puts the rules, for the counters from 1 to K + 1. That the model is in range is a clause here and below: a caller may hold any model, so `Model`
// cannot say it, and with a type for it each clause would say `x.model` for `m`.
fn put_rules<S: Sink>(out: &mut S, m: Model)
    requires fits { Fits m }
    requires room { length (text_for m) ≤ S.room out.old }
    ensures { S.takes out.old out.new (text_for m) }
{
    for turn in 0..m.k + 1 {
        rules::put_counter(out, m, turn + 1);
    }
}
