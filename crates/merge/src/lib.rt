// Two models made one: the head that they share, and in each thread the rules of either, each once, in order, and held as it was. What that
// means is defined in specs/.
#![tactic(auto)]

ghost use Rattle.std.specs.Prelude.{◌≡◌};
ghost use Rattle.merge.specs.Answer.{same_fields, same_head, parts_fault, clash_fault, size_fault};
ghost use Rattle.merge.specs.Answer.{made_one, merging_of, Makes};
ghost use Rattle.model.specs.Refusals.{due, told};
ghost use Rattle.model.specs.Results.{unless, accepted};
ghost use Rattle.model.specs.Valid.{Valid};

use model::{Model, Refusal, Rule, Thread, need};

mod join;

// Merges two models.
#[tactic(auto, using(crate::proofs::Answers::parts_valid, crate::proofs::Answers::parts_refused, crate::proofs::Answers::clash_refused, crate::proofs::Answers::size_decides, crate::proofs::Answers::told_makes))]
pub fn merge(m: Model, n: Model) -> Result<Model, Refusal>
    ensures answer { told result ≡ merging_of m n }
    ensures made { Makes m n (told result) }
{
    check_parts(m, n)?;
    check_clashes(m, n)?;
    make_one(m, n)
}

// The first model's fault, then the second's, then different heads.
#[tactic(auto, unfolding(crate::specs::Answer::parts_fault, model::specs::Results::first_of))]
fn check_parts(m: Model, n: Model) -> Result<(), Refusal>
    ensures { due result ≡ parts_fault m n }
{
    model::check(m)?;
    model::check(n)?;
    need(same_head(m, n), Refusal::Heads)
}

// A rule of A, and then one of B, that is held in one model and free in the other.
#[tactic(auto, using(crate::proofs::Heads::listed_a, crate::proofs::Heads::listed_b), unfolding(crate::specs::Answer::clash_fault, model::specs::Results::first_of))]
fn check_clashes(m: Model, n: Model) -> Result<(), Refusal>
    requires { Valid m × Valid n }
    ensures { due result ≡ clash_fault m n }
{
    need(!join::has_clash(m.a, n.a), Refusal::Clash)?;
    need(!join::has_clash(m.b, n.b), Refusal::Clash)
}

// Both models made one, unless a thread of both has more than 64 rules.
#[tactic(auto, using(crate::proofs::Heads::listed_a, crate::proofs::Heads::listed_b), unfolding(crate::specs::Answer::size_fault, model::specs::Results::first_of))]
fn make_one(m: Model, n: Model) -> Result<Model, Refusal>
    requires { Valid m × Valid n }
    ensures { told result ≡ unless (size_fault m n) (accepted (made_one m n)) }
{
    let a = join::join(m.a, n.a)?;
    let b = join::join(m.b, n.b)?;
    Ok(Model { a, b, ..m })
}

// Whether two models have the same head: `==` of both models would look at their rules, too.
#[tactic(auto, unfolding(crate::specs::Answer::same_head))]
fn same_head(m: Model, n: Model) -> bool
    ensures { result ≡ same_head m n }
{
    m.g == n.g
        && m.k == n.k
        && m.start == n.start
        && m.target == n.target
        && same_fields(m.a, n.a)
        && same_fields(m.b, n.b)
}

// Whether two threads have the same symbol count, first symbol and top.
#[tactic(auto, unfolding(crate::specs::Answer::same_fields, crate::specs::Answer::same_top))]
fn same_fields(t: Thread, u: Thread) -> bool
    ensures { result ≡ same_fields t u }
{
    t.symbols == u.symbols && t.first == u.first && t.top == u.top
}

// What joining two threads' rules comes to, part by part.

// A rule of one thread or of both: whether one has it held and whether one has it free; and the numbers of the rules after it.
#[derive(Clone, Copy)]
pub struct Next {
    pub rule: Rule,
    pub held: bool,
    pub free: bool,
    pub i: usize,
    pub j: usize,
}

// The rules of both: the first `count` places are used, and the others are zero. There is no heap, so the count stands beside 64 places,
// and the marks stand beside the rules, as in a `Thread`.
#[derive(Clone, Copy)]
pub struct Filled {
    pub count: usize,
    pub rules: [Rule; 64],
    pub held: [bool; 64],
}
