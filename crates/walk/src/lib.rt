// The walk of a schedule, step by step: the counters by value, the stacks in two lent buffers.
#![tactic(auto)]

ghost use Rattle.std.specs.Prelude.{not, ◌||◌, ◌≡◌, ◌+◌, ◌/◌, ◌<◌, ◌≤◌, eqb, length};
ghost use Rattle.model.specs.Rules.{put};
ghost use Rattle.model.specs.Schedules.{steps_of};
ghost use Rattle.model.specs.Walk.{made, step_from, walk, has_top};
ghost use Rattle.walk.specs.Stack.{top_first, config_of, walked_of, walk_on, Counted, Room, Starts, GrowsBy, Grows};
ghost use Rattle.walk.specs.Stack.{move_of, moved_of, Fires, after_of};

use model::{Model, Refusal, Right, Shared, Thread, ThreadId, Top, need};

// Where a walk is: the turn of its last step and whether that step's rule is held, the shared state, and how many symbols each stack
// holds. The stacks themselves are in two buffers, bottom first.
// The counts lie here and not beside the buffers, since a step hands this struct back by value (document 01, "Form by location"). A struct of
// both buffers would be no plainer: each call would promise besides that its two `&mut` are still the caller's.
#[derive(Clone, Copy, Debug, PartialEq, Eq)]
pub struct Walk {
    pub turn: usize,
    pub held: bool,
    pub shared: Shared,
    pub a: usize,
    pub b: usize,
}

// What a step makes of the shared state and its thread's stack: whether its rule is held, the state, and how many symbols the stack
// then holds.
#[derive(Clone, Copy, Debug, PartialEq, Eq)]
pub struct Fired {
    pub held: bool,
    pub shared: Shared,
    pub depth: usize,
}

// Room for a stack: one symbol at the start, and one more for each step.
pub const STACK: usize = 4096;

// The walk's start: each stack holds its thread's first symbol, alone.
#[tactic(auto, unfolding(crate::specs::Stack::top_first))]
pub fn start(m: Model, a: &mut [u8], b: &mut [u8]) -> Walk
    requires { (0 < length a.old) × (0 < length b.old) }
    ensures { Starts m result a.new b.new }
{
    a[0] = m.a.first.0;
    b[0] = m.b.first.0;
    Walk {
        turn: 0,
        held: false,
        shared: m.start,
        a: 1,
        b: 1,
    }
}

// The steps of a schedule, in order, up to the first that is refused; its last is not held (12).
// `Counted` is a clause here and below: a caller's model may have any count, so `Model` cannot say it, and a type around it would be made from
// the same proof. So is `Room`, since a walk does not hold the buffers.
#[tactic(auto, using(crate::proofs::Schedules::walk_stops, crate::proofs::Schedules::walk_held, crate::proofs::Schedules::walk_made))]
pub fn steps(
    start: Walk,
    m: Model,
    schedule: &[u8],
    a: &mut [u8],
    b: &mut [u8],
) -> Result<Walk, Refusal>
    requires counted { Counted m }
    requires room { Room (length schedule.now / 2) start a.old b.old }
    ensures by { walked_of result a.new b.new ≡
        walk m (config_of start a.old b.old) (steps_of schedule.now) }
    ensures grows { GrowsBy (length schedule.now / 2) start result }
{
    let w = run(start, m, schedule, a, b)?;
    need(!w.held, Refusal::Held)?;
    Ok(w)
}

// The same steps wherever they end, after a held step too. It is the only loop that walks, and `step` has no other caller.
#[tactic(auto, using(crate::proofs::Schedules::stops, crate::proofs::Schedules::ends))]
pub fn run(
    start: Walk,
    m: Model,
    schedule: &[u8],
    a: &mut [u8],
    b: &mut [u8],
) -> Result<Walk, Refusal>
    requires counted { Counted m }
    requires room { Room (length schedule.now / 2) start a.old b.old }
    ensures by { walked_of result a.new b.new ≡
        walk_on m (config_of start a.old b.old) (steps_of schedule.now) }
    ensures grows { GrowsBy (length schedule.now / 2) start result }
{
    let mut w = start;
    // by index, as in `depths`: in pairs of bytes the proof is no shorter
    for i in 0..schedule.len() / 2 {
        w = w.step(m, schedule[2 * i], schedule[2 * i + 1], a, b)?;
    }
    Ok(w)
}

// Whether the stack in a buffer has the top that is asked for. An empty one has none.
#[tactic(auto, using(crate::proofs::Stacks::split_top), unfolding(crate::specs::Stack::top_first))]
pub fn has_top(top: Top, depth: usize, stack: &[u8]) -> bool
    requires { depth ≤ length stack.now }
    ensures { result ≡ has_top top (top_first depth stack.now) }
{
    match top {
        None => true,
        Some(s) => depth != 0 && stack[depth - 1] == s.0,
    }
}

impl Walk {
    // One step of a schedule: its turn number is not below the last step's and at most 2K−1 (9), and then it is made in that turn (12, 10).
    // Turn and rule, here and below, are the two bytes of a step as the schedule has them; `Step` is a word of the definitions.
    #[tactic(auto, using(model::proofs::Tests::decided), unfolding(model::specs::Walk::step_from, model::specs::Walk::turn_fits))]
    fn step(self, m: Model, turn: u8, rule: u8, a: &mut [u8], b: &mut [u8]) -> Result<Walk, Refusal>
        requires counted { Counted m }
        requires room { Room 1 self a.old b.old }
        ensures by { walked_of result a.new b.new ≡
            step_from m (config_of self a.old b.old) (record { turn = turn; rule = rule }) }
        ensures grows { Grows self result a.old b.old a.new b.new }
    {
        let at = turn as usize;
        need(self.turn <= at, Refusal::Turn)?;
        need(at < 2 * (m.k as usize), Refusal::Turn)?;
        self.made(m, at, rule, a, b)
    }

    // A step made in its turn, whatever that turn's number is: no turn is left after a held step (12), and then the turn's thread makes it
    // (10). It is a part of each loop of steps: called from there, it would take longer than all that it does.
    #[inline(always)]
    pub fn made(
        self,
        m: Model,
        turn: usize,
        rule: u8,
        a: &mut [u8],
        b: &mut [u8],
    ) -> Result<Walk, Refusal>
        requires counted { Counted m }
        requires room { Room 1 self a.old b.old }
        ensures by { walked_of result a.new b.new ≡
            made m (config_of self a.old b.old) (record { turn = turn; rule = rule }) }
        ensures grows { Grows self result a.old b.old a.new b.new }
    {
        need(self.may_step(turn), Refusal::Held)?;
        if turn % 2 == 0 {
            let fired = fire(m.a, rule, self.shared, self.a, a)?;
            Ok(self.after(ThreadId::A, turn, fired))
        } else {
            let fired = fire(m.b, rule, self.shared, self.b, b)?;
            Ok(self.after(ThreadId::B, turn, fired))
        }
    }

    // No turn is left after a held step.
    pub fn may_step(self, turn: usize) -> bool
        ensures { result ≡ (not self.held || eqb self.turn turn) }
    {
        !self.held || self.turn == turn
    }

    // Where the walk is after a step of a thread in a turn, by what it made of the thread's stack.
    fn after(self, i: ThreadId, turn: usize, fired: Fired) -> Walk
        ensures { result ≡ after_of self i turn fired }
    {
        let (a, b) = match i {
            ThreadId::A => (fired.depth, self.b),
            ThreadId::B => (self.a, fired.depth),
        };
        Walk {
            turn,
            held: fired.held,
            shared: fired.shared,
            a,
            b,
        }
    }
}

// A thread's step on its own stack, by a rule: refused (10) where the stack is empty, the rule is not in its list or does not apply.
#[tactic(auto, using(crate::proofs::Stacks::split_top), unfolding(crate::specs::Stack::move_of, crate::specs::Stack::top_first, model::specs::Rules::applies))]
pub fn fire(
    t: Thread,
    rule: u8,
    shared: Shared,
    depth: usize,
    stack: &mut [u8],
) -> Result<Fired, Refusal>
    requires counted { t.count ≤ 64 }
    requires room { depth < length stack.old }
    ensures by { moved_of result stack.new ≡ move_of t rule shared.0 (top_first depth stack.old) }
    ensures grows { Fires depth result stack.old stack.new }
{
    let r = rule as usize;
    need(0 < depth, Refusal::Step)?;
    need(r < t.count, Refusal::Step)?;
    let chosen = t.rules[r];
    need(chosen.before == shared, Refusal::Step)?;
    let below = depth - 1;
    need(chosen.symbol.0 == stack[below], Refusal::Step)?;
    let n = place_right(chosen.right, below, stack);
    Ok(Fired {
        held: model::is_held(t.held, r),
        shared: chosen.after,
        depth: n,
    })
}

// A rule's right side in place of the top that is gone; answers how many symbols the stack then holds.
#[tactic(auto, using(crate::proofs::Stacks::on_top_lem, crate::proofs::Stacks::two_on_top))]
fn place_right(x: Right, depth: usize, stack: &mut [u8]) -> usize
    requires { depth + 1 < length stack.old }
    ensures by { top_first result stack.new ≡ put x (top_first depth stack.old) }
    ensures grows { result ≤ depth + 2 }
{
    match x {
        Right::Remove => depth,
        Right::Swap(a) => {
            stack[depth] = a.0;
            depth + 1
        }
        Right::Push(a, b) => {
            stack[depth] = b.0;
            stack[depth + 1] = a.0;
            depth + 2
        }
    }
}
