// The states of the sequential system, and its rules.
ghost use Rattle.std.specs.Prelude.{◌≡◌, ℕ, ◌+◌, ◌<◌, ◌≤◌, get_or};

use model::Right;

// A state of the system of a model with so many rounds: its counter, and a copy of the shared state for each round, a digit each. There is
// no heap, so the rounds stand beside room for three copies.
#[derive(Clone, Copy)]
pub struct State {
    pub rounds: u8,
    pub counter: u8,
    pub copies: [u8; 3],
    ghost few: { rounds ≤ 3 },
    ghost low: { 1 ≤ counter },
    ghost high: { counter ≤ rounds + 1 },
    ghost small: { (i : ℕ) → get_or copies i 0 < 10 },
}

// A rule: at a state and with a symbol on top, the next state and the new symbols that come in place of the top.
#[derive(Clone, Copy)]
pub struct Transition {
    pub from: State,
    pub top: u8,
    pub to: State,
    pub new: Right,
    ghost same: { to.rounds ≡ from.rounds },
}
