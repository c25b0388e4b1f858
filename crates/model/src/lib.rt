// A model: two threads with stacks (pushdown systems) that share one state, and the question asked of them.
// What a model means (steps, runs, lines, verdicts) is defined in specs/.
#![tactic(auto)]

ghost use Rattle.std.specs.Prelude.{◌≡◌};
ghost use Rattle.model.specs.Bits.{bit_at, all_zero};
ghost use Rattle.model.specs.Order.{key_of};
ghost use Rattle.model.specs.Refusals.{due};
ghost use Rattle.model.specs.Valid.{fault_of, cross_fault};
ghost use Rattle.model.specs.Lines.{table_bits};
ghost use Rattle.model.specs.Zero.{zero_model};

mod faults;
mod refusal;

pub use refusal::{Refusal, need};

// A shared state, 0 to G−1. Never a stack symbol, though both are numbered from 0.
#[derive(Clone, Copy, Debug, PartialEq, Eq)]
pub struct Shared(pub u8);

// A stack symbol, 0 to 15.
#[derive(Clone, Copy, Debug, PartialEq, Eq)]
pub struct Symbol(pub u8);

// The right side of a rule: what comes in place of the top symbol, its first symbol on top.
#[derive(Clone, Copy, Debug, PartialEq, Eq)]
pub enum Right {
    Remove,
    Swap(Symbol),
    Push(Symbol, Symbol),
}

// A rule of a pushdown system: it applies at shared state `before` with `symbol` on top, and leads to `after`.
#[derive(Clone, Copy, Debug, PartialEq, Eq)]
pub struct Rule {
    pub before: Shared,
    pub symbol: Symbol,
    pub after: Shared,
    pub right: Right,
}

// What is asked of a stack where a run ends: nothing, or that a named symbol is its top.
pub type Top = Option<Symbol>;

// A thread: how many stack symbols it has (the size of its stack alphabet), the symbol its stack holds at the start, what is asked of its
// top at the target, which of its rules are held, and its first `count` rules. The places from `count` on are unused. Rule r is held where
// bit r mod 8 of byte r div 8 stands: no turn ends right after it. There is no heap, and a model handed in may have any count, so the count stands
// beside the array, and `check` looks at it.
#[derive(Clone, Copy)]
pub struct Thread {
    pub symbols: u8,
    pub first: Symbol,
    pub top: Top,
    pub held: [u8; 8],
    pub count: usize,
    pub rules: [Rule; 64],
}

// The two threads. Even turns are A's, odd ones B's.
#[derive(Clone, Copy, Debug, PartialEq, Eq)]
pub enum ThreadId {
    A,
    B,
}

// G shared states, K rounds, the start and target states, and the two threads. The target is its state under both threads' tops.
#[derive(Clone, Copy)]
pub struct Model {
    pub g: u8,
    pub k: u8,
    pub start: Shared,
    pub target: Shared,
    pub a: Thread,
    pub b: Thread,
}

// How many symbols each stack held at most in a run, the one at the start counted.
#[derive(Clone, Copy, Debug, PartialEq, Eq)]
pub struct Depths {
    pub a: usize,
    pub b: usize,
}

// What an unused rule place holds in a model that was read.
pub const ZERO_RULE: Rule = Rule {
    before: Shared(0),
    symbol: Symbol(0),
    after: Shared(0),
    right: Right::Remove,
};

// The bytes of the longest schedule: two for each of 4,095 steps.
pub const MOST_BYTES: usize = 8190;

// The line bits for G from 1 to 4 (rows) and K from 1 to 3 (columns).
const LINE_BITS: [[u16; 3]; 4] = [[2, 4, 6], [6, 30, 126], [12, 120, 1092], [20, 340, 5460]];

// The first fault of a model, if it has one: of its head, of A's rules, of B's rules, and then between these parts.
#[tactic(auto, unfolding(crate::specs::Valid::fault_of, crate::specs::Results::first_of))]
pub fn check(m: Model) -> Result<(), Refusal>
    ensures { due result ≡ fault_of m }
{
    faults::head(m)?;
    faults::thread(m.g, m.a)?;
    faults::thread(m.g, m.b)?;
    check_across(m)
}

// The first fault between the parts of a model: a mark on a rule that is not in its list, or a symbol not below its thread's count.
#[tactic(auto, unfolding(crate::specs::Valid::cross_fault, crate::specs::Valid::marks_fault, crate::specs::Results::first_of))]
pub fn check_across(m: Model) -> Result<(), Refusal>
    ensures { due result ≡ cross_fault m }
{
    faults::marks(m.a.held, m.a.count)?;
    faults::marks(m.b.held, m.b.count)?;
    faults::symbols(m.a)?;
    faults::symbols(m.b)
}

// The key of a rule, by which the rules of a thread ascend.
pub fn key(r: Rule) -> u32
    ensures { result ≡ key_of r }
{
    let before = r.before.0 as u32;
    let symbol = r.symbol.0 as u32;
    let after = r.after.0 as u32;
    let high = ((before * 16 + symbol) * 16 + after) * 4096;
    match r.right {
        Right::Remove => high,
        Right::Swap(a) => high + (256 + a.0 as u32 * 16),
        Right::Push(a, b) => high + (512 + a.0 as u32 * 16 + b.0 as u32),
    }
}

// Whether marks have rule r held; none beyond 63 is.
pub fn is_held(marks: [u8; 8], r: usize) -> bool
    ensures { result ≡ bit_at marks r }
{
    if 64 <= r {
        return false;
    }
    let byte = marks[r / 8];
    let place = r % 8;
    (byte >> place) % 2 == 1
}

// Whether no bit of a thread's marks stands.
pub fn all_zero(marks: [u8; 8]) -> bool
    ensures { result ≡ all_zero marks }
{
    marks == [0u8; 8]
}

// A model whose places are all zero.
pub fn zero_model() -> Model
    ensures { result ≡ zero_model }
{
    let t = Thread {
        symbols: 0,
        first: Symbol(0),
        top: None,
        held: [0u8; 8],
        count: 0,
        rules: [ZERO_RULE; 64],
    };
    Model {
        g: 0,
        k: 0,
        start: Shared(0),
        target: Shared(0),
        a: t,
        b: t,
    }
}

// How many lines a model with these G and K has, or 0 where they are out of range: 0 and no Option, since README names the call, which
// answers so.
pub fn line_bits(g: u8, k: u8) -> u16
    ensures { result ≡ table_bits g k }
{
    if g < 1 || 4 < g || k < 1 || 3 < k {
        return 0;
    }
    LINE_BITS[(g - 1) as usize][(k - 1) as usize]
}
