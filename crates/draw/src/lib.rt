// The line table drawn from both threads' costs: a bit stands exactly if both can follow the full line of its place. And the
// refusals due before that.
#![tactic(auto)]

ghost use Rattle.std.specs.Prelude.{◌≡◌, ◌*◌, ◌^◌, ◌<◌, ◌≤◌, length};
ghost use Rattle.model.specs.Fits.{Fits};
ghost use Rattle.std.specs.Prelude.{None};
ghost use Rattle.model.specs.Lines.{bits, value, digits};
ghost use Rattle.model.specs.Refusals.{due};
ghost use Rattle.model.specs.Tables.{bytes_for, table_fits, LineTable};
ghost use Rattle.model.specs.Valid.{store_refusal};
ghost use Rattle.costs.specs.Cost.{BothCosts};
ghost use Rattle.costs.specs.Lanes.{full_lines};
ghost use Rattle.draw.specs.Marks.{padded, FullAt, DrawnAt, BitOf, Packs};

use model::{Model, Refusal, need};
use summary::CAP;

// Both threads' costs, one for each full line.
#[derive(Clone, Copy)]
pub struct Costs<'a> {
    pub a: &'a [u16],
    pub b: &'a [u16],
    ghost a_all: { full_lines ≤ length a.now },
    ghost b_all: { full_lines ≤ length b.now },
}

// The lines of a model: the states are below g, there are k rounds, and `count` lines.
#[derive(Clone, Copy)]
struct Lines {
    g: usize,
    k: usize,
    count: usize,
    ghost some_states: { 1 ≤ g },
    ghost four: { g ≤ 4 },
    ghost some_rounds: { 1 ≤ k },
    ghost three: { k ≤ 3 },
    ghost counted: { count ≡ bits g k },
}

// The refusal that a model and a line store of so many bytes get.
#[tactic(auto, using(crate::proofs::Refusals::in_range), unfolding(model::specs::Valid::store_refusal, model::specs::Results::first_of))]
pub fn check_store(m: Model, size: usize) -> Result<(), Refusal>
    ensures { due result ≡ store_refusal m (table_fits m size) }
{
    model::check(m)?;
    need(bytes_for(m) <= size, Refusal::Store)
}

// How many bytes hold the line table of a model in range.
#[tactic(auto, using(crate::proofs::Written::bits_counted))]
fn bytes_for(m: Model) -> usize
    requires { Fits m }
    ensures { result ≡ bytes_for m.g m.k }
{
    (model::line_bits(m.g, m.k) as usize).div_ceil(8)
}

// The line table of a model in range, into a store that has room for it, from both threads' costs to any top.
pub fn draw(m: Model, store: &mut [u8], costs: Costs)
    requires fits { Fits m }
    requires room { bytes_for m.g m.k ≤ length store.old }
    requires costs { BothCosts m None None costs.a.now costs.b.now }
    ensures { LineTable m store.old store.new }
{
    let lines = Lines {
        g: m.g as usize,
        k: m.k as usize,
        count: model::line_bits(m.g, m.k) as usize,
    };
    for at in 0..bytes_for(m) {
        store[at] = lines.byte(at, costs);
    }
}

impl Lines {
    // The byte at `at` of the table: its highest bit first.
    fn byte(self, at: usize, costs: Costs) -> u8
        requires { at ≤ 65536 }
        ensures { Packs (DrawnAt self.g self.k costs.entry.a.now costs.entry.b.now) result at }
    {
        let mut byte = 0u8;
        for p in (8 * at..8 * at + 8).rev() {
            byte = 2 * byte + self.bit(p, costs);
        }
        byte
    }

    // The bit at place p: 1 where both threads can follow its full line. There is none past the last line.
    fn bit(self, p: usize, costs: Costs) -> u8
        ensures { BitOf (DrawnAt self.g self.k costs.entry.a.now costs.entry.b.now p) result }
    {
        if self.count <= p {
            return 0;
        }
        let v = self.full(p);
        if costs.a[v] <= CAP && costs.b[v] <= CAP {
            1
        } else {
            0
        }
    }

    // The value of the full line of place p: the lines of up to `passed` states are passed, and the next length has `power` lines. How many
    // lengths are passed is what the loop looks for, so no range says where it ends.
    fn full(self, p: usize) -> usize
        requires { p < bits self.g self.k }
        ensures { FullAt self.g self.k p result × (result < full_lines) }
    {
        let mut rest = p;
        let mut passed: usize = 0;
        let mut power = self.g;
        while power <= rest {
            rest -= power;
            power *= self.g;
            passed += 1;
        }
        self.pad(passed + 1, rest)
    }

    // The value of the line of `size` states whose value is `short`, with its last state repeated up to 2K states.
    fn pad(self, size: usize, short: usize) -> usize
        requires { (1 ≤ size) × (size ≤ 2 * self.k) × (short < self.g ^ size) }
        ensures { (result ≡ value self.g (padded self.k (digits self.g size short))) × (result < full_lines) }
    {
        let mut v = short;
        for _ in size..2 * self.k {
            v = v * self.g + short % self.g;
        }
        v
    }
}
