// The parts of a line, read off its value: a number whose digits are its states.
ghost use Rattle.std.specs.Prelude.{◌≡◌, ◌+◌, ◌*◌, ◌^◌, ◌≤◌, ◌<◌, get_or};
ghost use Rattle.model.specs.Lines.{digits};
ghost use Rattle.costs.specs.Ends.{turn_of, first_state};
ghost use Rattle.costs.specs.Lanes.{full_lines, line_lane};

use model::ThreadId;

// A line of `len` states below g, by its value.
#[derive(Clone, Copy)]
pub struct Line {
    pub g: usize,
    pub len: usize,
    pub value: usize,
    ghost some: { 1 ≤ g },
    ghost four: { g ≤ 4 },
    ghost six: { len ≤ 6 },
    ghost below: { value < g ^ len },
}

impl Line {
    // State j, and 0 beyond the line's end.
    pub fn state(self, j: usize) -> usize
        ensures { (result ≡ get_or (digits self.g self.len self.value) j 0) × (result < self.g) }
    {
        if self.len <= j {
            return 0;
        }
        let p = power(self.g, self.len - 1 - j);
        self.value % (p * self.g) / p
    }

    // The lane of a thread's turn end j. That there are three turns at most is the range of the caller's own loop; a type
    // for a number up to 2 would be unwrapped at each use.
    pub fn lane(self, id: ThreadId, j: usize) -> usize
        requires { j ≤ 2 }
        ensures { (result ≡ line_lane id self.g self.len self.value j) × (result < 16) }
    {
        let turn = turn_of(id, j);
        self.state(turn) * 4 + self.state(turn + 1)
    }

    // The state in which a thread's first turn starts.
    pub fn first_state(self, id: ThreadId, start: usize) -> usize
        requires { start < self.g }
        ensures { (result ≡ first_state id start (digits self.g self.len self.value)) × (result < self.g) }
    {
        match id {
            ThreadId::A => start,
            ThreadId::B => self.state(0),
        }
    }
}

// A power of G: so many lines have `len` states. By a loop: by the library's `pow` a line table took more instructions, a fourteenth
// of all.
pub fn power(g: usize, len: usize) -> usize
    requires { (g ≤ 4) × (len ≤ 6) }
    ensures { (result ≡ g ^ len) × (result ≤ full_lines) }
{
    let mut r = 1;
    for _ in 0..len {
        r *= g;
    }
    r
}

// The number of a thread's own turn j.
pub fn turn_of(id: ThreadId, j: usize) -> usize
    requires { j ≤ 2 }
    ensures { (result ≡ turn_of id j) × (result ≤ 5) }
{
    match id {
        ThreadId::A => 2 * j,
        ThreadId::B => 2 * j + 1,
    }
}
