// A thread along a line: its plan, and its exits.
ghost use Rattle.std.specs.Prelude.{◌≡◌, ◌≤◌, ◌<◌, length};
ghost use Rattle.run.specs.Exits.{exits_size, exit_at};

use crate::plan::Plan;

// How many cells the exits have: a row of 25 for each of 24 places and 17 symbols.
pub const EXITS: usize = 10200;

// What the writers go by. It is large, so they take it by reference. The exits are flat, so that one address is one sum, and a row lies
// together.
#[derive(Drop)]
pub struct Course {
    pub plan: Plan,
    pub exits: [u16; EXITS],
    ghost size: { length exits ≡ exits_size },
}

impl Course {
    // A cell of the row of place x and a symbol.
    pub fn exit(&self, x: usize, symbol: usize, y: usize) -> usize
        requires { (x < 24) × (symbol ≤ 16) × (y ≤ 24) }
        ensures { (result ≡ exit_at self.now.exits x symbol y) × (result < 65536) }
    {
        self.exits[(x * 17 + symbol) * 25 + y] as usize
    }
}
