// A thread's side of the full lines.
ghost use Rattle.std.specs.Prelude.{◌≤◌, ◌<◌};

use crate::parts::{Line, power};
use model::ThreadId;
use summary::pushdown::Pushdown;

// A thread with n turn ends along each full line: its own turns are those of A or of B, and the run starts in a state.
#[derive(Clone, Copy)]
pub struct Side {
    pub system: Pushdown,
    pub id: ThreadId,
    pub n: usize,
    pub start: usize,
    ghost few: { n ≤ 2 },
    ghost start_in: { start < system.g },
}

impl Side {
    ghost use Rattle.std.specs.Prelude.{◌≡◌, suc, ◌*◌, ◌^◌, ◌≤◌};
    ghost use Rattle.costs.specs.Lanes.{full_lines, Value};

    // How many full lines it has.
    pub fn lines(&self) -> usize
        ensures { (result ≡ self.now.system.g ^ (2 * suc self.now.n)) × (result ≤ full_lines) }
    {
        power(self.system.g, 2 * self.n + 2)
    }

    // The full line that has a value.
    pub fn line(&self, value: usize) -> Line
        requires { Value self.now value }
        ensures { (result.g ≡ self.now.system.g) × (result.len ≡ 2 * suc self.now.n) × (result.value ≡ value) }
    {
        Line {
            g: self.system.g,
            len: 2 * self.n + 2,
            value,
        }
    }
}
