// The table of a thread: what all lines share is solved once, and the rest for a line.
ghost use Rattle.std.specs.Prelude.{◌≡◌, ◌≤◌, ◌<◌, length};
ghost use Rattle.summary.specs.Cells.{controls_of, size};
ghost use Rattle.run.specs.Base.{Base, ExactFor, SideBase, SideRoom};

use crate::plan::Switch;
use costs::side::Side;
use summary::pushdown::Pushdown;

// Solves what all lines with n turn ends share in the table of a thread, however many there are: it asks for no side, whose run has a start and
// two turn ends at most. That the table has room is a clause, here and below: a struct that lends it would promise in each call that its `&mut`
// is still the caller's.
pub fn base(table: &mut [u16], system: &Pushdown, n: usize)
    requires { size (controls_of system.now.th system.now.g) ≤ length table.old }
    ensures { Base system.now.th system.now.top system.now.g n table.new }
{
    system.close_plain(table);
    if n == 0 {
        return;
    }
    system.close_first(table);
}

// Solves the rest for the lines with a first turn end.
pub(crate) fn for_line(table: &mut [u16], side: &Side, first: Switch)
    requires room { SideRoom side.now table.old }
    requires inside { (first.leave < side.now.system.g) × (first.enter < side.now.system.g) }
    requires base { SideBase side.now table.old }
    ensures base { SideBase side.now table.new }
    ensures exact { side.now.n ≡ 2
        → ExactFor side.now.system.th side.now.system.top side.now.system.g first.leave first.enter table.new }
{
    if side.n != 2 {
        return;
    }
    side.system.close_second(table, first.leave, first.enter);
}
