// The costs of full lines with two turn ends, one first turn end after the other: the table holds one of them at a time.
// The lists of costs are slices with a clause on their length, and not arrays: `costs::lines` is named in docs/DECISIONS.md, and an array in
// place of a slice would ask more of its callers. That the list of lanes is the side's is a clause too, since a struct of both would repeat the side.
ghost use Rattle.std.specs.Prelude.{◌≡◌, ◌+◌, ◌*◌, ◌≤◌, ◌<◌, None, length};
ghost use Rattle.summary.specs.Cells.{controls_of, size};
ghost use Rattle.costs.specs.Cost.{WhereNamed};
ghost use Rattle.costs.specs.Lanes.{full_lines, FirstSolved, SideCosts, CostsTo, FirstLanes};

use crate::LINES;
use crate::reading::Reading;
use crate::side::Side;

// The costs of all full lines with two turn ends.
pub fn fill_ends(table: &mut [u16], costs: &mut [u16], named: &mut [u16], side: &Side)
    requires ends { side.now.n ≡ 2 }
    requires room { size (controls_of side.now.system.th side.now.system.g) ≤ length table.old }
    requires costs { length costs.old ≡ full_lines }
    requires named { WhereNamed side.now.system.top (λ f. length named.old ≡ full_lines) }
    requires solved { FirstSolved side.now.system table.old }
    ensures any { SideCosts side.now None costs.new }
    ensures named { WhereNamed side.now.system.top (λ f. SideCosts side.now f named.new) }
{
    let mut lanes = [0usize; LINES];
    find_lanes(&mut lanes, side);
    for o in 0..side.system.g {
        fill_from(table, costs, named, side, &lanes, o);
    }
}

// The lane of each full line's first turn end.
fn find_lanes(lanes: &mut [usize; LINES], side: &Side)
    ensures { FirstLanes side.now lanes.new }
{
    for v in 0..side.lines() {
        lanes[v] = side.line(v).lane(side.id, 0);
    }
}

// The costs of the full lines whose first turn end is left at o.
fn fill_from(
    table: &mut [u16],
    costs: &mut [u16],
    named: &mut [u16],
    side: &Side,
    lanes: &[usize; LINES],
    o: usize,
)
    requires ends { (side.now.n ≡ 2) × (o < side.now.system.g) }
    requires room { size (controls_of side.now.system.th side.now.system.g) ≤ length table.old }
    requires costs { length costs.old ≡ full_lines }
    requires named { WhereNamed side.now.system.top (λ f. length named.old ≡ full_lines) }
    requires lanes { FirstLanes side.now lanes.now }
    requires solved { FirstSolved side.now.system table.old }
    requires any_before { CostsTo side.now None (o * 4) costs.old }
    requires named_before { WhereNamed side.now.system.top (λ f. CostsTo side.now f (o * 4) named.old) }
    ensures solved { FirstSolved side.now.system table.new }
    ensures any { CostsTo side.now None (o * 4 + 4) costs.new }
    ensures named { WhereNamed side.now.system.top (λ f. CostsTo side.now f (o * 4 + 4) named.new) }
{
    for i in 0..side.system.g {
        side.system.close_second(table, o, i);
        let reading = Reading::<2> { side, cells: table };
        reading.fill_slice(costs, named, lanes, o * 4 + i);
    }
}
