// The fewest steps that the two threads together make along a full line to the target.
ghost use Rattle.std.specs.Prelude.{◌*◌, ◌^◌, ◌≤◌};
ghost use Rattle.costs.specs.Lanes.{full_lines};
ghost use Rattle.judge.specs.Best.{Best};

use costs::line::joined;
use costs::parts::power;
use draw::Costs;
use summary::UNREACHED;

// The fewest over all full lines that end in the target, capped, or UNREACHED where there is no line, by each line's least steps of the
// two threads. The last state of a line is the rest of its value by G.
#[tactic(auto, using(crate::proofs::Choices::best_none, crate::proofs::Choices::best_passed, crate::proofs::Choices::best_joined))]
pub fn choose(g: usize, k: usize, target: usize, costs: Costs) -> u16
    requires { (1 ≤ g) × (g ≤ 4) × (k ≤ 3) }
    ensures { Best g target (g ^ (2 * k)) costs.entry.a.now costs.entry.b.now result }
{
    let mut best = UNREACHED;
    for v in 0..power(g, 2 * k) {
        if v % g == target {
            best = joined(costs.a[v], costs.b[v], best);
        }
    }
    best
}
