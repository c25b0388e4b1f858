// The cost of two stretches, one after the other.
ghost use Rattle.std.specs.Prelude.{◌≡◌};
ghost use Rattle.summary.specs.Edges.{best_of};

use summary::CAP;

// The lesser of a count and of two stretches one after the other.
pub fn joined(x: u16, y: u16, old: u16) -> u16
    ensures { result ≡ best_of 0 x y old }
{
    if CAP < x || CAP < y {
        return old;
    }
    old.min((x + y).min(CAP))
}
