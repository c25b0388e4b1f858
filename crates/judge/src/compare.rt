// Which of two schedules in stores comes first.
ghost use Rattle.std.specs.Prelude.{◌*◌, ◌≤◌, length};
ghost use Rattle.judge.specs.Least.{Compared};

// Whether the first `count` steps of a store stand before those of another one. A byte is a turn or a rule, so the first byte that
// differs decides.
pub fn comes_before(fresh: &[u8], kept: &[u8], count: usize) -> bool
    requires { (2 * count ≤ length fresh.now) × (2 * count ≤ length kept.now) }
    ensures { Compared fresh.now kept.now count result }
{
    let end = 2 * count;
    &fresh[..end] < &kept[..end]
}
