// The lines of a verdict: Found with the steps of a schedule, and Clear with how many lines of each length are marked.
ghost use Rattle.std.specs.Prelude.{◌++◌, ◌≡◌, ◌+◌, ◌*◌, ◌≤◌, length};
ghost use Rattle.model.specs.Bits.{bit_at};
ghost use Rattle.model.specs.Schedules.{steps_of};
ghost use Rattle.report.specs.Table.{Fills, standing};
ghost use Rattle.report.specs.Text.{found_line, clear_line, step_line, step_lines, count_of, pair_line, count_lines};
ghost use Rattle.writer.specs.Output.{Appends, HasRoom};

use costs::parts;
use model::Depths;
use writer::Output;

// Puts the line of Found, and a line for each step of a schedule.
#[tactic(auto, using(writer::proofs::Outputs::appended))]
pub fn put_found(out: &mut Output, n: u64, depths: Depths, schedule: &[u8])
    requires { HasRoom out.old (found_line n depths ++ step_lines (steps_of schedule.now)) }
    ensures { Appends out.old out.new (found_line n depths ++ step_lines (steps_of schedule.now)) }
{
    put_head(out, n, depths);
    put_steps(out, schedule);
}

// Puts `found`, the number of steps and both depths.
#[tactic(auto, using(writer::proofs::Outputs::appended), unfolding(crate::specs::Text::found_line))]
fn put_head(out: &mut Output, n: u64, depths: Depths)
    requires { HasRoom out.old (found_line n depths) }
    ensures { Appends out.old out.new (found_line n depths) }
{
    out.bytes(b"found ");
    text::put_number(out, n);
    out.byte(b' ');
    put_pair(out, depths.a, depths.b);
}

// Puts a line for each step of a schedule.
fn put_steps(out: &mut Output, schedule: &[u8])
    requires { HasRoom out.old (step_lines (steps_of schedule.now)) }
    ensures { Appends out.old out.new (step_lines (steps_of schedule.now)) }
{
    for i in 0..schedule.len() / 2 {
        put_step(out, schedule[2 * i], schedule[2 * i + 1]);
    }
}

// Puts the line of a step.
fn put_step(out: &mut Output, turn: u8, rule: u8)
    requires { HasRoom out.old (step_line (record { turn = turn; rule = rule })) }
    ensures { Appends out.old out.new (step_line (record { turn = turn; rule = rule })) }
{
    text::put_number(out, turn as u64);
    let word = [b' ', text::letter_of(turn), b' '];
    text::put_line(out, &word, rule as u64);
}

// Puts `clear`, and for each length how many of its lines are marked in a line table.
pub fn put_clear(out: &mut Output, g: u8, k: u8, table: &[u8])
    requires fills { Fills g (2 * k) table.now }
    requires room { out.old.at + 48 ≤ length out.old.store.now }
    ensures text { Appends out.old out.new
        (clear_line ++ count_lines g (standing g table.now) (2 * k)) }
    ensures low { out.new.at ≤ out.old.at + 48 }
{
    out.bytes(b"clear\n");
    put_counts(out, g as usize, 2 * k as usize, table);
}

// Puts a line for each length up to the longest.
fn put_counts(out: &mut Output, g: usize, longest: usize, table: &[u8])
    requires fills { Fills g longest table.now }
    requires room { out.old.at + 7 * longest ≤ length out.old.store.now }
    ensures text { Appends out.old out.new (count_lines g (standing g table.now) longest) }
    ensures low { out.new.at ≤ out.old.at + 7 * longest }
{
    let mut from = 0;
    for n in 0..longest {
        let lines = parts::power(g, n + 1);
        put_pair(out, n + 1, count(table, from, lines));
        from += lines;
    }
}

// Puts a line of two numbers.
#[tactic(auto, using(writer::proofs::Outputs::appended), unfolding(crate::specs::Text::pair_line))]
fn put_pair(out: &mut Output, x: usize, y: usize)
    requires { HasRoom out.old (pair_line x y) }
    ensures { Appends out.old out.new (pair_line x y) }
{
    text::put_number(out, x as u64);
    text::put_line(out, b" ", y as u64);
}

// How many bits of a line table stand, of n from a place on.
fn count(table: &[u8], from: usize, n: usize) -> usize
    requires { (from + n ≤ 5460) × (5460 ≤ 8 * length table.now) }
    ensures { (result ≡ count_of (λ v. bit_at table.now (from + v)) n) × (result ≤ n) }
{
    let mut r = 0;
    for v in 0..n {
        let p = from + v;
        r += ((table[p / 8] >> (p % 8)) % 2) as usize;
    }
    r
}
