// Comparisons of a judgement with what is known of a model.
use judge::Verdict;
use model::{Depths, Model, Refusal};

// What every byte of a store holds before a call.
const KEPT: u8 = 170;

// Found in the steps of the least schedule, with these depths of A and B.
pub fn found(a: usize, b: usize, least: &[u8]) -> Verdict {
    Verdict::Found(least.len() as u64 / 2, Depths { a, b })
}

// The judgement on a model is this, and the schedule store has the least schedule in front, which is empty unless one is Found, and is behind
// it as it was.
fn judged(m: Model, verdict: Verdict, least: &[u8], lines: &mut [u8], schedule: &mut [u8]) -> bool {
    judge::judge(m, lines, schedule) == Ok(verdict) && vectors::holds(schedule, least, KEPT)
}

// The judgement on the model that a record holds, with stores longer than it needs; the line table too where one is given.
pub fn agrees(bytes: &[u8], verdict: Verdict, table: &[u8], least: &[u8]) -> bool {
    let mut lines = [KEPT; 700];
    let mut schedule = [KEPT; 8200];
    judged(
        vectors::model_of(bytes),
        verdict,
        least,
        &mut lines,
        &mut schedule,
    ) && (table.is_empty() || vectors::holds(&lines, table, KEPT))
}

// A model is judged with a line store of n bytes and a schedule store of 8,190; one byte less of either is refused by 7.
pub fn fits(bytes: &[u8], verdict: Verdict, least: &[u8], n: usize) -> bool {
    let m = vectors::model_of(bytes);
    let mut lines = [KEPT; 700];
    n <= 700 && fits_in(m, verdict, least, &mut lines[..n], &mut [KEPT; 8190])
}

// The same, with stores of just these sizes.
fn fits_in(
    m: Model,
    verdict: Verdict,
    least: &[u8],
    lines: &mut [u8],
    schedule: &mut [u8],
) -> bool {
    let n = lines.len();
    let size = schedule.len();
    if n == 0 || size == 0 {
        return false;
    }
    judge::judge(m, &mut lines[..n - 1], schedule) == Err(Refusal::Store)
        && judge::judge(m, lines, &mut schedule[..size - 1]) == Err(Refusal::Store)
        && vectors::filled(lines, KEPT)
        && vectors::filled(schedule, KEPT)
        && judged(m, verdict, least, lines, schedule)
}

// A model is refused with this number, and both stores stay as they were.
pub fn refuses(m: Model, number: u8) -> bool {
    let mut lines = [KEPT; 700];
    let mut schedule = [KEPT; 8190];
    vectors::number(judge::judge(m, &mut lines, &mut schedule)) == number
        && vectors::filled(&lines, KEPT)
        && vectors::filled(&schedule, KEPT)
}
