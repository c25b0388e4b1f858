// Both threads' steps in one schedule, by turn.
ghost use Rattle.std.specs.Prelude.{[], ◌∷◌, ◌≡◌, ◌+◌, ◌*◌, ◌/◌, ◌≤◌, ◌<◌, length};
ghost use Rattle.std.proofs.lemmas.List.Edits.{sets};
ghost use Rattle.model.specs.Schedules.{bytes_of, steps_of, step_at};
ghost use Rattle.witness.specs.Merge.{merged, Next};

// Writes the steps of a and those of b, the lower turn first. Each round takes a step of one of the two lists, so each list has its own
// count beside the loop's.
pub fn merge(a: &[u8], b: &[u8], out: &mut [u8])
    requires { length a.now + length b.now ≤ length out.old }
    ensures { out.new ≡
        sets out.old 0 (bytes_of (merged (steps_of a.now) (steps_of b.now))) }
{
    let count = a.len() / 2 + b.len() / 2;
    let mut i = 0;
    let mut j = 0;
    for at in 0..count {
        if first_next(a, i, b, j) {
            put(a, i, out, at);
            i += 1;
        } else {
            put(b, j, out, at);
            j += 1;
        }
    }
}

// Whether the next step is a's at place i, rather than b's at place j.
fn first_next(a: &[u8], i: usize, b: &[u8], j: usize) -> bool
    requires { (i ≤ length a.now / 2) × (j ≤ length b.now / 2) × (i + j < length a.now / 2 + length b.now / 2) }
    ensures { Next a.now i b.now j result }
{
    j == b.len() / 2 || (i < a.len() / 2 && a[2 * i] <= b[2 * j])
}

// Copies the step at place i to place at: two bytes, of which a slice's copy would say no more.
fn put(from: &[u8], i: usize, out: &mut [u8], at: usize)
    requires { (2 * i + 1 < length from.now) × (2 * at + 1 < length out.old) }
    ensures { out.new ≡ sets out.old (2 * at) (bytes_of (step_at from.now i ∷ [])) }
{
    out[2 * at] = from[2 * i];
    out[2 * at + 1] = from[2 * i + 1];
}
