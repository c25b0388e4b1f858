// A tray read to its end, before any of its records is judged.
ghost use Rattle.batch.specs.Counts.{Counts};

use model::Refusal;

// How many records a tray has, or the refusal of the first bad one.
pub fn count(tray: &[u8]) -> Result<usize, Refusal>
    ensures { Counts tray.now result }
{
    let mut rest = tray;
    let mut n = 0;
    // not `tray::rest`, which would read each record once more
    while let Some(found) = tray::first(rest)? {
        rest = &rest[found.size..];
        n += 1;
    }
    Ok(n)
}
