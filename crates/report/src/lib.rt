// What is printed for a record: the verdict on its model, or the refusal. The text is defined in specs/.
#![tactic(auto)]

ghost use Rattle.std.specs.Prelude.{◌+◌, ◌≤◌, length};
ghost use Rattle.model.specs.Valid.{Valid};
ghost use Rattle.report.specs.Prints.{Told, Prints, Says, text_room, Reports};

use judge::Verdict;
use model::{MOST_BYTES, Model};
use writer::Output;

mod lines;

// The bytes that a store needs: no text has more.
pub const TEXT_ROOM: usize = 28686;

// Puts the text for the bytes of a record at the front of a store, and answers how many bytes it has; 0, as README promises, with the
// store as it was, where the store is shorter than a text can be.
pub fn report(bytes: &[u8], store: &mut [u8]) -> usize
    ensures text { Reports bytes.now result store.old store.new }
    ensures within { result ≤ length store.new }
{
    if store.len() < TEXT_ROOM {
        return 0;
    }
    let mut out = Output::new(store);
    put_report(bytes, &mut out);
    out.at
}

// The same into an output that has room.
fn put_report(bytes: &[u8], out: &mut Output)
    requires { out.old.at + text_room ≤ length out.old.store.now }
    ensures { Says (Prints bytes.now) out.old out.new }
{
    match record::read(bytes) {
        Ok(m) => put_verdict(m, out),
        Err(r) => text::put_line(out, b"refused ", r.number() as u64),
    }
}

// The text of the verdict on a model.
fn put_verdict(m: Model, out: &mut Output)
    requires valid { Valid m }
    requires room { out.old.at + text_room ≤ length out.old.store.now }
    ensures { Says (Told m) out.old out.new }
{
    let mut table = [0u8; judge::MOST_TABLE];
    let mut schedule = [0u8; MOST_BYTES];
    match judge::judge(m, &mut table, &mut schedule) {
        Ok(Verdict::Clear) => lines::put_clear(out, m.g, m.k, &table),
        Ok(Verdict::Long) => out.bytes(b"long\n"),
        Ok(Verdict::Found(n, depths)) => {
            let end = 2 * n as usize;
            lines::put_found(out, n, depths, &schedule[..end]);
        }
        // No valid model is refused where the stores have room.
        Err(_) => unreachable!(),
    }
}
