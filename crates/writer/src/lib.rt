// The bytes of a record, put one after another into a buffer that has room for them.
#![tactic(auto)]

ghost use Rattle.std.specs.Prelude.{cond, ◌++◌, ◌≡◌, ◌+◌, ◌≤◌, length, take, drop};
ghost use Rattle.writer.specs.Output.{Appends, HasRoom};
ghost use Rattle.writer.specs.Put.{Put, Halves, Small, SmallModel};
ghost use Rattle.writer.specs.Writer.{symbols_of, symbol_bits, rule_bytes, rules_of, map_of, head_bytes, record_of};
ghost use Rattle.writer.specs.Writer.{top_of, held_bytes, second_of, second_map, second_fields, target_bytes};

use model::{Model, Right, Rule, Thread, Top};
pub use output::Output;

mod output;

// That a model's numbers are small is a clause: a caller may hold any model, and has checked it already. With a type for it each clause would say
// `x.model` for `m`, and each caller would build it from the proof that it now gives.

// A whole record, from the front of the buffer.
#[tactic(auto, using(crate::proofs::Outputs::appended), unfolding(crate::specs::Writer::record_of))]
pub fn put_record(s: &mut [u8], m: Model) -> usize
    requires { SmallModel m × (length (record_of m) ≤ length s.old) }
    ensures { Put s.old s.new 0 result (record_of m) }
{
    let mut out = Output::new(s);
    put_head(&mut out, m);
    put_rules(&mut out, m.a);
    put_rules(&mut out, m.b);
    out.at
}

// The first `size` bytes of one slice to the front of another.
pub fn copy(from: &[u8], to: &mut [u8], size: usize)
    requires { (size ≤ length from.now) × (size ≤ length to.old) }
    ensures { to.new ≡ take size from.now ++ drop size to.old }
{
    to[..size].copy_from_slice(&from[..size]);
}

// The map and the head fields.
#[tactic(auto, using(crate::proofs::Outputs::appended), unfolding(crate::specs::Writer::head_bytes))]
fn put_head(out: &mut Output, m: Model)
    requires { SmallModel m × HasRoom out.old (head_bytes m) }
    ensures { Appends out.old out.new (head_bytes m) }
{
    out.byte(map_byte(m));
    out.field(4, m.g);
    out.field(2, m.k);
    out.field(0, m.start.0);
    put_target(out, m);
    out.field(0, m.a.first.0);
    out.field(0, m.b.first.0);
}

// The target byte, and the second map with its fields, which bit 7 announces, unless it would say nothing.
#[tactic(auto, using(crate::proofs::Outputs::appended), unfolding(crate::specs::Writer::target_bytes))]
fn put_target(out: &mut Output, m: Model)
    requires { SmallModel m × HasRoom out.old (target_bytes m.target.0 (second_of m)) }
    ensures { Appends out.old out.new (target_bytes m.target.0 (second_of m)) }
{
    let map = second_map(m);
    out.byte(m.target.0 + weight(128, map == 0));
    out.field(0, map);
    put_second(out, m);
}

// The second map: the weights of its fields that are present.
#[tactic(auto, unfolding(crate::specs::Writer::second_map, crate::specs::Writer::weight_of))]
fn second_map(m: Model) -> u8
    ensures { (result ≡ second_map (second_of m)) × (result ≤ 63) }
{
    weight(1, m.a.top.is_none())
        + weight(2, m.b.top.is_none())
        + weight(4, model::all_zero(m.a.held))
        + weight(8, model::all_zero(m.b.held))
        + weight(16, m.a.symbols == 16)
        + weight(32, m.b.symbols == 16)
}

// The fields of the second map, in bit order.
#[tactic(auto, using(crate::proofs::Outputs::appended), unfolding(crate::specs::Writer::second_fields))]
fn put_second(out: &mut Output, m: Model)
    requires { HasRoom out.old (second_fields (second_of m)) }
    ensures { Appends out.old out.new (second_fields (second_of m)) }
{
    put_top(out, m.a.top);
    put_top(out, m.b.top);
    put_held(out, m.a.held);
    put_held(out, m.b.held);
    out.field(16, m.a.symbols);
    out.field(16, m.b.symbols);
}

// The symbol of a top that is named.
fn put_top(out: &mut Output, t: Top)
    requires { HasRoom out.old (top_of t) }
    ensures { Appends out.old out.new (top_of t) }
{
    if let Some(x) = t {
        out.byte(x.0);
    }
}

// The eight bytes of a thread's marks, unless no mark stands.
#[tactic(auto, using(crate::proofs::Outputs::nothing), unfolding(crate::specs::Writer::held_bytes))]
fn put_held(out: &mut Output, held: [u8; 8])
    requires { HasRoom out.old (held_bytes held) }
    ensures { Appends out.old out.new (held_bytes held) }
{
    if !model::all_zero(held) {
        out.bytes(&held);
    }
}

// The map of a model: the weights of its fields that are present.
#[tactic(auto, unfolding(crate::specs::Writer::map_of, crate::specs::Writer::weight_of))]
fn map_byte(m: Model) -> u8
    requires { SmallModel m }
    ensures { result ≡ map_of m }
{
    let g = weight(1, m.g == 4);
    let k = weight(2, m.k == 2);
    let start = weight(4, m.start.0 == 0);
    let a = weight(16, m.a.first.0 == 0);
    let b = weight(32, m.b.first.0 == 0);
    let rules_a = weight(64, m.a.count == 0);
    let rules_b = weight(128, m.b.count == 0);
    g + k + start + 8 + a + b + rules_a + rules_b
}

// What a field adds to a map: the weight of its bit, unless the field is absent.
fn weight(w: u8, absent: bool) -> u8
    ensures { (result ≡ cond absent 0 w) × (result ≤ w) }
{
    if absent { 0 } else { w }
}

// The rules of a thread: their count and then each, or nothing where there is none.
#[tactic(auto, using(crate::proofs::Outputs::appended), unfolding(crate::specs::Writer::rules_of))]
fn put_rules(out: &mut Output, t: Thread)
    requires { Small t × HasRoom out.old (rules_of t) }
    ensures { Appends out.old out.new (rules_of t) }
{
    out.field(0, t.count as u8);
    for rule in &t.rules[..t.count] {
        put_rule(out, *rule);
    }
}

// A rule: its map, its before state and symbol in one byte, and what is not said by absence.
#[tactic(auto, using(crate::proofs::Outputs::appended), unfolding(crate::specs::Writer::rule_bytes))]
fn put_rule(out: &mut Output, r: Rule)
    requires { Halves r × HasRoom out.old (rule_bytes r) }
    ensures { Appends out.old out.new (rule_bytes r) }
{
    let before = r.before.0;
    let after = r.after.0;
    out.byte(weight(1, after == before) + symbol_bits(r.right));
    out.byte(before * 16 + r.symbol.0);
    out.field(before, after);
    put_symbols(out, r.right);
}

// The bits of the new symbols in a rule's map.
fn symbol_bits(x: Right) -> u8
    ensures { (result ≡ symbol_bits x) × (result ≤ 6) }
{
    match x {
        Right::Remove => 0,
        Right::Swap(_) => 2,
        Right::Push(_, _) => 6,
    }
}

// The new symbols of a rule, the first first.
fn put_symbols(out: &mut Output, x: Right)
    requires { HasRoom out.old (symbols_of x) }
    ensures { Appends out.old out.new (symbols_of x) }
{
    match x {
        Right::Remove => {}
        Right::Swap(a) => out.byte(a.0),
        Right::Push(a, b) => {
            out.byte(a.0);
            out.byte(b.0);
        }
    }
}
