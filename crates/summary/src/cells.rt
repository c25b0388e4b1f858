// The cells of the table, and the table before a search.
ghost use Rattle.std.specs.Prelude.{◌≡◌, ◌+◌, ◌≤◌, ◌<◌, length};
ghost use Rattle.summary.specs.Cells.{plain, gone, lane, free_of, flags_of, number_of, first, second, size, stay_of, ResetNode, Reset};

use crate::UNREACHED;

// The cells of a table for a thread without held rules.
pub const SMALL: usize = 35904;

// The cells of a table for any thread.
pub const SIZE: usize = 71808;

// A cell that is 0, for edges that have one part.
pub const REST: usize = 4;

// The ranges of numbers that make an address are clauses here: with a type for each of them every address would unwrap four.

// Where the part with one turn end inside starts, in a table of so many controls.
pub fn first_of(controls: usize) -> usize
    requires { controls ≤ 8 }
    ensures { result ≡ first controls }
{
    272 * controls
}

// Where the part with two starts.
pub fn second_of(controls: usize) -> usize
    requires { controls ≤ 8 }
    ensures { result ≡ second controls }
{
    4624 * controls
}

// Where the table ends.
pub fn size_of(controls: usize) -> usize
    requires { controls ≤ 8 }
    ensures { result ≡ size controls }
{
    8976 * controls
}

// The controls that no held step has just led to.
pub fn free_of(controls: usize) -> usize
    ensures { result ≡ free_of controls }
{
    controls.min(4)
}

// How many controls have the same shared state.
pub(crate) fn flags_of(controls: usize) -> usize
    ensures { (result ≡ flags_of controls) × (result ≤ 2) }
{
    if 4 < controls { 2 } else { 1 }
}

// The number of the control with a shared state, after a held step or another.
pub(crate) fn number_of(held: bool, state: u8) -> usize
    ensures { result ≡ number_of held state }
{
    4 * usize::from(held) + state as usize
}

// The destination of a pop at a control.
pub fn gone_at(p: usize) -> usize
    requires { p < 8 }
    ensures { (result ≡ gone p) × (result < 16) }
{
    if p < 4 { p } else { p + 8 }
}

// The cell of a stretch within one turn: from a control with a symbol on top to a destination.
pub fn plain_cell(p: usize, top: usize, d: usize) -> usize
    requires { (p < 8) × (top < 17) × (d < 16) }
    ensures { result ≡ plain p top d }
{
    (p * 17 + top) * 16 + d
}

// The first of its sixteen lanes in the part that starts at `base`.
pub fn lane_cell(base: usize, p: usize, top: usize, d: usize) -> usize
    requires { (base ≤ second 8) × (p < 8) × (top < 17) × (d < 16) }
    ensures { result ≡ lane base p top d }
{
    base + plain_cell(p, top, d) * 16
}

// Makes the part without turn ends blank, the cells of one control and symbol after the other.
pub fn reset_plain(table: &mut [u16], controls: usize)
    requires { (controls ≤ 8) × (first controls ≤ length table.old) }
    ensures { Reset controls 0 (first controls) table.old table.new }
{
    let nodes = 17 * controls;
    for k in 0..nodes {
        reset_node(table, 16 * k, stay_of(k));
    }
}

// The destination of staying in place, of a control and a symbol in their order; 16, which is none, after a held step. A
// number and no Option, so that it is compared with a destination as it stands.
fn stay_of(k: usize) -> usize
    requires { k < 136 }
    ensures { result ≡ stay_of k }
{
    if k < 68 { 4 + k / 17 } else { 16 }
}

// Makes sixteen cells blank: to stay in place takes no step.
fn reset_node(table: &mut [u16], from: usize, stay: usize)
    requires { from + 16 ≤ length table.old }
    ensures { ResetNode from stay 16 table.old table.new }
{
    for d in 0..16 {
        table[from + d] = if d == stay { 0 } else { UNREACHED };
    }
}

// Makes a part with turn ends blank: nothing in it is reached. `controls` is for the contract: `Reset` says by it which cells are those of staying
// in place, and none of them is in such a part.
pub fn reset_part(table: &mut [u16], controls: usize, from: usize, to: usize)
    requires { (first controls ≤ from) × (from ≤ to) × (to ≤ length table.old) }
    ensures { Reset controls from to table.old table.new }
{
    table[from..to].fill(UNREACHED);
}
