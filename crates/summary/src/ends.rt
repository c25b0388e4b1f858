// What takes no step: the turn ends themselves, and to stay under the named top.
// The states of a turn end, the symbol and the destination come one by one, each from the loop of one function: a struct of them would be
// made again for each.
ghost use Rattle.std.specs.Prelude.{◌+◌, ◌*◌, ◌≤◌, ◌<◌, length};
ghost use Rattle.model.specs.Fits.{TopFits};
ghost use Rattle.summary.specs.Cells.{Ready, plain, lane, lane_of, size, first, second, rest, free_of, TopEdges, FirstEnds, SecondEnds};
ghost use Rattle.summary.specs.Edges.{Relaxed, Row, Below};
ghost use Rattle.summary.specs.Shapes.{sizes};

use crate::cells::{REST, first_of, free_of, lane_cell, plain_cell, second_of};
use crate::edges::{long_row, row};
use crate::shape::Shape;
use model::{Symbol, Top};

// The steps that each of them takes.
const STEPS: u16 = 0;

// To stay in place under the named top. How many cells have fallen.
pub fn top_edges(table: &mut [u16], shape: Shape, top: Top) -> u64
    requires ready { Ready shape.controls (first shape.controls) table.old }
    requires fits { TopFits top }
    ensures { Relaxed (TopEdges top shape.controls) table.old table.new result }
{
    match top {
        None => 0,
        Some(s) => named_edges(table, shape, s),
    }
}

// The same where a top is named, at each state.
fn named_edges(table: &mut [u16], shape: Shape, s: Symbol) -> u64
    requires ready { Ready shape.controls (first shape.controls) table.old }
    requires fits { s.0 ≤ 15 }
    ensures { Relaxed (Below (free_of shape.controls) (λ q. Row 0 (plain q s.0 (8 + q)) rest rest 1)) table.old table.new result }
{
    let symbol = s.0 as usize;
    let states = free_of(shape.controls);
    let mut changes = 0;
    for q in 0..states {
        changes += row(table, STEPS, plain_cell(q, symbol, 8 + q), REST, REST, 1);
    }
    changes
}

// One turn end: a turn is left at o, and the next one is entered at i. How many cells have fallen.
pub fn first_ends(table: &mut [u16], shape: Shape) -> u64
    requires { Ready shape.controls (second shape.controls) table.old }
    ensures { Relaxed (FirstEnds (sizes shape)) table.old table.new result }
{
    let states = free_of(shape.controls);
    let mut changes = 0;
    for o in 0..states {
        changes += ends_from(table, shape, o);
    }
    changes
}

// The turn end (o, i) before another one: the lanes are the second one's.
pub fn second_ends(table: &mut [u16], shape: Shape, o: usize, i: usize) -> u64
    requires ready { Ready shape.controls (size shape.controls) table.old }
    requires inside { (o < shape.controls) × (i < shape.controls) }
    ensures { Relaxed (SecondEnds (sizes shape) o i) table.old table.new result }
{
    let first = first_of(shape.controls);
    let second = second_of(shape.controls);
    let mut changes = 0;
    for top in 0..17 {
        changes += long_row(
            table,
            STEPS,
            lane_cell(second, o, top, 0),
            REST,
            lane_cell(first, i, top, 0),
            shape.dests * 16,
        );
    }
    changes
}

// One turn end, from one state o.
fn ends_from(table: &mut [u16], shape: Shape, o: usize) -> u64
    requires ready { Ready shape.controls (second shape.controls) table.old }
    requires inside { o < free_of shape.controls }
    ensures { Relaxed (Below (free_of shape.controls) (λ i. Below 17 (λ γ. Below shape.dests (λ d.
        Row 0 (lane (first shape.controls) o γ d + lane_of o i) rest (plain i γ d) 1)))) table.old table.new result
        × (result ≤ 1088) }
{
    let states = free_of(shape.controls);
    let mut changes = 0;
    for i in 0..states {
        changes += ends_lane(table, shape, o, i);
    }
    changes
}

// The same for one turn end (o, i).
fn ends_lane(table: &mut [u16], shape: Shape, o: usize, i: usize) -> u64
    requires ready { Ready shape.controls (second shape.controls) table.old }
    requires inside { (o < free_of shape.controls) × (i < free_of shape.controls) }
    ensures { Relaxed (Below 17 (λ γ. Below shape.dests (λ d.
        Row 0 (lane (first shape.controls) o γ d + lane_of o i) rest (plain i γ d) 1))) table.old table.new result
        × (result ≤ 272) }
{
    let mut changes = 0;
    for top in 0..17 {
        changes += ends_symbol(table, shape, o, i, top);
    }
    changes
}

// The same for one turn end and one symbol.
fn ends_symbol(table: &mut [u16], shape: Shape, o: usize, i: usize, top: usize) -> u64
    requires ready { Ready shape.controls (second shape.controls) table.old }
    requires inside { (o < free_of shape.controls) × (i < free_of shape.controls) × (top < 17) }
    ensures { Relaxed (Below shape.dests (λ d. Row 0 (lane (first shape.controls) o top d + lane_of o i) rest (plain i top d) 1))
        table.old table.new result
        × (result ≤ shape.dests) }
{
    let first = first_of(shape.controls);
    let dests = shape.dests;
    let mut changes = 0;
    for d in 0..dests {
        changes += row(
            table,
            STEPS,
            lane_cell(first, o, top, d) + (o * 4 + i),
            REST,
            plain_cell(i, top, d),
            1,
        );
    }
    changes
}
