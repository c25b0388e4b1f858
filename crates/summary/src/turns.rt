// Solves the parts of the table for a top, one after the other: no turn end inside, one, two. The table is lent to each call and written, and
// that it has room stays a clause of each: a struct that lends the table would promise in each call that its `&mut` is still the caller's.
ghost use Rattle.std.specs.Prelude.{◌≡◌, ℕ, ◌≤◌, ◌<◌, length};
ghost use Rattle.summary.specs.Cells.{controls_of, size, first, second, Plain, First, Solved};
ghost use Rattle.summary.specs.Control.{TurnEnd, Inside, Summed};

use crate::Kind;
use crate::cells::{first_of, reset_part, reset_plain, second_of, size_of};
use crate::ends::{first_ends, second_ends, top_edges};
use crate::pushdown::Pushdown;
use crate::search::Search;

impl Pushdown {
    // Solves the stretches within one turn, whatever the table held: each entry is then exact.
    pub fn close_plain(&self, table: &mut [u16])
        requires { size (controls_of self.now.th self.now.g) ≤ length table.old }
        ensures solved { Solved (controls_of self.now.th self.now.g) (Plain self.now.th self.now.top (controls_of self.now.th self.now.g))
            (first (controls_of self.now.th self.now.g)) table.new }
        ensures exact { (ends : ℕ → TurnEnd) → Summed self.now.th self.now.top self.now.g 0 ends table.new }
    {
        let shape = self.shape;
        reset_plain(table, shape.controls);
        top_edges(table, shape, self.top);
        let kind = Kind::Plain;
        Search { system: self, kind }.settle(table);
    }

    // One turn end inside, from a table whose first part is solved: each entry is then exact, along any line.
    pub fn close_first(&self, table: &mut [u16])
        requires room { size (controls_of self.now.th self.now.g) ≤ length table.old }
        requires plain { Solved (controls_of self.now.th self.now.g) (Plain self.now.th self.now.top (controls_of self.now.th self.now.g))
            (first (controls_of self.now.th self.now.g)) table.old }
        ensures solved { Solved (controls_of self.now.th self.now.g) (First self.now.th self.now.top (controls_of self.now.th self.now.g))
            (second (controls_of self.now.th self.now.g)) table.new }
        ensures exact { (ends : ℕ → TurnEnd) → Inside self.now.g 1 ends → Summed self.now.th self.now.top self.now.g 1 ends table.new }
    {
        let shape = self.shape;
        let first = first_of(shape.controls);
        reset_part(table, shape.controls, first, second_of(shape.controls));
        first_ends(table, shape);
        let kind = Kind::Lanes(first);
        Search { system: self, kind }.settle(table);
    }

    // Two turn ends inside of which the first is (o, i), from a table whose first two parts are solved, and which stay so: each
    // entry is then exact, along any line with that first turn end.
    pub fn close_second(&self, table: &mut [u16], o: usize, i: usize)
        requires room { size (controls_of self.now.th self.now.g) ≤ length table.old }
        requires inside { (o < self.now.g) × (i < self.now.g) }
        requires first { Solved (controls_of self.now.th self.now.g) (First self.now.th self.now.top (controls_of self.now.th self.now.g))
            (second (controls_of self.now.th self.now.g)) table.old }
        ensures solved { Solved (controls_of self.now.th self.now.g) (First self.now.th self.now.top (controls_of self.now.th self.now.g))
            (second (controls_of self.now.th self.now.g)) table.new }
        ensures exact { (ends : ℕ → TurnEnd) → Inside self.now.g 2 ends → (ends 0).leave ≡ o → (ends 0).enter ≡ i
            → Summed self.now.th self.now.top self.now.g 2 ends table.new }
    {
        let shape = self.shape;
        let second = second_of(shape.controls);
        reset_part(table, shape.controls, second, size_of(shape.controls));
        second_ends(table, shape, o, i);
        let cross = Kind::Cross(o * 4 + i);
        Search {
            system: self,
            kind: cross,
        }
        .pass(table);
        let lanes = Kind::Lanes(second);
        Search {
            system: self,
            kind: lanes,
        }
        .settle(table);
    }
}
