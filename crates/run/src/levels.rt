// The least steps to the end from a configuration, by the stack's levels: for each place, the count with that level's symbol on top.
ghost use Rattle.std.specs.Prelude.{◌≡◌, ℕ, ◌+◌, ◌*◌, ◌%◌, ◌≤◌, ◌<◌, min, length, get_or, replicate, set};
ghost use Rattle.model.specs.Fits.{RightFits};
ghost use Rattle.run.specs.Exits.{exit_at, least_over};
ghost use Rattle.run.specs.Levels.{levels_size, level_at, over_level, after_step};

use crate::course::Course;
pub use crate::course::EXITS;
use model::Right;

// How many cells the levels have: 24 for the empty stack, and 24 for each of 4,095 symbols that may lie under the top.
pub const LEVELS: usize = 98304;

// How many symbols may lie under the top, and one for the empty stack.
pub const SYMBOLS: usize = 4096;

// The stack under the top: for each level its symbol, and for each place the least steps to the end with that symbol on top. The two stay
// apart: of a level there are 24 counts and one symbol, and the inner loops read counts alone.
#[derive(Drop)]
pub struct Levels {
    pub counts: [u16; LEVELS],
    pub symbols: [u8; SYMBOLS],
    ghost size: { length counts ≡ levels_size },
    ghost room: { length symbols ≡ 4096 },
    ghost fit: { (i : ℕ) → get_or symbols i 0 ≤ 16 },
}

// Ranges of levels, places and symbols are asked for one by one: with a type for each, every address would unwrap three.
impl Levels {
    // Levels of which none is made, with no symbol.
    pub fn new() -> Levels
        ensures counts { result.counts ≡ replicate levels_size 0 }
        ensures symbols { result.symbols ≡ replicate 4096 0 }
    {
        Levels {
            counts: [0; LEVELS],
            symbols: [0; SYMBOLS],
        }
    }

    // The least steps to the end, after a step to place x whose right side has come onto level i.
    pub(crate) fn after_step(&self, course: &Course, i: usize, x: usize, right: Right) -> usize
        requires { (i < 4096) × (x < 24) × RightFits right }
        ensures { result ≡ after_step course.now.exits self.now.counts i x right }
    {
        match right {
            Right::Remove => self.count(i, x),
            Right::Swap(a) => self.over_level(course, i, a.0 as usize, x),
            Right::Push(a, b) => self.over_two(course, i, a.0 as usize, b.0 as usize, x),
        }
    }

    // The least steps with two symbols on top of a level.
    fn over_two(&self, course: &Course, i: usize, a: usize, b: usize, x: usize) -> usize
        requires { (i < 4096) × (a ≤ 16) × (b ≤ 16) × (x < 24) }
        ensures { result ≡ least_over (exit_at course.now.exits x a) (over_level course.now.exits self.now.counts i b) 24 }
    {
        let mut best = course.exit(x, a, 24);
        for y in 0..24 {
            best = self.by_way(course, i, b, y, course.exit(x, a, y), best);
        }
        best
    }

    // The lesser of a count and of the way where the upper symbol is gone at place y after so many steps. Such a way is not looked at where
    // those steps alone are as many.
    fn by_way(
        &self,
        course: &Course,
        i: usize,
        b: usize,
        y: usize,
        gone: usize,
        best: usize,
    ) -> usize
        requires { (i < 4096) × (b ≤ 16) × (y < 24) × (gone < 65536) × (best < 65536) }
        ensures { result ≡ min best (gone + over_level course.now.exits self.now.counts i b y) }
    {
        if best <= gone {
            return best;
        }
        best.min(gone + self.over_level(course, i, b, y))
    }

    // The least steps with a symbol on top of a level, from place x.
    pub(crate) fn over_level(&self, course: &Course, i: usize, symbol: usize, x: usize) -> usize
        requires { (i < 4096) × (symbol ≤ 16) × (x < 24) }
        ensures { (result ≡ over_level course.now.exits self.now.counts i symbol x) × (result < 65536) }
    {
        let mut best = course.exit(x, symbol, 24);
        for y in 0..24 {
            best = best.min(course.exit(x, symbol, y) + self.count(i, y));
        }
        best
    }

    // What level i has for a place.
    fn count(&self, i: usize, x: usize) -> usize
        requires { (i < 4096) × (x < 24) }
        ensures { (result ≡ level_at self.now.counts i x) × (result < 65536) }
    {
        self.counts[24 * i + x] as usize
    }

    // Makes the lowest level, that of the empty stack: the floor is on top, and no rule takes it.
    pub(crate) fn ground(&mut self, course: &Course)
        ensures { (x : ℕ) → x < 24 → level_at self.new.counts 0 x ≡ exit_at course.now.exits x 16 24 }
    {
        for x in 0..24 {
            self.counts[x] = course.exit(x, 16, 24) as u16;
        }
    }

    // Puts a symbol onto level i: the level above gets the least steps with it on top, at the places of the controls from turn `passed` on.
    pub(crate) fn push(&mut self, course: &Course, i: usize, symbol: usize, passed: usize)
        requires { (i + 1 < 4096) × (symbol ≤ 16) × (passed ≤ course.now.plan.n) }
        ensures kept { (k : ℕ) → k < 24 * (i + 1) → get_or self.new.counts k 0 ≡ get_or self.old.counts k 0 }
        ensures raised { (x : ℕ) → 8 * passed ≤ x → x < 8 * course.now.plan.n + 8 → x % 8 < course.now.plan.controls
            → level_at self.new.counts (i + 1) x ≡ over_level course.now.exits self.old.counts i symbol x }
        ensures symbols { self.new.symbols ≡ set self.old.symbols (i + 1) symbol }
    {
        for x in 8 * passed..8 * course.plan.n + 8 {
            if x % 8 < course.plan.controls {
                self.counts[24 * (i + 1) + x] = self.over_level(course, i, symbol, x) as u16;
            }
        }
        self.symbols[i + 1] = symbol as u8;
    }
}
