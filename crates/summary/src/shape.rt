// The shape of a table.
ghost use Rattle.summary.specs.Sizes.{ShapeFits};

// What a table has: so many controls, destinations of staying up to `stays`, and `dests` destinations in all.
#[derive(Clone, Copy)]
pub struct Shape {
    pub controls: usize,
    pub stays: usize,
    pub dests: usize,
    ghost fits: { ShapeFits (record { controls = controls; stays = stays; dests = dests }) },
}
