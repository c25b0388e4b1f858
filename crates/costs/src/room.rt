// Which table the search of a model needs.
ghost use Rattle.std.specs.Prelude.{◌&&◌, ◌≡◌};
ghost use Rattle.model.specs.Bits.{all_zero};

use model::Model;

// Whether no rule of either thread is held: then the smaller table will do.
pub fn is_free(m: Model) -> bool
    ensures { result ≡ (all_zero m.a.held && all_zero m.b.held) }
{
    model::all_zero(m.a.held) && model::all_zero(m.b.held)
}
