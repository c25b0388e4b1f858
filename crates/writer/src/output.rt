// A store that is filled from its front: the bytes go in one after another.
ghost use Rattle.std.specs.Prelude.{[], ◌∷◌, replicate};
ghost use Rattle.writer.specs.Output.{Appends, HasRoom, Starts};
ghost use Rattle.writer.specs.Writer.{field_of};

// A store, and the place of the next byte.
#[derive(Drop)]
pub struct Output<'a> {
    pub store: &'a mut [u8],
    pub at: usize,
}

impl<'a> Output<'a> {
    // Nothing put yet.
    pub fn new(store: &'a mut [u8]) -> Output<'a>
        ensures { Starts store.entry result }
    {
        Output { store, at: 0 }
    }

    // One byte.
    pub fn byte(&mut self, b: u8)
        requires { HasRoom self.old (b ∷ []) }
        ensures { Appends self.old self.new (b ∷ []) }
    {
        self.store[self.at] = b;
        self.at += 1;
    }

    // Bytes, as they stand.
    pub fn bytes(&mut self, bytes: &[u8])
        requires { HasRoom self.old bytes.now }
        ensures { Appends self.old self.new bytes.now }
    {
        let end = self.at + bytes.len();
        self.store[self.at..end].copy_from_slice(bytes);
        self.at = end;
    }

    // So many bytes of one value.
    pub fn repeat(&mut self, b: u8, n: usize)
        requires { HasRoom self.old (replicate n b) }
        ensures { Appends self.old self.new (replicate n b) }
    {
        let end = self.at + n;
        self.store[self.at..end].fill(b);
        self.at += n;
    }

    // A field's byte, unless it is the default.
    #[tactic(auto, using(crate::proofs::Outputs::nothing), unfolding(crate::specs::Writer::field_of))]
    pub fn field(&mut self, absent: u8, v: u8)
        requires { HasRoom self.old (field_of absent v) }
        ensures { Appends self.old self.new (field_of absent v) }
    {
        if v != absent {
            self.byte(v);
        }
    }
}
