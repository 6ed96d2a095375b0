// A key that is handed over, and is zeros afterwards.
ghost use Rattle.std.specs.Prelude.{◌≡◌, length, replicate};

// The bytes of a key, which nobody else reads or writes while it lasts. It can't be let go, only handed over.
pub struct Key<'a>(pub(crate) &'a mut [u8]);

impl<'a> Key<'a> {
    // The key in some bytes: not a copy, but the bytes themselves.
    pub fn new(bytes: &'a mut [u8]) -> Key<'a>
        ensures value { result.0.now ≡ bytes.entry.now }
        ensures themselves { result.0.ghost_name ≡ bytes.entry.ghost_name }
    {
        Key(bytes)
    }
}

// The bytes of a key that is being used. Its end writes zeros.
pub(crate) struct Wiped<'a>(pub(crate) &'a mut [u8]);

impl<'a> Drop for Wiped<'a> {
    fn drop(self)
        ensures { self.exit.0.now ≡ replicate (length self.entry.0.now) 0 }
    {
        self.0.fill(0);
        // A value with a `Drop` of its own is taken apart at the end of it.
        let Wiped(_) = self;
    }
}
