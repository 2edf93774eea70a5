// Key bytes that were lent: they are zeroed when the guard ends, whichever way that comes.
ghost use Rattle.std.specs.Prelude.{◌≡◌, length, replicate};

pub(crate) struct LentKey<'a> {
    pub(crate) bytes: &'a mut [u8],
}

impl LentKey<'_> {
    pub(crate) fn bytes(&self) -> &[u8]
        ensures { result.now ≡ self.now.bytes.now }
    {
        self.bytes
    }
}

impl Drop for LentKey<'_> {
    fn drop(self)
        ensures { self.exit.0.now ≡ replicate (length self.entry.bytes.now) 0 }
    {
        self.bytes.fill(0);
        // taking it apart is how a `drop` ends
        let LentKey { bytes: _ } = self;
    }
}
