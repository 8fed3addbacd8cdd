// What takes a text, one piece after the other.
ghost use Rattle.std.specs.Prelude.{◌≡◌, ℕ, true, false, List, length};
ghost use Rattle.parts.specs.Sinks.{SinkLaws};

// `fits` says that the bytes may be put, and `took` that the second came from the first by putting the bytes.
pub trait Sink {
    ghost fits: { Self → List ℕ → Type 0 };

    ghost took: { Self → List ℕ → Self → Type 0 };

    fn put(&mut self, bytes: &[u8])
        requires { fits self.old bytes.now }
        ensures { took self.old bytes.now self.new };

    // Whether it takes no more. Then it stays as it is whatever is put, so the rest need not be made.
    fn is_full(&self) -> bool
        ensures { result ≡ true → (s : List ℕ) → took self.now s self.now }
    {
        false
    }

    // Takes so many bytes without seeing them, and answers whether it did: one that only measures can.
    fn skip(&mut self, bytes: usize) -> bool
        ensures taken { result ≡ true → (s : List ℕ) → length s ≡ bytes → took self.old s self.new }
        ensures kept { result ≡ false → self.new ≡ self.old }
    {
        false
    }

    ghost laws: { SinkLaws fits took };
}
