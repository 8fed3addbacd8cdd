// A buffer, and how far it was written.
ghost use Rattle.std.specs.Prelude.{◌+◌, ◌≤◌, length};

use super::sink::Sink;

#[derive(Drop)]
pub struct Writer<'a> {
    pub out: &'a mut [u8],
    pub at: usize,
    pub ghost inside: { at ≤ length out.now },
}

impl<'a> Sink for Writer<'a> {
    ghost use Rattle.parts.specs.Writers.{Wrote, writer_laws};

    ghost fits = { λ w s. w.at + length s ≤ length w.out.now };

    ghost took = { λ w s v. Wrote w s v };

    ghost laws = { writer_laws };

    fn put(&mut self, bytes: &[u8]) {
        let end = self.at + bytes.len();
        self.out[self.at..end].copy_from_slice(bytes);
        self.at = end;
    }
}
