// A text, and how far it was read. What takes more than one step reads on a copy first, so that after a fault the reader is as it was.
ghost use Rattle.std.specs.Prelude.{◌≡◌, ◌≤◌, length};

#[derive(Clone, Copy, PartialEq, Eq, Debug)]
pub struct Reader<'a> {
    pub text: &'a [u8],
    pub at: usize,
    pub ghost inside: { at ≤ length text.now },
}

impl<'a> Reader<'a> {
    // At the text's start.
    pub fn new(text: &'a [u8]) -> Reader<'a>
        ensures text { result.text ≡ text.entry }
        ensures at { result.at ≡ 0 }
    {
        Reader { text, at: 0 }
    }
}
