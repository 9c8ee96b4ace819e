ghost use Rattle.std.specs.Prelude.{◌+◌, ◌^◌, ◌<◌, length};
ghost use Rattle.std.specs.Option.{ForSome};

// A part of a text, and the index of its first byte in the rule line.
#[derive(Clone, Copy, Debug, PartialEq, Eq)]
pub struct Field<'a> {
    pub text: &'a [u8],
    pub place: usize,
}

// The fields of a text that is split at a byte, as an iterator.
#[derive(Drop)]
pub struct Reader<'a> {
    // the text from the next field on; none after the last
    pub(crate) rest: Option<&'a [u8]>,
    // the index of the next field's first byte in the rule line
    pub(crate) place: usize,
    // the byte between two fields
    pub(crate) sep: u8,
    ghost room: { ForSome rest (λ t. place + length t.now < 2 ^ 64) },
}
