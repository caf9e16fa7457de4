// The text of a word.
ghost use Rattle.std.specs.Prelude.{◌<◌, ◌^◌, length};

/// The text of a word, which is shorter than 2^31 bytes.
#[derive(Clone, Copy, Debug)]
pub struct WordText<'a> {
    pub text: &'a str,
    ghost short: { length text.now < 2 ^ 31 },
}
