// The blocks that are open where a tag is.
ghost use Rattle.std.specs.Prelude.{◌≡◌, ◌<◌, ◌^◌, length, reverse};
ghost use Rattle.template_tags.specs.Levels.{block_name, block_named, is_each, loops_open, loop_with_parameter};

use plain_text::text::Text;

/// The most blocks that may be open.
pub const BLOCK_LIMIT: usize = 64;

/// The most loops that may be open.
pub const LOOP_LIMIT: usize = 4;

/// A kind of block.
#[derive(Clone, Copy, Debug)]
pub enum Block {
    If,
    Unless,
    Each,
}

impl Block {
    /// The word that opens the block after `#`, and closes it after `/`.
    pub(crate) fn name(self) -> &'static str
        ensures { result.now ≡ block_name self }
    {
        match self {
            Block::If => "if",
            Block::Unless => "unless",
            Block::Each => "each",
        }
    }

    /// The block of that name.
    pub(crate) fn from_name(name: &str) -> Option<Block>
        ensures { result ≡ block_named name.now }
    {
        match name {
            "if" => Some(Block::If),
            "unless" => Some(Block::Unless),
            "each" => Some(Block::Each),
            _ => None,
        }
    }

    fn is_each(self) -> bool
        ensures { result ≡ is_each self }
    {
        matches!(self, Block::Each)
    }
}

/// A block that is open.
#[derive(Debug, Drop)]
pub struct Level {
    /// The number of bytes that are left of the text at the mark of its tag.
    pub left: usize,
    pub block: Block,
    /// The name of its items, the `x` of `as |x|`.
    pub parameter: Option<Text>,
    /// Whether its else has come.
    pub in_else: bool,
}

impl Level {
    ghost use Rattle.template_tags.specs.Levels.{is_loop, is_parameter};

    /// Whether it is a loop, and not its else part.
    fn is_loop(&self) -> bool
        ensures { result ≡ is_loop self.now }
    {
        self.block.is_each() && !self.in_else
    }

    /// Whether its items have that name.
    fn is_named(&self, name: &str) -> bool
        ensures { result ≡ is_parameter name.now self.now.parameter }
    {
        matches!(&self.parameter, Some(parameter) if name == parameter.as_str())
    }
}

/// The number of open loops.
pub(crate) fn loops_open(levels: &[Level]) -> usize
    ensures { result ≡ loops_open (reverse levels.now) }
{
    let mut count = 0;
    let mut left = levels;
    while let [outer @ .., level] = left {
        if level.is_loop() {
            count += 1;
        }
        left = outer;
    }
    count
}

/// The innermost loop whose items have that name, by the number of loops inside of it.
pub(crate) fn loop_with_parameter(levels: &[Level], name: &str) -> Option<u32>
    requires { length levels.now < 2 ^ 32 }
    ensures { result ≡ loop_with_parameter name.now (reverse levels.now) }
{
    let mut up = 0;
    let mut left = levels;
    while let [outer @ .., level] = left {
        if level.is_loop() {
            if level.is_named(name) {
                return Some(up);
            }
            up += 1;
        }
        left = outer;
    }
    None
}
