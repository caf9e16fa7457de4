// The tokens of a text: pieces of text, and tags.
ghost use Rattle.std.specs.Prelude.{◌≡◌, ◌<◌, ◌^◌, true, length, reverse, codes, MatchResult, IfOk};
ghost use Rattle.template_words.specs.Marks.{begins};
ghost use Rattle.template_tree.specs.Tags.{tag_of};
ghost use Rattle.template_tree.specs.Tokens.{token, text_token, tag_next, error_after_backslash};
ghost use Rattle.template_tree.specs.Inner.Views.{token_view, IsReadErrorOf};

use crate::tags::{TagText, tag_at};
use plain_text::text::Text;
use std::alloc::{AllocError, Global};
use template_tags::level::Level;
use template_tags::tag::{Opening, Tag, read_tag};
use template_words::error::{ReadError, TagError};

/// A token.
#[derive(Debug, Drop)]
pub enum Token {
    Text(Text),
    Comment,
    Tag(Opening, Tag),
}

/// The token of a text that begins with a tag, and what follows it, where these blocks are open, the innermost last.
pub fn tag_token<'a>(
    alloc: Global,
    levels: &[Level],
    text: &'a str,
) -> Result<(Token, &'a str), ReadError>
    requires mark { begins (codes "{{") text.now ≡ true }
    requires short { length text.now < 2 ^ 31 }
    requires few { length levels.now < 2 ^ 32 }
    ensures { MatchResult result
        (λ x. tag_next (reverse levels.now) text.now (tag_of text.now) ≡ token (token_view x.0) x.1.now)
        (IsReadErrorOf text.now (tag_next (reverse levels.now) text.now (tag_of text.now))) }
{
    match tag_at(text) {
        None => Err(ReadError::Tag(TagError::UnclosedTag)),
        Some((TagText::Comment, rest)) => Ok((Token::Comment, rest)),
        Some((TagText::Shown(opening, content), rest)) => {
            let tag = read_tag(alloc, opening, content, levels)?;
            Ok((Token::Tag(opening, tag), rest))
        }
    }
}

/// The error of a tag after `\`.
pub fn error_after_backslash(text: &str) -> TagError
    requires { begins (codes "{{") text.now ≡ true }
    ensures { result ≡ error_after_backslash (tag_of text.now) }
{
    match tag_at(text) {
        None => TagError::UnclosedTag,
        Some(_) => TagError::UnsupportedTag,
    }
}

/// A piece of text.
pub fn text_token(alloc: Global, text: &str) -> Result<Token, AllocError>
    ensures { IfOk result (λ t. token_view t ≡ text_token text.now) }
{
    Ok(Token::Text(Text::from(String::from_str(alloc, text)?)))
}
