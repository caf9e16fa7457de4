// Reading a text as a template.
ghost use Rattle.std.specs.Prelude.{◌≡◌, ◌≤◌, ◌<◌, ◌^◌, ◌⊎◌, [], length, reverse, MatchResult, IfOk, IfErr, IsErrOf};
ghost use Rattle.template_tree.specs.Grammar.{Spells, IsTemplateError, IsParseError};
ghost use Rattle.template_tree.specs.Inner.Frames.{nest_view, Read};
ghost use Rattle.template_tree.specs.Inner.Views.{token_view, IsNextError};
ghost use Rattle.template_tree.specs.Source.{with_escape, unescaped};
ghost use Rattle.template_tree.specs.Tokens.{token, next_of};
ghost use Rattle.template_tree.specs.Template.{tree_of};
ghost use Rattle.template_tree.specs.Tree.{Nodes, nodes_view};
ghost use Rattle.template_tree.specs.declared.parser.TheConstants.{TEXT_LIMIT};

use crate::error::{ParseError, TemplateError, TemplateErrorKind};
use crate::escape::Escape;
use crate::nest::{Nest, empty_nest, with_token};
use crate::node::Node;
use crate::template::Template;
use crate::tokens::{Token, error_after_backslash, tag_token, text_token};
use std::alloc::Global;
use template_tags::level::Level;
use template_words::error::{ReadError, TagError};
use template_words::marks::mark_offset;

/// The most bytes of a template's text.
pub const TEXT_LIMIT: usize = 65_536;

/// The error of a tag that begins at that byte.
fn tag_error(error: TagError, at: usize) -> ParseError
    ensures { result ≡ ParseError.Template (record { kind = TemplateErrorKind.Tag error; at = at }) }
{
    ParseError::Template(TemplateError {
        kind: TemplateErrorKind::Tag(error),
        at,
    })
}

/// The token that what is left of a text begins with, and what follows it, where these blocks are open, the innermost
/// last.
#[tactic(auto, unfolding(crate::specs::Tokens::next_of))]
fn read_token<'a>(
    alloc: Global,
    text_length: usize,
    levels: &[Level],
    rest: &'a str,
) -> Result<(Token, &'a str), ParseError>
    requires some { 0 < length rest.now }
    requires left { length rest.now ≤ text_length }
    requires short { text_length ≤ TEXT_LIMIT }
    requires few { length levels.now < 2 ^ 32 }
    ensures { MatchResult result
        (λ x. next_of (reverse levels.now) rest.now ≡ token (token_view x.0) x.1.now)
        (IsNextError text_length (next_of (reverse levels.now) rest.now)) }
{
    match mark_offset(rest) {
        None => Ok((text_token(alloc, rest)?, "")),
        Some(0) => match tag_token(alloc, levels, rest) {
            Ok(found) => Ok(found),
            Err(ReadError::OutOfMemory) => Err(ParseError::OutOfMemory),
            Err(ReadError::Tag(error)) => Err(tag_error(error, text_length - rest.len())),
        },
        Some(offset) => {
            let (front, mark) = rest.split_at(offset);
            if front.ends_with("\\") {
                return Err(tag_error(error_after_backslash(mark), text_length - mark.len()));
            }
            Ok((text_token(alloc, front)?, mark))
        }
    }
}

/// The blocks that are open at the end of a text, and the nodes after the last of their tags.
fn read_nest(alloc: Global, text: &str, escape: Escape) -> Result<Nest, ParseError>
    requires { length text.now ≤ TEXT_LIMIT }
    ensures { MatchResult result (λ nest. Read (with_escape escape text.now) (nest_view nest) [])
        (IsParseError text.now) }
{
    let mut nest = empty_nest(alloc);
    let mut rest = text;
    while !rest.is_empty() {
        let left = rest.len();
        let (token, after) = read_token(alloc, text.len(), nest.levels.as_slice(), rest)?;
        nest = with_token(alloc, escape, left, token, nest)?;
        rest = after;
    }
    Ok(nest)
}

/// The nodes that a text spells.
fn read_nodes(alloc: Global, text: &str, escape: Escape) -> Result<Vec<Node>, ParseError>
    requires { length text.now ≤ TEXT_LIMIT }
    ensures { MatchResult result (λ nodes. Spells (with_escape escape text.now) (nodes_view nodes.items))
        (IsParseError text.now) }
{
    let nest = read_nest(alloc, text, escape)?;
    match nest.levels.last() {
        None => Ok(nest.here),
        Some(level) => Err(tag_error(TagError::UnclosedTag, text.len() - level.left)),
    }
}

fn read_template(alloc: Global, text: &str, escape: Escape) -> Result<Template, ParseError>
    requires { length text.now ≤ TEXT_LIMIT }
    ensures { MatchResult result (λ template. Spells (with_escape escape text.now) (tree_of template))
        (IsParseError text.now) }
{
    let nodes = read_nodes(alloc, text, escape)?;
    Ok(Template::new(nodes))
}

/// The template that a text spells, or its first error. Nothing is escaped.
pub fn parse(alloc: Global, text: &str) -> Result<Template, ParseError>
    ensures found { IfOk result (λ template. Spells (unescaped text.now) (tree_of template)) }
    ensures wrong { IfErr result (IsParseError text.now) }
    ensures too_long { TEXT_LIMIT < length text.now →
        IsErrOf result (ParseError.Template (record { kind = TemplateErrorKind.TooLong; at = TEXT_LIMIT })) }
    ensures every_tree { (tree : Nodes) → Spells (unescaped text.now) tree →
        MatchResult result (λ template. tree_of template ≡ tree) (λ e. e ≡ ParseError.OutOfMemory) }
    ensures every_error { (error : TemplateError) → IsTemplateError text.now error →
        MatchResult result (λ template. ⊥)
        (λ e. (e ≡ ParseError.Template error) ⊎ (e ≡ ParseError.OutOfMemory)) }
{
    parse_with(alloc, text, Escape::Off)
}

/// The template that a text spells, whose prints are escaped so, or its first error. A text of more than `TEXT_LIMIT`
/// bytes is refused before any memory is taken.
pub fn parse_with(alloc: Global, text: &str, escape: Escape) -> Result<Template, ParseError>
    ensures found { IfOk result (λ template. Spells (with_escape escape text.now) (tree_of template)) }
    ensures wrong { IfErr result (IsParseError text.now) }

    // However little memory there is.
    ensures too_long { TEXT_LIMIT < length text.now →
        IsErrOf result (ParseError.Template (record { kind = TemplateErrorKind.TooLong; at = TEXT_LIMIT })) }

    ensures every_tree { (tree : Nodes) → Spells (with_escape escape text.now) tree →
        MatchResult result (λ template. tree_of template ≡ tree) (λ e. e ≡ ParseError.OutOfMemory) }
    ensures every_error { (error : TemplateError) → IsTemplateError text.now error →
        MatchResult result (λ template. ⊥)
        (λ e. (e ≡ ParseError.Template error) ⊎ (e ≡ ParseError.OutOfMemory)) }
{
    if text.len() > TEXT_LIMIT {
        return Err(ParseError::Template(TemplateError {
            kind: TemplateErrorKind::TooLong,
            at: TEXT_LIMIT,
        }));
    }
    read_template(alloc, text, escape)
}
