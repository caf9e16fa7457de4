// Finding a tag's end, and what kind of tag it is.
ghost use Rattle.std.specs.Prelude.{◌≡◌, ◌<◌, true, codes, length, slice_index};
ghost use Rattle.template_words.specs.Marks.{begins};
ghost use Rattle.template_tree.specs.Tags.{tag_of, comment_of, shown_of};
ghost use Rattle.template_tree.specs.Inner.Views.{tag_rest_view};

use template_tags::tag::Opening;
use template_words::marks::{after_mark, around_close, around_mark};

/// The text between the marks of a tag.
#[derive(Clone, Copy)]
pub enum TagText<'a> {
    Comment,
    Shown(Opening, &'a str),
}

fn comment_of<'a>(body: &'a str) -> Option<(TagText<'a>, &'a str)>
    ensures { tag_rest_view result ≡ comment_of body.now }
{
    let close = match after_mark(body, "--") {
        Some(_) => "--}}",
        None => "}}",
    };
    let (_, rest) = around_mark(body, close)?;
    Some((TagText::Comment, rest))
}

fn shown_of<'a>(opening: Opening, close: &str, body: &'a str) -> Option<(TagText<'a>, &'a str)>
    requires some { 0 < length close.now }
    requires ascii { slice_index close.now 0 < 128 }
    ensures { tag_rest_view result ≡ shown_of opening close.now body.now }
{
    let (content, rest) = around_close(body, close)?;
    Some((TagText::Shown(opening, content), rest))
}

/// The tag that the text begins with, and what follows it. There is none where it isn't closed.
#[tactic(auto, unfolding(crate::specs::Tags::tag_of))]
pub fn tag_at<'a>(text: &'a str) -> Option<(TagText<'a>, &'a str)>
    requires { begins (codes "{{") text.now ≡ true }
    ensures { tag_rest_view result ≡ tag_of text.now }
{
    if let Some(body) = after_mark(text, "{{!") {
        comment_of(body)
    } else if let Some(body) = after_mark(text, "{{{") {
        shown_of(Opening::Triple, "}}}", body)
    } else if let Some(body) = after_mark(text, "{{") {
        shown_of(Opening::Double, "}}", body)
    } else {
        unreachable!()
    }
}
