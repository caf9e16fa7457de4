// What the templates of a response look at.
ghost use Rattle.std.specs.Prelude.{map};
ghost use Rattle.needed_data.specs.Needed.{Includes};
ghost use Rattle.stub_response.specs.Inner.Alike.{IsNeededBy};
ghost use Rattle.stub_response.specs.Response.{body_templates, templates_of};

use mapping_model::header_lines::HeaderLine;
use mapping_model::response_spec::Body;
use mapping_model::template_text::TemplateText;
use needed_data::needed::Needed;

/// What all its templates look at.
pub(crate) fn needed_by<'a>(
    headers: &'a [HeaderLine<TemplateText>],
    body: &'a Body<TemplateText>,
) -> Needed<'a>
    ensures { IsNeededBy result (templates_of headers.now body.now) }
{
    let mut needed = needed_by_headers(headers);
    add_body(body, &mut needed);
    needed
}

/// What the templates of its headers look at.
pub(crate) fn needed_by_headers(headers: &[HeaderLine<TemplateText>]) -> Needed<'_>
    ensures { IsNeededBy result (map (λ line. line.value) headers.now) }
{
    let mut needed = Needed::new();
    for header in headers {
        header.value.program().add_needed(&mut needed);
    }
    needed
}

/// What the template of its body looks at, if it has one.
pub(crate) fn needed_by_body(body: &Body<TemplateText>) -> Needed<'_>
    ensures { IsNeededBy result (body_templates body.now) }
{
    let mut needed = Needed::new();
    add_body(body, &mut needed);
    needed
}

// What the template of the body looks at is needed too.
fn add_body<'a>(body: &'a Body<TemplateText>, needed: &mut Needed<'a>)
    ensures more { Includes needed.new needed.old }
    ensures finds { IsNeededBy needed.new (body_templates body.now) }
{
    match body {
        Body::Text(template) => template.program().add_needed(needed),
        Body::Empty | Body::Json(_) | Body::Base64(_) => {}
    }
}
