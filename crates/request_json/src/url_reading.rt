// Which URL matcher the fields of a request spell.
ghost use Rattle.std.specs.Prelude.{◌≡◌, IfOk, codes};
ghost use Rattle.mapping_model.specs.declared.url_spec.UrlSpec.TheVariants as url;
ghost use Rattle.request_json.specs.RequestReading.{template_with, template_in, url_of};
ghost use Rattle.request_json.specs.ValueReading.{word};
ghost use Rattle.serde_json.specs.View.{view};

use crate::named_reading::named_optional;
use json_reading::fields::text_field;
use json_reading::kind::Kind;
use json_reading::reading::{Reading, both, either};
use mapping_model::named_matcher::NamedMatcher;
use mapping_model::url_spec::UrlSpec;
use plain_text::items::Items;
use plain_text::text::Text;
use serde_json::Value;
use std::alloc::{AllocError, Global};

/// The one field of a request that names a URL; any URL where there is none.
pub(crate) fn url_of(alloc: Global, value: &Value) -> Result<Reading<UrlSpec>, AllocError>
    ensures { IfOk result (λ url. url ≡ url_of (view value.now)) }
{
    let found = template_in(alloc, value)?;
    let found = either(Kind::TwoUrls, path_pattern_in(alloc, value)?, found);
    let found = either(Kind::TwoUrls, path_in(alloc, value)?, found);
    let found = either(Kind::TwoUrls, pattern_in(alloc, value)?, found);
    match either(Kind::TwoUrls, url_in(alloc, value)?, found) {
        Reading::Read(url) => Ok(Reading::Read(url.unwrap_or(UrlSpec::Any))),
        Reading::Wrong(kind) => Ok(Reading::Wrong(kind)),
    }
}

fn template_in(alloc: Global, value: &Value) -> Result<Reading<Option<UrlSpec>>, AllocError>
    ensures { IfOk result (λ url. url ≡ template_in (view value.now)) }
{
    let template = text_field(alloc, "urlPathTemplate", value)?;
    match both(template, named_optional(alloc, "pathParameters", value)?) {
        Reading::Read((template, parameters)) => Ok(template_with(alloc, template, parameters)),
        Reading::Wrong(kind) => Ok(Reading::Wrong(kind)),
    }
}

fn template_with(
    alloc: Global,
    template: Option<Text>,
    parameters: Option<Items<NamedMatcher>>,
) -> Reading<Option<UrlSpec>>
    ensures { result ≡ template_with template parameters }
{
    match template {
        Some(template) => Reading::Read(Some(UrlSpec::UrlPathTemplate {
            template,
            parameters: parameters.unwrap_or(Items::from(Vec::new(alloc))),
        })),
        None => if parameters.is_none() {
            Reading::Read(None)
        } else {
            Reading::Wrong(Kind::Misshapen)
        },
    }
}

fn url_in(alloc: Global, value: &Value) -> Result<Reading<Option<UrlSpec>>, AllocError>
    ensures { IfOk result (λ found. found ≡ word (codes "url") url.Url (view value.now)) }
{
    match text_field(alloc, "url", value)? {
        Reading::Read(text) => Ok(Reading::Read(text.map(UrlSpec::Url))),
        Reading::Wrong(kind) => Ok(Reading::Wrong(kind)),
    }
}

fn pattern_in(alloc: Global, value: &Value) -> Result<Reading<Option<UrlSpec>>, AllocError>
    ensures { IfOk result (λ found. found ≡ word (codes "urlPattern") url.UrlPattern (view value.now)) }
{
    match text_field(alloc, "urlPattern", value)? {
        Reading::Read(text) => Ok(Reading::Read(text.map(UrlSpec::UrlPattern))),
        Reading::Wrong(kind) => Ok(Reading::Wrong(kind)),
    }
}

fn path_in(alloc: Global, value: &Value) -> Result<Reading<Option<UrlSpec>>, AllocError>
    ensures { IfOk result (λ found. found ≡ word (codes "urlPath") url.UrlPath (view value.now)) }
{
    match text_field(alloc, "urlPath", value)? {
        Reading::Read(text) => Ok(Reading::Read(text.map(UrlSpec::UrlPath))),
        Reading::Wrong(kind) => Ok(Reading::Wrong(kind)),
    }
}

fn path_pattern_in(alloc: Global, value: &Value) -> Result<Reading<Option<UrlSpec>>, AllocError>
    ensures { IfOk result (λ found. found ≡ word (codes "urlPathPattern") url.UrlPathPattern (view value.now)) }
{
    match text_field(alloc, "urlPathPattern", value)? {
        Reading::Read(text) => Ok(Reading::Read(text.map(UrlSpec::UrlPathPattern))),
        Reading::Wrong(kind) => Ok(Reading::Wrong(kind)),
    }
}
