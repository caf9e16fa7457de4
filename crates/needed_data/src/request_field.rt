//! The fields of a request's data, by name.

/// A field of a request.
#[derive(Clone, Copy, Debug)]
pub enum RequestField {
    BaseUrl,
    Body,
    Cookies,
    Headers,
    Host,
    Method,
    Path,
    PathSegments,
    Port,
    Query,
    Scheme,
    Url,
}

impl RequestField {
    ghost use Rattle.std.specs.Prelude.{◌≡◌, ◌<◌, IfSome};
    ghost use Rattle.needed_data.specs.Fields.{name_of};
    ghost use Rattle.needed_data.specs.Inner.FieldSet.{index_of};

    pub fn name(self) -> &'static str
        ensures { result.now ≡ name_of self }
    {
        match self {
            RequestField::BaseUrl => "baseUrl",
            RequestField::Body => "body",
            RequestField::Cookies => "cookies",
            RequestField::Headers => "headers",
            RequestField::Host => "host",
            RequestField::Method => "method",
            RequestField::Path => "path",
            RequestField::PathSegments => "pathSegments",
            RequestField::Port => "port",
            RequestField::Query => "query",
            RequestField::Scheme => "scheme",
            RequestField::Url => "url",
        }
    }

    /// The field of that name.
    pub(crate) fn from_name(name: &str) -> Option<RequestField>
        ensures { IfSome result (λ field. name.now ≡ name_of field) }
    {
        match name {
            "baseUrl" => Some(RequestField::BaseUrl),
            "body" => Some(RequestField::Body),
            "cookies" => Some(RequestField::Cookies),
            "headers" => Some(RequestField::Headers),
            "host" => Some(RequestField::Host),
            "method" => Some(RequestField::Method),
            "path" => Some(RequestField::Path),
            "pathSegments" => Some(RequestField::PathSegments),
            "port" => Some(RequestField::Port),
            "query" => Some(RequestField::Query),
            "scheme" => Some(RequestField::Scheme),
            "url" => Some(RequestField::Url),
            _ => None,
        }
    }

    // The bit that it has in a set.
    pub(crate) fn index(self) -> u16
        ensures index { result ≡ index_of self }
        ensures within { result < 12 }
    {
        self as u16
    }
}
