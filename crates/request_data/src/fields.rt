// The fields of a request's data. Each is made only where its name is needed.
ghost use Rattle.std.specs.Prelude.{◌≡◌, [], ◌∷◌, ◌++◌, IfOk, OnOk, option_copied};
ghost use Rattle.data_tree.specs.Tree as tree;
ghost use Rattle.data_tree.specs.Tree.{view};
ghost use Rattle.needed_data.specs.Fields.{name_of};
ghost use Rattle.request_data.specs.Inner.Views.{entries_of, kept_of, value_of};

use crate::authority::authority;
use crate::grouped::grouped;
use crate::object::Object;
use crate::path_data::{bindings, path_data};
use crate::query_data::query_data;
use data_tree::compact_text::CompactText;
use data_tree::data::Data;
use mock_request::authority::host_and_port;
use mock_request::body::body_text;
use mock_request::cookies::cookie_pairs;
use mock_request::header_fields::header_pairs;
use mock_request::snapshot::Snapshot;
use needed_data::needed::Needed;
use needed_data::request_field::RequestField;
use path_template::path_template::PathTemplate;
use std::alloc::{AllocError, Global};

impl Object {
    /// Pushes a field, if it is needed. Inlined, as the field is known where it is pushed.
    #[inline(always)]
    pub(crate) fn push_field(
        &mut self,
        needed: &Needed<'_>,
        field: RequestField,
        snapshot: &Snapshot,
        template: Option<&PathTemplate>,
    ) -> Result<(), AllocError>
        ensures { OnOk result (entries_of self.new.fields.items ≡ entries_of self.old.fields.items
            ++ kept_of needed.now ((name_of field, value_of snapshot.now (option_copied template.entry) field) ∷ [])) }
    {
        if !needed.has(field) {
            return Ok(());
        }
        self.push(field.name(), value(self.alloc, field, snapshot, template)?)
    }
}

#[inline(always)]
fn value(
    alloc: Global,
    field: RequestField,
    snapshot: &Snapshot,
    template: Option<&PathTemplate>,
) -> Result<Data, AllocError>
    ensures { IfOk result (λ made. view made ≡ value_of snapshot.now (option_copied template.entry) field) }
{
    match field {
        RequestField::BaseUrl => {
            let mut url = String::from_str(alloc, "http://")?;
            url.push_str(authority(alloc, snapshot)?.as_str())?;
            Ok(Data::Text(CompactText::new(url)))
        }
        RequestField::Body => Ok(Data::Text(CompactText::new(body_text(alloc, snapshot)?))),
        RequestField::Cookies => grouped(alloc, cookie_pairs(alloc, snapshot)?),
        RequestField::Headers => grouped(alloc, header_pairs(alloc, snapshot)?),
        RequestField::Host => {
            let authority = authority(alloc, snapshot)?;
            let (host, _port) = host_and_port(authority.as_str());
            text(alloc, host)
        }
        RequestField::Method => text(alloc, snapshot.method()),
        RequestField::Path => {
            let path = snapshot.path();
            path_data(alloc, path, bindings(alloc, template, path)?)
        }
        RequestField::PathSegments => path_data(alloc, snapshot.path(), Vec::new(alloc)),
        RequestField::Port => {
            let authority = authority(alloc, snapshot)?;
            let (_host, port) = host_and_port(authority.as_str());
            Ok(Data::Number(i128::from(port)))
        }
        RequestField::Query => query_data(alloc, snapshot),
        RequestField::Scheme => text(alloc, "http"),
        RequestField::Url => text(alloc, snapshot.url()),
    }
}

fn text(alloc: Global, content: &str) -> Result<Data, AllocError>
    ensures { IfOk result (λ made. view made ≡ tree.text content.now) }
{
    Ok(Data::Text(CompactText::from_str(alloc, content)?))
}
