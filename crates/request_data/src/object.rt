// An object of the data, made field by field.
ghost use Rattle.std.specs.Prelude.{◌≡◌, [], ◌∷◌, ◌++◌, IfOk, OnOk};
ghost use Rattle.data_tree.specs.Tree.{fields, view, members_view};
ghost use Rattle.request_data.specs.Inner.Views.{entries_of};

use data_tree::compact_text::CompactText;
use data_tree::data::Data;
use std::alloc::{AllocError, Global};

/// The fields so far, which have to be pushed in byte order of their names.
#[derive(Drop)]
pub(crate) struct Object {
    pub(crate) alloc: Global,
    fields: Vec<(CompactText, Data)>,
}

impl Object {
    /// An object with room for that many fields.
    pub(crate) fn with_room(alloc: Global, room: usize) -> Result<Object, AllocError>
        ensures { IfOk result (λ made. entries_of made.fields.items ≡ []) }
    {
        Ok(Object {
            alloc,
            fields: Vec::with_capacity(alloc, room)?,
        })
    }

    pub(crate) fn push(&mut self, name: &str, value: Data) -> Result<(), AllocError>
        ensures { OnOk result (entries_of self.new.fields.items
            ≡ entries_of self.old.fields.items ++ (name.now, view value) ∷ []) }
    {
        self.fields
            .push((CompactText::from_str(self.alloc, name)?, value))?;
        Ok(())
    }

    pub(crate) fn into_data(self) -> Data
        ensures { view result ≡ fields (members_view self.fields.items) }
    {
        Data::Fields(self.fields)
    }
}
