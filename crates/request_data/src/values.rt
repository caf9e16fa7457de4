// The values of one name.
ghost use Rattle.std.specs.Prelude.{◌≡◌, [], ◌∷◌, ◌++◌, length, nat_eq, IfOk, OnOk};
ghost use Rattle.data_tree.specs.Tree.{view};
ghost use Rattle.mock_request.specs.Values.{first_of};
ghost use Rattle.request_data.specs.Grouped.{values_tree};
ghost use Rattle.request_data.specs.Inner.RunFields.{items_in, HoldsValues};

use data_tree::compact_text::CompactText;
use data_tree::data::Data;
use data_tree::parts::first_text;
use std::alloc::{AllocError, Global};
use std::marker::Model;

/// The values of one name, which contracts see as their bytes. They lie as they do in the data.
#[derive(Drop)]
pub(crate) struct Values {
    items: Vec<Data>,
}

impl Model for Values {
    ghost use Rattle.std.specs.Prelude.{ℕ, List};
    ghost use Rattle.request_data.specs.Inner.Values.{values_in, AreTexts};

    ghost Value = { List (List ℕ) };

    ghost view = { λ v. values_in v.items.items };

    ghost invariant = { λ v. AreTexts v.items.items };
}

impl Values {
    pub(crate) fn new(alloc: Global) -> Values
        ensures { result ≡ [] }
    {
        Values {
            items: Vec::new(alloc),
        }
    }

    /// None, with room for that many values.
    pub(crate) fn with_room(alloc: Global, room: usize) -> Result<Values, AllocError>
        ensures { IfOk result (λ made. made ≡ []) }
    {
        Ok(Values {
            items: Vec::with_capacity(alloc, room)?,
        })
    }

    pub(crate) fn push(&mut self, value: CompactText) -> Result<(), AllocError>
        ensures { OnOk result (self.new ≡ self.old ++ value ∷ []) }
    {
        self.items.push(Data::Text(value))?;
        Ok(())
    }

    /// Puts others after these.
    pub(crate) fn append(&mut self, mut others: Values) -> Result<(), AllocError>
        ensures { OnOk result (self.new ≡ self.old ++ others) }
    {
        if self.items.is_empty() {
            self.items = others.items;
            return Ok(());
        }
        self.items.append(&mut others.items)
    }

    pub(crate) fn is_empty(&self) -> bool
        ensures { result ≡ nat_eq (length self.now) 0 }
    {
        self.items.is_empty()
    }

    /// The first value, or the empty text.
    pub(crate) fn first(&self) -> &str
        ensures { result.now ≡ first_of self.now }
    {
        first_text(self.items.as_slice())
    }

    /// The first value and all values.
    pub(crate) fn into_data(self) -> Data
        ensures tree { view result ≡ values_tree self }
        ensures holds { HoldsValues result self }
    {
        Data::Values(self.items)
    }

    /// The values that a value of the data holds.
    pub(crate) fn from_data(value: Data) -> Values
        requires { HoldsValues value (items_in (view value)) }
        ensures { result ≡ items_in (view value) }
    {
        let Data::Values(items) = value else {
            unreachable!()
        };
        Values { items }
    }
}
