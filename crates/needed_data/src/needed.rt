//! The data that is looked at.
ghost use Rattle.std.specs.Prelude.{◌≡◌, ◌↔◌, false, true, [], ◌∷◌, All, IfOk, IfSome, IsTrue, codes, map};
ghost use Rattle.std.specs.List.{list_any};
ghost use Rattle.std.specs.Str.{bytes_eq};
ghost use Rattle.data_tree.specs.declared.step.Step.TheVariants.{Name};
ghost use Rattle.needed_data.specs.Needed.{is_json_needed, is_json_field_needed, is_needed, nothing};
ghost use Rattle.data_tree.specs.RootPaths.{json_path};
ghost use Rattle.needed_data.specs.Needed.{json_field_path, Includes, Covers};
ghost use Rattle.data_tree.specs.RootPaths.{field_path};
ghost use Rattle.needed_data.specs.Fields.{name_of};
ghost use Rattle.needed_data.specs.Inner.Parts.{IncludesParts};

use crate::field_set::{self, has_field, set_of, union};
use crate::request_field::RequestField;
use arrayvec::ArrayVec;
use data_tree::compact_text::CompactText;
use data_tree::step::Step;
use std::alloc::{AllocError, Global};
use std::marker::Model;

/// How many names of fields of the body's data are told apart: data with more of them is needed as a whole.
const MAX_NAMES: usize = 8;

/// Which of a request's data is looked at: all of it, the body's data or fields of it by their names, or fields of the
/// request. Takes no memory.
#[derive(Drop)]
pub struct Needed<'a> {
    everything: bool,
    json: bool,
    json_names: ArrayVec<&'a str, MAX_NAMES>,
    fields: u16,
}

impl<'a> Model for Needed<'a> {
    ghost use Rattle.std.specs.Prelude.{map};
    ghost use Rattle.needed_data.specs.Needed.{NeededData};
    ghost use Rattle.needed_data.specs.Inner.FieldSet.{names_in};

    ghost Value = { NeededData };

    ghost view = { λ n. record {
      everything = n.everything;
      json = n.json;
      json_names = map (λ name. name.now) n.json_names.items;
      names = names_in n.fields;
    } };
}

/// The same, with names of its own.
#[derive(Debug, Drop)]
pub struct KeptNeeded {
    everything: bool,
    json: bool,
    json_names: Vec<CompactText>,
    fields: u16,
}

impl Model for KeptNeeded {
    ghost use Rattle.needed_data.specs.Needed.{NeededData};
    ghost use Rattle.needed_data.specs.Inner.FieldSet.{names_in};

    ghost Value = { NeededData };

    ghost view = { λ n. record {
      everything = n.everything;
      json = n.json;
      json_names = n.json_names.items;
      names = names_in n.fields;
    } };
}

impl<'a> Needed<'a> {
    /// Nothing is needed.
    pub fn new() -> Needed<'a>
        ensures everything { result.everything ≡ false }
        ensures json { result.json ≡ false }
        ensures json_names { result.json_names ≡ [] }
        ensures names { result.names ≡ [] }
    {
        Needed {
            everything: false,
            json: false,
            json_names: ArrayVec::new(),
            fields: 0,
        }
    }

    /// What was needed of another is needed too.
    pub fn add_kept(&mut self, kept: &'a KeptNeeded)
        ensures more { Includes self.new self.old }
        ensures kept { Includes self.new kept.now }
    {
        self.add_kept_parts(kept);
        self.add_json_fields(kept.json_names.as_slice());
    }

    // All of it but the names of fields of the body's data.
    fn add_kept_parts(&mut self, kept: &KeptNeeded)
        ensures more { Includes self.new self.old }
        ensures parts { IncludesParts self.new kept.now }
    {
        self.everything = self.everything | kept.everything;
        self.json = self.json | kept.json;
        self.fields = union(self.fields, kept.fields);
    }

    fn add_json_fields(&mut self, names: &'a [CompactText])
        ensures more { Includes self.new self.old }
        ensures fields { All (λ name. Covers self.new (json_field_path name)) names.now }
    {
        for name in names {
            self.add_json_field(name.as_str());
        }
    }

    /// What is needed, to be kept.
    pub fn to_kept(&self, alloc: Global) -> Result<KeptNeeded, AllocError>
        ensures { IfOk result (λ kept. kept ≡ self.now) }
    {
        let mut json_names = Vec::new(alloc);
        for name in self.json_names.as_slice() {
            json_names.push(CompactText::from_str(alloc, name)?)?;
        }
        Ok(KeptNeeded {
            everything: self.everything,
            json: self.json,
            json_names,
            fields: self.fields,
        })
    }

    /// What the steps find is needed too: the body's data, a field of it, a field of the request, or else everything.
    pub fn add_steps(&mut self, steps: &'a [Step])
        ensures more { Includes self.new self.old }
        ensures steps { Covers self.new steps.now }
    {
        match named(steps) {
            Some((first, later)) if first == "json" => self.add_json_steps(later),
            Some((first, later)) if first == "request" => self.add_request_steps(later),
            _ => self.add_everything(),
        }
    }

    /// The body's data is needed too.
    pub fn add_json(&mut self)
        ensures more { Includes self.new self.old }
        ensures json { Covers self.new json_path }
    {
        self.json = true;
    }

    /// What the steps find in the body's data is needed too: a field of it, or else all of it.
    pub fn add_json_steps(&mut self, steps: &'a [Step])
        ensures more { Includes self.new self.old }
        ensures steps { Covers self.new (Name (codes "json") ∷ steps.now) }
    {
        match named(steps) {
            Some((name, _)) => self.add_json_field(name),
            None => self.add_json(),
        }
    }

    fn add_json_field(&mut self, name: &'a str)
        ensures more { Includes self.new self.old }
        ensures field { Covers self.new (json_field_path name.now) }
    {
        if self.has_json_field(name) {
            return;
        }
        if self.json_names.is_full() {
            self.add_json();
        } else {
            self.json_names.push(name);
        }
    }

    fn add_everything(&mut self)
        ensures more { Includes self.new self.old }
        ensures everything { self.new.everything ≡ true }
    {
        self.everything = true;
    }

    // Steps that are taken from the request.
    fn add_request_steps(&mut self, steps: &'a [Step])
        ensures more { Includes self.new self.old }
        ensures steps { Covers self.new (Name (codes "request") ∷ steps.now) }
    {
        match named(steps) {
            Some((name, _)) => self.add_field(name),
            None => self.add_everything(),
        }
    }

    // Only all of the request's data has a field of an unknown name.
    fn add_field(&mut self, name: &str)
        ensures more { Includes self.new self.old }
        ensures field { Covers self.new (field_path name.now) }
    {
        match RequestField::from_name(name) {
            Some(field) => self.add_known_field(field),
            None => self.add_everything(),
        }
    }

    fn add_known_field(&mut self, field: RequestField)
        ensures more { Includes self.new self.old }
        ensures field { Covers self.new (field_path (name_of field)) }
    {
        self.fields = union(self.fields, set_of(field));
    }

    /// Whether nothing is needed.
    pub fn is_empty(&self) -> bool
        ensures { IsTrue result ↔ (self.now ≡ nothing) }
    {
        !self.everything
            && !self.json
            && self.json_names.is_empty()
            && field_set::is_empty(self.fields)
    }

    /// Whether all of the body's data is needed.
    pub fn has_json(&self) -> bool
        ensures { result ≡ is_json_needed self.now }
    {
        self.everything || self.json
    }

    /// The names of the fields of the body's data that are needed, where not all of it is.
    pub fn json_names(&self) -> &[&'a str]
        ensures { map (λ name. name.now) result.now ≡ self.now.json_names }
    {
        self.json_names.as_slice()
    }

    // Whether the field of the body's data of that name is needed.
    fn has_json_field(&self, name: &str) -> bool
        ensures { result ≡ is_json_field_needed self.now name.now }
    {
        self.has_json() || has_name(self.json_names.as_slice(), name)
    }

    /// Whether that field of the request is needed.
    #[inline]
    pub fn has(&self, field: RequestField) -> bool
        ensures { result ≡ is_needed self.now (name_of field) }
    {
        self.everything || has_field(self.fields, field)
    }
}

// Whether the name is one of them. For a few, this takes half as long as `contains`.
fn has_name(names: &[&str], name: &str) -> bool
    ensures { result ≡ list_any (λ own. bytes_eq own.now name.now) names.now }
{
    for own in names {
        if *own == name {
            return true;
        }
    }
    false
}

// The name of the first step, where it is one, and the steps after it.
fn named(steps: &[Step]) -> Option<(&str, &[Step])>
    ensures { IfSome result (λ found. steps.now ≡ Name found.0.now ∷ found.1.now) }
{
    match steps.split_first() {
        Some((Step::Name(name), later)) => Some((name.as_str(), later)),
        _ => None,
    }
}
