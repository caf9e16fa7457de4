//! The lines that follow the first line of an error on standard error, and warnings.
use crate::fault::Fault;
use crate::known_ids::KnownIds;
use crate::part::Part;
use crate::reasons::json_reason;
use crate::search::{mapping_fault, part_fault};
use crate::shown::{joined, quoted, shortened, shown};
use crate::sought::Sought;
use crate::warnings::{text_at, warnings_of};
use itoa::Buffer;
use mapping_json::error::{MappingError, MappingsError};
use mapping_json::read::mapping_values;
use mapping_json::request_error::RequestDocumentError;
use serde_json::Value;
use std::alloc::{AllocError, Global};

/// How many lines are written for a command: who mends a document mends the first.
const LINE_LIMIT: u32 = 100;

/// What is said of a folder with no file of mappings.
const NO_FILES: &str = "warning: the folder has no file whose name ends in .json\n";

/// Lines about mappings, in the order in which they were found.
#[derive(Drop)]
pub struct Notes {
    text: String,
    /// How many lines may follow.
    left: u32,
    /// The number of the next mapping.
    next: u64,
    /// The ids of the mappings of files.
    ids: KnownIds,
}

/// Where a mapping stands.
#[derive(Clone, Copy)]
pub struct Place<'a> {
    /// The file, or the call that it was posted with.
    pub file: &'a str,
    /// From 1 on, over all files of a command.
    pub number: Option<u64>,
    /// Its index in the list `mappings` of its file, if that has one.
    pub index: Option<usize>,
}

impl Notes {
    pub fn new(alloc: Global) -> Notes {
        Notes {
            text: String::new(alloc),
            left: LINE_LIMIT,
            next: 1,
            ids: KnownIds::new(alloc),
        }
    }

    /// Those of a command that reads so many files: of a folder there may be none.
    pub fn of_files(alloc: Global, count: usize) -> Notes {
        let mut notes = Notes::new(alloc);
        if count == 0 {
            // A warning is said if there is memory for it.
            let _ = notes.add_line([NO_FILES].as_slice());
        }
        notes
    }

    /// Whole lines; nothing where there is nothing to say.
    pub fn as_str(&self) -> &str {
        self.text.as_str()
    }

    pub fn into_string(self) -> String {
        let Notes {
            text,
            left: _left,
            next: _next,
            ids: _ids,
        } = self;
        text
    }

    /// The warnings of a mapping, and where it is wrong, if it has an error.
    pub fn add_mapping(
        &mut self,
        alloc: Global,
        place: Place<'_>,
        value: &Value,
        error: Option<MappingError>,
    ) -> Result<(), AllocError> {
        if self.left == 0 {
            return Ok(());
        }
        if let Some(error) = error {
            let mapping = named(alloc, place, value)?;
            let what = what_of(alloc, place, value, error)?;
            self.add_line(["  ", mapping.as_str(), what.as_str(), "\n"].as_slice())?;
        } else {
            self.add_replacement(alloc, place, value)?;
        }
        let warnings = warnings_of(alloc, value)?;
        if warnings.is_empty() {
            return Ok(());
        }
        let mapping = named(alloc, place, value)?;
        self.add_warnings(mapping.as_str(), warnings.as_slice())
    }

    /// A warning, where an accepted mapping of a file has the id of an earlier one.
    fn add_replacement(
        &mut self,
        alloc: Global,
        place: Place<'_>,
        value: &Value,
    ) -> Result<(), AllocError> {
        if place.number.is_none() {
            return Ok(());
        }
        let Some(earlier) = self.ids.take(alloc, value, placed(alloc, place)?)? else {
            return Ok(());
        };
        let mapping = named(alloc, place, value)?;
        let texts = [
            "warning: ",
            mapping.as_str(),
            ": it replaces ",
            earlier.as_str(),
            ", which has the same id\n",
        ];
        self.add_line(texts.as_slice())
    }

    /// A warning, where a mapping of the files would be replaced by one that is posted without an id, or recorded, to a
    /// server whose first event has this number.
    pub fn add_replaced_later(&mut self, alloc: Global, first: u64) -> Result<(), AllocError> {
        match self.ids.replaced_later(alloc, first)? {
            Some(warning) => self.add_line(["warning: ", warning.as_str(), "\n"].as_slice()),
            None => Ok(()),
        }
    }

    fn add_warnings(&mut self, mapping: &str, warnings: &[String]) -> Result<(), AllocError> {
        for warning in warnings {
            self.add_line(["warning: ", mapping, ": ", warning.as_str(), "\n"].as_slice())?;
        }
        Ok(())
    }

    /// Why a document has no mappings: it isn't JSON, or no object, or its `mappings` is no list.
    pub fn add_document(
        &mut self,
        alloc: Global,
        file: &str,
        bytes: &[u8],
    ) -> Result<(), AllocError> {
        let what = match Value::from_slice(alloc, bytes) {
            Ok(document) => document_fault(alloc, &document)?,
            Err(_error) => json_reason(alloc, bytes)?.unwrap_or(String::new(alloc)),
        };
        self.add_line(["  ", file, ": ", what.as_str(), "\n"].as_slice())
    }

    /// All lines of the next document, of which the first error is this, if it has one. The numbers of its mappings
    /// follow those of the documents before it.
    pub fn add_all(
        &mut self,
        alloc: Global,
        file: &str,
        bytes: &[u8],
        error: Option<MappingsError>,
    ) -> Result<(), AllocError> {
        let Ok(document) = Value::from_slice(alloc, bytes) else {
            return self.add_document(alloc, file, bytes);
        };
        match mapping_values(&document) {
            Some(values) => {
                let is_listed = document.get("mappings").is_some();
                self.add_values(alloc, file, values, is_listed, error)
            }
            None => self.add_document(alloc, file, bytes),
        }
    }

    fn add_values(
        &mut self,
        alloc: Global,
        file: &str,
        values: &[Value],
        is_listed: bool,
        error: Option<MappingsError>,
    ) -> Result<(), AllocError> {
        for (index, value) in values.iter().enumerate() {
            let place = Place {
                file,
                number: Some(self.next),
                index: if is_listed { Some(index) } else { None },
            };
            self.next = self.next.saturating_add(1);
            self.add_mapping(alloc, place, value, error_at(error, index))?;
        }
        Ok(())
    }

    /// What there is to say of a mapping that was posted, and which has this error, if it has one.
    pub fn add_posted(
        &mut self,
        alloc: Global,
        call: &str,
        bytes: &[u8],
        error: Option<MappingError>,
    ) -> Result<(), AllocError> {
        let Ok(value) = Value::from_slice(alloc, bytes) else {
            return self.add_document(alloc, call, bytes);
        };
        let place = Place {
            file: call,
            number: None,
            index: None,
        };
        self.add_mapping(alloc, place, &value, error)
    }

    /// Where a request matcher that was posted is wrong, if it has an error.
    pub fn add_matcher(
        &mut self,
        alloc: Global,
        call: &str,
        bytes: &[u8],
        error: Option<RequestDocumentError>,
    ) -> Result<(), AllocError> {
        let sought = Sought::of_matcher(error);
        self.add_part(alloc, call, bytes, Part::Request, sought.as_slice())
    }

    /// Where a document that was to start a recording is wrong: the body of the answer has the code of its error.
    pub fn add_recording(
        &mut self,
        alloc: Global,
        call: &str,
        bytes: &[u8],
        answer: &[u8],
    ) -> Result<(), AllocError> {
        let sought = recording_sought(alloc, answer);
        self.add_part(alloc, call, bytes, Part::Recording, sought.as_slice())
    }

    /// Where a document that was to set the state of a scenario is wrong, if it is: each fault of it has the same code.
    pub fn add_state(&mut self, alloc: Global, call: &str, bytes: &[u8]) -> Result<(), AllocError> {
        if bytes.is_empty() {
            return Ok(());
        }
        let sought = [Sought::Field, Sought::Shape];
        self.add_part(alloc, call, bytes, Part::ScenarioState, sought.as_slice())
    }

    /// Where a document that was posted is wrong in one of these ways, the first of which counts.
    fn add_part(
        &mut self,
        alloc: Global,
        call: &str,
        bytes: &[u8],
        part: Part,
        ways: &[Sought],
    ) -> Result<(), AllocError> {
        let Ok(value) = Value::from_slice(alloc, bytes) else {
            return self.add_document(alloc, call, bytes);
        };
        for sought in ways {
            if let Some(fault) = part_fault(alloc, part, &value, *sought)? {
                let said = said_at(alloc, fault)?;
                return self.add_line(["  ", call, said.as_str(), "\n"].as_slice());
            }
        }
        Ok(())
    }

    fn add_line(&mut self, texts: &[&str]) -> Result<(), AllocError> {
        if self.left == 0 {
            return Ok(());
        }
        self.left -= 1;
        if self.left == 0 {
            return self.text.push_str("  .. there is more to say\n");
        }
        for text in texts {
            self.text.push_str(*text)?;
        }
        Ok(())
    }
}

fn recording_sought(alloc: Global, answer: &[u8]) -> Option<Sought> {
    let answer = Value::from_slice(alloc, answer).ok()?;
    let error = answer.get("errors")?.as_array()?.first()?;
    let number = error.get("code")?.as_u64()?;
    Sought::of_recording(number)
}

fn error_at(error: Option<MappingsError>, index: usize) -> Option<MappingError> {
    match error {
        Some(
            MappingsError {
                index: Some(at),
                error,
            },
        ) => if at == index { Some(error) } else { None },
        _ => None,
    }
}

fn document_fault(alloc: Global, document: &Value) -> Result<String, AllocError> {
    match document.get("mappings") {
        Some(mappings) => found_instead(alloc, "at /mappings: wanted a list of mappings", mappings),
        None => found_instead(
            alloc,
            "wanted a mapping, or an object with a list `mappings`",
            document,
        ),
    }
}

fn found_instead(alloc: Global, wanted: &str, value: &Value) -> Result<String, AllocError> {
    let found = shown(alloc, value)?;
    joined(alloc, [wanted, ", found ", found.as_str()].as_slice())
}

/// As `todo.json, mapping 2 (name "todo")`; where it has no name, its id, or nothing.
fn named(alloc: Global, place: Place<'_>, value: &Value) -> Result<String, AllocError> {
    let mut text = placed(alloc, place)?;
    if let Some(name) = text_at(value, "name") {
        push_name(alloc, &mut text, " (name ", name)?;
    } else if let Some(id) = text_at(value, "id") {
        push_name(alloc, &mut text, " (id ", id)?;
    }
    Ok(text)
}

/// As `todo.json, mapping 2`.
fn placed(alloc: Global, place: Place<'_>) -> Result<String, AllocError> {
    let mut text = String::from_str(alloc, place.file)?;
    if let Some(number) = place.number {
        let mut digits = Buffer::new();
        text.push_str(", mapping ")?;
        text.push_str(digits.format(number))?;
    }
    Ok(text)
}

fn push_name(alloc: Global, text: &mut String, front: &str, name: &str) -> Result<(), AllocError> {
    let name = quoted(alloc, name)?;
    text.push_str(front)?;
    text.push_str(name.as_str())?;
    text.push_str(")")
}

/// Where the mapping is wrong, and why. Where no value explains the error, the error's own words.
fn what_of(
    alloc: Global,
    place: Place<'_>,
    value: &Value,
    error: MappingError,
) -> Result<String, AllocError> {
    let found = match Sought::of(error) {
        Some(sought) => mapping_fault(alloc, value, sought)?,
        None => None,
    };
    match found {
        Some(fault) => said_at(alloc, listed(alloc, place, fault)?),
        None => joined(alloc, [": ", error.error_code().title()].as_slice()),
    }
}

/// The fault by its place in its file.
fn listed(alloc: Global, place: Place<'_>, fault: Fault) -> Result<Fault, AllocError> {
    match place.index {
        Some(index) => fault.under_index(alloc, index)?.under(alloc, "mappings"),
        None => Ok(fault),
    }
}

fn said_at(alloc: Global, fault: Fault) -> Result<String, AllocError> {
    let Fault { pointer, said } = fault;
    if pointer.is_empty() {
        joined(alloc, [": ", said.as_str()].as_slice())
    } else {
        let pointer = shortened(alloc, pointer.as_str())?;
        joined(
            alloc,
            [", at ", pointer.as_str(), ": ", said.as_str()].as_slice(),
        )
    }
}
