// How a JSON document is read field by field. A part of a document is read, or it is wrong in a way; of two parts that
// are wrong the way that is reported first counts, wherever in the document they are. Contracts cite
// `specs/Reading.antt` (readings and how they are put together), `specs/Fields.antt` (what the fields of an object
// say), `specs/Numbers.antt` (which numbers are taken, and the text of a value), `specs/Document.antt` (which bytes are
// a document) and `specs/Written.antt` (objects that are written).
#![tactic(auto)]

pub mod document;
pub mod fields;
pub mod json_text;
pub mod kind;
pub mod numbers;
pub mod reading;
pub mod written;
