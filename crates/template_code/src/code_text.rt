//! The texts of the code's table.
ghost use Rattle.std.specs.Prelude.{◌≡◌, IfOk, IfSome, string_bytes};
ghost use Rattle.json_bridge.specs.Path.{SpellsPath};

use json_bridge::error::JsonPathError;
use json_bridge::json_path::JsonPath;
use std::alloc::{AllocError, Global};
use std::marker::Model;

/// A text, which contracts see as its bytes. Where it was read as a JSON path it keeps the path, so that `jsonPath`
/// doesn't read it again each time that it is called.
#[derive(Debug, Drop)]
pub struct CodeText {
    text: String,
    path: Option<JsonPath>,
}

impl Model for CodeText {
    ghost use Rattle.std.specs.Prelude.{List, ℕ, IfSome, string_bytes};
    ghost use Rattle.json_bridge.specs.Path.{SpellsPath};

    ghost Value = { List ℕ };

    ghost view = { λ t. string_bytes t.text };

    ghost invariant = { λ t. IfSome t.path (SpellsPath (string_bytes t.text)) };
}

impl CodeText {
    /// A text that isn't looked up as a path. It is taken over without copying it.
    pub fn new(text: String) -> CodeText
        ensures { result ≡ string_bytes text }
    {
        CodeText { text, path: None }
    }

    /// A text that may be looked up as a path. It is taken over, and takes memory for the path that it spells, if it
    /// spells one.
    pub fn read(alloc: Global, text: String) -> Result<CodeText, AllocError>
        ensures { IfOk result (λ made. made ≡ string_bytes text) }
    {
        let path = path_of(alloc, text.as_str())?;
        Ok(CodeText { text, path })
    }

    pub fn as_str(&self) -> &str
        ensures { result.now ≡ self.now }
    {
        self.text.as_str()
    }

    /// The path that the text was read as.
    pub fn json_path(&self) -> Option<&JsonPath>
        ensures { IfSome result (λ path. SpellsPath self.now path.now) }
    {
        self.path.as_ref()
    }
}

// None where the text spells no path.
fn path_of(alloc: Global, text: &str) -> Result<Option<JsonPath>, AllocError>
    ensures { IfOk result (λ path. IfSome path (SpellsPath text.now)) }
{
    match JsonPath::parse(alloc, text) {
        Ok(path) => Ok(Some(path)),
        Err(JsonPathError::BadPath) => Ok(None),
        Err(JsonPathError::OutOfMemory) => Err(AllocError),
    }
}
