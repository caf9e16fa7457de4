// What is said of documents besides what they give.
ghost use Rattle.command_output.specs.Output.{Continues};

use command_output::files::Documents;
use command_output::output::put_notes;
use mapping_diagnosis::notes::Notes;
use mapping_json::read::read_mappings_with;
use std::alloc::Global;
use std::io::Write;
use template_tree::escape::Escape;

/// Where and why the first wrong document is wrong, and warnings, as far as there is memory. Where no document was
/// refused, none is read again for an error.
pub fn notes_of(alloc: Global, documents: &Documents, is_refused: bool, escape: Escape) -> Notes {
    let mut notes = Notes::of_files(alloc, documents.paths.len());
    for (path, text) in documents.paths.iter().zip(documents.texts.iter()) {
        let error = if is_refused {
            read_mappings_with(alloc, text.as_slice(), escape).err()
        } else {
            None
        };
        let is_last = error.is_some();
        let _ = notes.add_all(alloc, path.as_str(), text.as_slice(), error);
        if is_last {
            break;
        }
    }
    notes
}

/// Writes which files were passed over, and then the notes, as far as the writer takes them.
pub fn put_all_notes<W: Write>(out: &mut W, documents: &Documents, notes: &Notes)
    ensures { Continues (W.contents out.old) (W.contents out.new) }
{
    put_notes(out, documents.passed_over.as_str());
    put_notes(out, notes.as_str());
}
