// Reading a book.
ghost use Rattle.std.specs.Prelude.{IfOk};
ghost use Rattle.shared_book.specs.Reading.{IsReadAnswer};
ghost use Rattle.request_journal.specs.declared.read.BookRead.TheVariants as read;
ghost use Rattle.shared_book.specs.declared.book_read.ReadAnswer.TheVariants as answer;

use crate::book_read::ReadAnswer;
use mapping_model::mapping_id::MappingId;
use request_journal::mapping::Mapping;
use request_journal::read::BookRead;
use std::alloc::{AllocError, Global};
use stub_book::book::Book;

/// Looks up what is asked for.
pub(crate) fn look(book: &Book, alloc: Global, asked: BookRead) -> Result<ReadAnswer, AllocError>
    ensures { IfOk result (IsReadAnswer book.now asked) }
{
    Ok(match asked {
        BookRead::Mappings => ReadAnswer::Mappings(book.mappings()?),
        BookRead::Mapping(id) => ReadAnswer::Mapping(mapping(book, id)?),
        BookRead::Requests => ReadAnswer::Requests(book.history().requests(alloc)?),
        BookRead::Unmatched => ReadAnswer::Unmatched(book.history().unmatched(alloc)?),
        BookRead::Find(matcher) => ReadAnswer::Find {
            requests: book.history().requests(alloc)?,
            matcher,
        },
        BookRead::Count(matcher) => ReadAnswer::Count {
            requests: book.history().requests(alloc)?,
            matcher,
        },
        BookRead::Scenarios => ReadAnswer::Scenarios {
            states: book.scenarios().try_clone()?,
            mappings: book.mappings()?,
        },
        BookRead::RecordingStatus => ReadAnswer::RecordingStatus(book.recording().status()),
        BookRead::Recording => ReadAnswer::Recording(book.recording().try_clone()?),
    })
}

fn mapping(book: &Book, id: MappingId) -> Result<Option<Mapping>, AllocError>
    ensures { IfOk result (λ found. IsReadAnswer book.now (read.Mapping id) (answer.Mapping found)) }
{
    match book.mapping(id) {
        Ok(spec) => Ok(Some(Mapping {
            id,
            spec: spec.clone()?,
        })),
        Err(_error) => Ok(None),
    }
}
