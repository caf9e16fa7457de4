// Laws over the definitions of marks, closes and paths, each on a function that does nothing.
ghost use Rattle.std.specs.Prelude.{◌≡◌, ◌<◌, ◌↔◌, ℕ, List, Some, Result, length};
ghost use Rattle.template_words.specs.Shown.Laws.{IsFirstMark, IsFirstClose};
ghost use Rattle.template_words.specs.Marks.{offset_of, close_from, around};
ghost use Rattle.template_words.specs.PathReads.{reference_of};
ghost use Rattle.template_words.specs.Shown.Spelled.{IsReadOf};
ghost use Rattle.template_words.specs.declared.error.TagError.{TagError};
ghost use Rattle.template_words.specs.declared.reference.Reference.{Reference};
ghost use Rattle.template_words.specs.declared.mode.Mode.TheVariants.{Start};

/// A mark is found at its first occurrence in a text.
pub fn law_first_mark_is_found()
    ensures { (mark text before after : List ℕ) → 0 < length mark →
        (around mark text (offset_of mark text) ≡ Some (before, after)) ↔ IsFirstMark mark text before after }
{}

/// The content of a tag is the text before the first close that is outside of literals.
pub fn law_first_close_is_found()
    ensures { (close text content rest : List ℕ) → 0 < length close →
        (around close text (close_from close Start text) ≡ Some (content, rest))
        ↔ IsFirstClose close text content rest }
{}

/// A word is read as the path that it spells, and is malformed exactly where it spells none.
pub fn law_word_is_read_as_spelled()
    ensures { (text : List ℕ) (read : Result Reference TagError) → (reference_of text ≡ read) ↔ IsReadOf text read }
{}
