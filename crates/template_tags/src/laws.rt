// Laws over the definitions of tags, each on a function that does nothing.
ghost use Rattle.std.specs.Prelude.{◌≡◌, ◌≤◌, ◌↔◌, ℕ, true, false, List, [], ◌∷◌, ◌++◌, Some, Ok, length};
ghost use Rattle.template_tags.specs.Shown.Examples.{ArePrints, AreBlocks, AreErrors, AreUnmatched};
ghost use Rattle.template_tags.specs.Items.{Item, break_before, word_before, items_after};
ghost use Rattle.template_tags.specs.Said.{tag_said};
ghost use Rattle.template_tags.specs.Shown.SoundTags.{IsSoundTag};
ghost use Rattle.template_tags.specs.Tags.{Tag};
ghost use Rattle.template_tags.specs.Terms.{Terms, flat, terms_of};
ghost use Rattle.template_tags.specs.declared.level.Level.{Level};
ghost use Rattle.template_tags.specs.declared.tag.Opening.{Opening};
ghost use Rattle.template_words.specs.Modes.{mode_after_bytes, mode_of_byte, is_outside};
ghost use Rattle.template_words.specs.Words.{is_break, has_break};
ghost use Rattle.template_words.specs.declared.mode.Mode.{Mode};

/// The words of a tag are what is between breaks: white space and parentheses that are outside of
/// literals and brackets.
pub fn law_words_are_between_breaks()
    ensures between { (mode : Mode) (text rest : List ℕ) (b : ℕ) → has_break mode text ≡ false →
        is_outside (mode_after_bytes mode text) ≡ true → is_break b ≡ true →
        items_after mode (text ++ b ∷ rest)
        ≡ word_before text (break_before b (items_after (mode_of_byte b) rest)) }
    ensures last { (mode : Mode) (text : List ℕ) → has_break mode text ≡ false →
        items_after mode text ≡ word_before text [] }
{}

/// Items group to terms exactly where they are the items of these terms.
pub fn law_terms_are_their_items()
    ensures { (items : List Item) (terms : Terms) → (terms_of items ≡ Some terms) ↔ (flat terms [] ≡ items) }
{}

/// What a tag says has its words of loops in loops, as many arguments as helpers take, and nests within the limits.
pub fn law_tags_are_sound()
    ensures { (limit : ℕ) (opening : Opening) (content : List ℕ) (levels : List Level) (tag : Tag) →
        length content ≤ limit → tag_said opening content levels ≡ Ok tag → IsSoundTag limit levels tag }
{}

/// Tags that print, tags of blocks, and contents that are no tags, each with its error.
pub fn law_examples()
    ensures prints { ArePrints }
    ensures blocks { AreBlocks }
    ensures errors { AreErrors }
    ensures unmatched { AreUnmatched }
{}
