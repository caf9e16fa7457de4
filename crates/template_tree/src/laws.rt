// Laws over the definitions that `parse` is proved by, each on a function that does nothing.
ghost use Rattle.std.specs.Prelude.{◌≡◌, ℕ, List, Result};
ghost use Rattle.template_tree.specs.Shown.Laws.{IsReadAs, IsPiece};
ghost use Rattle.template_tree.specs.Source.{Source};
ghost use Rattle.template_tree.specs.Shown.Examples.{AreExamples, AreBlocks};
ghost use Rattle.template_tree.specs.Shown.TextExamples.{AreTexts};
ghost use Rattle.template_tags.specs.declared.level.Level.{Level};
ghost use Rattle.template_tree.specs.Tokens.{token, text_token, next_of};
ghost use Rattle.template_tree.specs.Tree.{Nodes};
ghost use Rattle.template_tree.specs.declared.error.TemplateError.{TemplateError};

/// Each source spells a tree or has an error, and is read as nothing else: not as another tree, not as another error.
pub fn law_source_is_tree_or_error()
    ensures { (source : Source) → (outcome : Result Nodes TemplateError) × IsReadAs source outcome
        × ((other : Result Nodes TemplateError) → IsReadAs source other → outcome ≡ other) }
{}

/// A piece of text is never split: it goes up to the next mark, or to the end.
pub fn law_piece_ends_at_next_mark()
    ensures { (levels : List Level) (text p rest : List ℕ) → next_of levels text ≡ token (text_token p) rest
        → IsPiece text p rest }
{}

/// Some forty texts, each with its tree or its error, and some twenty trees, each with the text that it means.
pub fn law_examples()
    ensures one_tag { AreExamples }
    ensures blocks { AreBlocks }
    ensures texts { AreTexts }
{}
