// Laws over the definitions that the calls of this crate cite, so the functions do nothing.
ghost use Rattle.std.specs.Prelude.{◌≡◌, ◌↔◌, ◌≤◌, ℕ, List, Some, length};
ghost use Rattle.data_tree.specs.Json.{json};
ghost use Rattle.data_tree.specs.Tree.{Tree};
ghost use Rattle.data_tree.specs.declared.step.Step.{Step};
ghost use Rattle.json_bridge.specs.Path.{SpellsPath};
ghost use Rattle.json_bridge.specs.PathFound.{path_of};
ghost use Rattle.json_bridge.specs.Examples.{AreTexts, ArePaths};
ghost use Rattle.json_bridge.specs.Reading.{tree_of_text};

/// A text spells one path at most.
pub fn law_a_text_spells_one_path()
    ensures { (text : List ℕ) (a b : List Step) → SpellsPath text a → SpellsPath text b → a ≡ b }
{}

/// The path that is found is the one that the text spells.
pub fn law_the_spelled_path_is_found()
    ensures { (text : List ℕ) (path : List Step) → (path_of text ≡ Some path) ↔ SpellsPath text path }
{}

/// The compact JSON text of a text's value is no longer than the text.
#[tactic(auto, using(crate::proofs::Shorter::Values::value_is_no_longer))]
pub fn law_a_value_is_no_longer_than_its_text()
    ensures { (text : List ℕ) (t : Tree) → tree_of_text text ≡ Some t → length (json t) ≤ length text }
{}

/// Texts with their trees, and texts that have none.
pub fn law_example_texts()
    ensures { AreTexts }
{}

/// Texts with the paths that they spell, and texts that spell none.
pub fn law_example_paths()
    ensures { ArePaths }
{}
