// Laws of the definitions that the contracts of this crate cite. The functions do nothing: their contracts are
// the laws.
ghost use Rattle.std.specs.Prelude.{◌≡◌, ◌↔◌, ℕ, List, Some, map, IfSome, IsTrue};
ghost use Rattle.path_template.specs.Template.{is_name, braced, name_in, pieces_of, names_of};
ghost use Rattle.path_template.specs.Matching.{bindings_of};

/// A segment has a name exactly where it is that name in braces.
pub fn law_segment_with_a_name()
    ensures { (segment name : List ℕ) → (name_in segment ≡ Some name)
        ↔ (IsTrue (is_name name) × (segment ≡ braced name)) }
{}

/// A path that matches binds the names of the template, in their order.
pub fn law_bindings_have_the_names()
    ensures { (template path : List ℕ) → IfSome (bindings_of template path)
        (λ bindings. map (λ binding. binding.0) bindings ≡ names_of (pieces_of template)) }
{}
