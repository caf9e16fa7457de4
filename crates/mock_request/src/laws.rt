// Laws of the definitions that the contracts of this crate cite. The functions do nothing: their contracts are
// the laws.
ghost use Rattle.std.specs.Prelude.{◌≡◌, ℕ, List, ◌∷◌, ◌++◌, MatchOption, All};
ghost use Rattle.std.specs.List.{Contains, join_with_byte};
ghost use Rattle.mock_request.specs.Target.{slash, question_mark, IsRooted, IsTarget};
ghost use Rattle.mock_request.specs.Url.{path_of, query_of, segments_of};

/// A target asks for one URL at most.
pub fn law_target_has_one_url()
    ensures { (target one other : List ℕ) → IsTarget target one → IsTarget target other → one ≡ other }
{}

/// A URL is its path, or its path, a question mark and its query.
#[tactic(auto, using(crate::proofs::UrlLemmas::joined_parts))]
pub fn law_url_is_its_path_and_query()
    ensures { (url : List ℕ) → MatchOption (query_of url)
        (url ≡ path_of url)
        (λ query. url ≡ path_of url ++ question_mark ∷ query) }
{}

/// A path has no question mark.
pub fn law_path_has_no_question_mark()
    ensures { (url : List ℕ) → ¬ (Contains (path_of url) question_mark) }
{}

/// A path is a slash, and its segments with a slash between two.
#[tactic(auto, using(crate::proofs::UrlLemmas::joined_segments))]
pub fn law_path_is_its_segments()
    ensures { (path : List ℕ) → IsRooted path → path ≡ slash ∷ join_with_byte slash (segments_of path) }
{}

/// A segment has no slash.
pub fn law_segment_has_no_slash()
    ensures { (path : List ℕ) → All (λ segment. ¬ (Contains segment slash)) (segments_of path) }
{}
