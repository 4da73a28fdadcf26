//! The paths that a file of a draft may have (BEP 52, "file tree").

ghost use Rattle.std.specs.Prelude.{◌≡◌, ◌↔◌, IsTrue, MatchResult, map};
ghost use Rattle.filetree.specs.Paths.{IsComponent, IsFilePath};

use filetree::{Refusal, is_bad_component};

// The most components of a path: 128 lists and dictionaries may be open at once.
const MAX_COMPONENTS: usize = 124;

/// Tests a path: at least one component and at most 124, none of them empty or bad.
pub(crate) fn test_path(path: &[&str]) -> Result<(), Refusal>
    ensures { MatchResult result (λ _. IsFilePath (map (λ s. s.now) path.now))
        (λ r. (r ≡ Refusal.Path) × (IsFilePath (map (λ s. s.now) path.now) → ⊥)) }
{
    if path.is_empty() || path.len() > MAX_COMPONENTS {
        return Err(Refusal::Path);
    }
    'components: for component in path {
        if !is_component(component) {
            return Err(Refusal::Path);
        }
    }
    Ok(())
}

// Whether a path may have this component.
fn is_component(name: &str) -> bool
    ensures { IsTrue result ↔ IsComponent name.now }
{
    !name.is_empty() && !is_bad_component(name)
}
