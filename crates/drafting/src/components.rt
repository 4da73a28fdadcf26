//! A path as one text, cut into its components.

ghost use Rattle.std.specs.Prelude.{◌≡◌, IfOk, map};
ghost use Rattle.drafting.specs.Drafted.{components_of};

use hashtree::NoMemory;
use std::alloc::Global;

/// The components of a path, which a `/` stands between. It fails only if memory was refused.
pub(crate) fn components(alloc: Global, path: &str) -> Result<Vec<&str>, NoMemory>
    ensures { IfOk result (λ parts. map (λ s. s.now) parts.items ≡ components_of path.now) }
{
    path.split('/').collect(alloc)
}
