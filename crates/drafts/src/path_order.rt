//! The order of paths, and the place of a path among those of a draft (BEP 52, "file tree").

ghost use Rattle.std.specs.Prelude.{◌≡◌, ◌≤◌, length, map, IfSome, MatchOption};
ghost use Rattle.std.specs.String.{string_bytes};
ghost use Rattle.drafts.specs.DraftSeen.{outline_file};
ghost use Rattle.drafts.specs.Orders.{IsPlaceOf, Ties};
ghost use Rattle.drafts.specs.Outline.{OutlineFile};
ghost use Rattle.filetree.specs.Paths.{AreInOrder, path_cmp};

use crate::draft::DraftFile;
use std::cmp::Ordering;

/// The place of a path among files whose paths are in order; `None` if it is there, or if it or one
/// that is there is a prefix of the other.
pub(crate) fn place_among(files: &[DraftFile], path: &[&str]) -> Option<usize>
    requires { AreInOrder (map (λ (f : OutlineFile). f.path) (map outline_file files.now)) }
    ensures bound { IfSome result (λ i. i ≤ length files.now) }
    ensures place { MatchOption result
        (Ties (map (λ s. s.now) path.now)
        (map (λ (f : OutlineFile). f.path) (map outline_file files.now)))
        (λ i. IsPlaceOf (map (λ s. s.now) path.now)
        (map (λ (f : OutlineFile). f.path) (map outline_file files.now)) i) }
{
    files
        .binary_search_by(|file| path_cmp(&file.path, path))
        .err()
}

// Two paths by the first component in which they differ; `Equal` if one is a prefix of the other.
fn path_cmp(own: &[String], path: &[&str]) -> Ordering
    ensures { result ≡ path_cmp (map string_bytes own.now) (map (λ s. s.now) path.now) }
{
    let count = own.len().min(path.len());
    'parts: for i in 0..count {
        let order = own[i].as_str().cmp(path[i]);
        if order.is_ne() {
            return order;
        }
    }
    Ordering::Equal
}
