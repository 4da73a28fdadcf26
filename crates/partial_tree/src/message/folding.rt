//! One pass over all that evidence claims: the hashes of the base range and those over it, row by
//! row, of which up to eight are computed side by side, and then with each uncle the hash of the
//! parent. Each goes to a visitor.

ghost use Rattle.std.specs.Prelude.{◌≡◌, ◌+◌, ◌%◌, Some, IfSome, IfNone, OnSome};
ghost use Rattle.node_maps.specs.Digest.{join};
ghost use Rattle.partial_tree.specs.Evidence.{claimed_by, node_over_base, LeadsUp};
ghost use Rattle.partial_tree.specs.FoldedRows.{AreClaimedIn, IsClaimedRow, IsUnderUncle};
ghost use Rattle.partial_tree.specs.Visits.{AdmitsAll, StopsAtClaim, VisitsAll, VisitsBelowRow, VisitsPair, VisitsRow};

use crate::message::evidence::{Evidence, sibling};
use crate::message::found::Claim;
use crate::message::row::{EIGHT_DEPTH, HashRow, RowHashes, parents_of_row, parents_of_rows};
use crate::message::visitor::Visitor;
use hashtree::{Hash, parent};

/// Hands each claim to the visitor, up to the layer of the place to which the evidence leads.
/// `None` once a visit ended it.
pub(crate) fn fold<V: Visitor>(visitor: &mut V, evidence: &Evidence, layer: u32) -> Option<()>
    requires leads { LeadsUp evidence.now layer }
    requires admits { AdmitsAll V.admits (claimed_by evidence.now) visitor.old }
    ensures visited { OnSome result
        (VisitsAll V.visits (claimed_by evidence.now) visitor.old visitor.new) }
    ensures stopped { IfNone result
        (StopsAtClaim V.stops (claimed_by evidence.now) visitor.old) }
{
    let cover = HashRow {
        layer: evidence.base + evidence.span,
        depth: 0,
        node: evidence.index >> evidence.span,
    };
    let mut hash = fold_row(visitor, evidence, cover)?[0];
    'uncles: for below in cover.layer..layer {
        hash = fold_uncle(visitor, evidence, below, &hash)?;
    }
    Some(())
}

// Hands the uncle of a layer to the visitor, and the parent over it and the node over the base
// range, whose hash is given. Returns the parent's hash.
fn fold_uncle<V: Visitor>(
    visitor: &mut V,
    evidence: &Evidence,
    layer: u32,
    hash: &Hash,
) -> Option<Hash>
    requires at { IsUnderUncle evidence.now layer hash.now }
    requires admits { AdmitsAll V.admits (claimed_by evidence.now) visitor.old }
    ensures value { IfSome result (λ h. claimed_by evidence.now (layer + 1)
        (node_over_base evidence.now (layer + 1)) ≡ Some h) }
    ensures visited { OnSome result
        (VisitsPair V.visits evidence.now layer visitor.old visitor.new) }
    ensures stopped { IfNone result
        (StopsAtClaim V.stops (claimed_by evidence.now) visitor.old) }
{
    let node = evidence.index >> (layer - evidence.base);
    let index = sibling(node);
    let uncle = evidence.given(layer, index).unwrap();
    visitor.visit(Claim {
        layer,
        index,
        hash: uncle,
    })?;
    let hash = parent_of(node, hash, &uncle);
    visitor.visit(Claim {
        layer: layer + 1,
        index: node / 2,
        hash,
    })?;
    Some(hash)
}

// The parent of a node and its sibling.
fn parent_of(node: u64, hash: &Hash, other: &Hash) -> Hash
    ensures left { node % 2 ≡ 0 → result ≡ join hash.now other.now }
    ensures right { node % 2 ≡ 1 → result ≡ join other.now hash.now }
{
    if node % 2 == 0 {
        parent(hash, other)
    } else {
        parent(other, hash)
    }
}

// Hands the claims of a row and below it to the visitor, and returns the row's hashes.
#[cycle(fold)]
fn fold_row<V: Visitor>(visitor: &mut V, evidence: &Evidence, row: HashRow) -> Option<RowHashes>
    requires at { IsClaimedRow evidence.now row }
    requires admits { AdmitsAll V.admits (claimed_by evidence.now) visitor.old }
    ensures value { IfSome result (AreClaimedIn (claimed_by evidence.now) row) }
    ensures visited { OnSome result
        (VisitsRow V.visits (claimed_by evidence.now) row visitor.old visitor.new) }
    ensures stopped { IfNone result
        (StopsAtClaim V.stops (claimed_by evidence.now) visitor.old) }
{
    let hashes = fold_below(visitor, evidence, row)?;
    let layer = row.layer;
    let first = row.node * row.count();
    'places: for j in 0..row.count() {
        let index = first + j;
        let hash = hashes[j as usize];
        visitor.visit(Claim { layer, index, hash })?;
    }
    Some(hashes)
}

// Hands the claims below a row to the visitor, and returns the row's hashes, given or computed.
#[cycle(fold)]
fn fold_below<V: Visitor>(visitor: &mut V, evidence: &Evidence, row: HashRow) -> Option<RowHashes>
    requires at { IsClaimedRow evidence.now row }
    requires admits { AdmitsAll V.admits (claimed_by evidence.now) visitor.old }
    ensures value { IfSome result (AreClaimedIn (claimed_by evidence.now) row) }
    ensures visited { OnSome result
        (VisitsBelowRow V.visits (claimed_by evidence.now) row visitor.old visitor.new) }
    ensures stopped { IfNone result
        (StopsAtClaim V.stops (claimed_by evidence.now) visitor.old) }
{
    if row.layer == evidence.base {
        return Some(evidence.base_row(&row));
    }
    let layer = row.layer - 1;
    if row.depth < EIGHT_DEPTH {
        let depth = row.depth + 1;
        let node = row.node;
        let below = fold_row(visitor, evidence, HashRow { layer, depth, node })?;
        return Some(parents_of_row(&below, row.count() as usize));
    }
    let depth = row.depth;
    let node = 2 * row.node;
    let left = fold_row(visitor, evidence, HashRow { layer, depth, node })?;
    let node = 2 * row.node + 1;
    let right = fold_row(visitor, evidence, HashRow { layer, depth, node })?;
    Some(parents_of_rows(&left, &right))
}
