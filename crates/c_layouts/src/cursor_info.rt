//! Where an export goes on, as C sees it.

ghost use Rattle.std.specs.Prelude.{◌≡◌};
ghost use Rattle.c_layouts.specs.Cursors.{cursor_of, point_of};

use session_exports::Point;

/// A block of a tree, from which an export goes on. Zeros are the beginning.
#[repr(C)]
#[derive(Clone, Copy)]
pub struct CursorInfo {
    pub tree: u64,
    pub block: u64,
}

/// The point at which a cursor stands.
pub fn read_cursor(cursor: &CursorInfo) -> Point
    ensures { result ≡ point_of cursor.now }
{
    Point {
        tree: cursor.tree as usize,
        block: cursor.block,
    }
}

/// The same point, for C.
pub fn lay_out_cursor(point: Point) -> CursorInfo
    ensures { result ≡ cursor_of point }
{
    CursorInfo {
        tree: point.tree as u64,
        block: point.block,
    }
}
