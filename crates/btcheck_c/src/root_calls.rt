//! The root of a file that comes in parts.

ghost use Rattle.std.specs.Prelude.{◌≡◌, ◌≢◌, None};
ghost use Rattle.btcheck_c.specs.RootCalls.{Pushed, RootMade, Finished};
ghost use Rattle.btcheck_c.specs.Holds.{FillsHandle, Through};
ghost use Rattle.btcheck_c.specs.declared.thing.Kind.TheVariants as kind;

use crate::handle::Handle;
use crate::lending::lend;
use crate::thing::Kind;
use c_layouts::status::{DONE, NO_MEMORY, NO_ROOT, TOO_LONG, WRONG_HANDLE};
use hashtree::MAX_LENGTH;
use short_pushes::FileRoot;
use std::alloc::Global;

fn push(file: &mut FileRoot, bytes: &[u8]) -> u32
    ensures { Pushed bytes.now (kind.Root file.old) result (kind.Root file.new) }
{
    if bytes.len() as u64 > MAX_LENGTH - file.len() {
        return TOO_LONG;
    }
    file.push(bytes);
    DONE
}

fn finish(file: &mut FileRoot, length: &mut u64, root: &mut [u8; 32]) -> u32
    ensures done { Finished length.new root.new (kind.Root file.old) result (kind.Root file.new) }
    ensures unwritten { result ≢ 0 → (length.new ≡ length.old) × (root.new ≡ root.old) }
{
    if file.is_empty() {
        return NO_ROOT;
    }
    (*length, *root) = file.finish();
    DONE
}

/// Makes a builder that was given nothing, in an empty handle, with room for the bytes of short
/// pushes: no later call takes memory. Status 1: the handle is full. Status 2: memory was refused.
/// Then the handle is as before.
#[unsafe(no_mangle)]
pub extern "C" fn btcheck_root_new(alloc: Global, handle: &mut Handle) -> u32
    ensures { FillsHandle RootMade handle.old.slot.held result handle.new.slot.held }
{
    if handle.is_full() {
        return WRONG_HANDLE;
    }
    match FileRoot::new(alloc) {
        Err(_) => NO_MEMORY,
        Ok(file) => handle.fill(alloc, Kind::Root(file)),
    }
}

/// Takes the file's next bytes. Status 1: the handle holds no builder. Status 3: the file would be
/// longer than 2^46 bytes. Then nothing is taken.
#[unsafe(no_mangle)]
pub extern "C" fn btcheck_root_push(alloc: Global, handle: &mut Handle, bytes: &[u8]) -> u32
    ensures { Through (Pushed bytes.now) handle.old.slot.held result handle.new.slot.held }
{
    lend!(handle, alloc, Root(file) => push(file, bytes))
}

/// Writes the length and the root of the bytes that were pushed, and begins anew. Status 1: the
/// handle holds no builder. Status 4: no bytes were pushed. Then the handle is as before.
#[unsafe(no_mangle)]
pub extern "C" fn btcheck_root_finish(
    alloc: Global,
    handle: &mut Handle,
    length: &mut u64,
    root: &mut [u8; 32],
) -> u32
    ensures done { Through (Finished length.new root.new) handle.old.slot.held result
        handle.new.slot.held }
    ensures unwritten { result ≢ 0 → (length.new ≡ length.old) × (root.new ≡ root.old) }
{
    lend!(handle, alloc, Root(file) => finish(file, length, root))
}

/// Frees what the handle holds, and empties it.
#[unsafe(no_mangle)]
pub extern "C" fn btcheck_root_free(alloc: Global, handle: &mut Handle)
    ensures { handle.new.slot.held ≡ None }
{
    drop(handle.take(alloc));
}
