//! The check of a file's bytes, or of those of some of its pieces in a row. The caller reads them
//! and gives them in parts.

ghost use Rattle.std.specs.Prelude.{◌≡◌, ◌≢◌, None, length};
ghost use Rattle.btcheck_c.specs.CheckCalls.{StartsCheck, StartsPieces, CheckStarted, PushesFile, PushesBits, HasBadPiece, EndsCheck, EndsBits};
ghost use Rattle.btcheck_c.specs.Holds.{BegunFrom, Through};
ghost use Rattle.btcheck_c.specs.declared.thing.Kind.TheVariants as kind;

use crate::check_starts::{begun, pieces_check_of};
use crate::file_check::FileCheck;
use crate::handle::Handle;
use crate::lending::lend;
use crate::thing::Kind;
use c_layouts::status::{BAD_PIECE, DONE, TOO_LONG, TOO_SHORT, WRONG_HANDLE};
use std::alloc::Global;

fn start_check(alloc: Global, session: &mut Handle, number: usize) -> Result<FileCheck, u32>
    ensures { BegunFrom (StartsCheck number) session.old.slot.held result session.new.slot.held }
{
    lend!(session, alloc, Session(lent) => begun(alloc, lent.torrent(), number),
        else Err(WRONG_HANDLE))
}

fn start_pieces(
    alloc: Global,
    session: &mut Handle,
    number: usize,
    from: u64,
    to: u64,
) -> Result<FileCheck, u32>
    ensures { BegunFrom (StartsPieces number from to) session.old.slot.held result
        session.new.slot.held }
{
    lend!(session, alloc, Session(lent) => pieces_check_of(alloc, lent.torrent(), number, from, to),
        else Err(WRONG_HANDLE))
}

fn push_file(check: &mut FileCheck, bytes: &[u8], good: &mut [u8]) -> u32
    ensures done { PushesBits bytes.now good.old good.new (kind.Check check.old) result
        (kind.Check check.new) }
    ensures unwritten { result ≢ 0 → good.new ≡ good.old }
    ensures size { length good.new ≡ length good.old }
{
    if bytes.len() as u64 > check.left() {
        return TOO_LONG;
    }
    check.push(bytes, good);
    DONE
}

fn finish_file(check: &mut FileCheck, piece: &mut u64) -> u32
    ensures done { EndsCheck piece.new (kind.Check check.old) result (kind.Check check.new) }
    ensures unwritten { result ≢ 10 → piece.new ≡ piece.old }
{
    if check.left() > 0 {
        return TOO_SHORT;
    }
    write_piece(check.finish(&mut []), piece)
}

fn finish_bits(check: &mut FileCheck, piece: &mut u64, good: &mut [u8]) -> u32
    ensures done { EndsBits good.old good.new piece.new (kind.Check check.old) result
        (kind.Check check.new) }
    ensures unwritten { result ≢ 10 → piece.new ≡ piece.old }
    ensures kept { result ≢ 0 → result ≢ 9 → result ≢ 10 → good.new ≡ good.old }
    ensures size { length good.new ≡ length good.old }
{
    if check.left() == 0 {
        return write_piece(check.finish(good), piece);
    }
    check.stop(good);
    TOO_SHORT
}

// The status of a check, and the first bad piece.
fn write_piece(bad: Option<u64>, piece: &mut u64) -> u32
    ensures done { HasBadPiece bad result piece.new }
    ensures unwritten { result ≢ 10 → piece.new ≡ piece.old }
{
    match bad {
        None => DONE,
        Some(number) => {
            *piece = number;
            BAD_PIECE
        }
    }
}

/// Begins the check of a file of a session's torrent in an empty handle, with room for the bytes of
/// short pushes: no later call takes memory. The torrent's bytes must stay as they are until this
/// handle is freed too. Status 1: the handle is full, or the other one
/// holds no session. Status 2: memory was refused. Status 4: the file is empty, and has no root.
/// Status 5: there is no such file. Then the handle is as before. The session is as before always.
#[unsafe(no_mangle)]
pub extern "C" fn btcheck_check_new(
    alloc: Global,
    handle: &mut Handle,
    session: &mut Handle,
    number: usize,
) -> u32
    ensures { CheckStarted (StartsCheck number) session.old.slot.held handle.old.slot.held result
        handle.new.slot.held session.new.slot.held }
{
    if handle.is_full() {
        return WRONG_HANDLE;
    }
    match start_check(alloc, session, number) {
        Err(status) => status,
        Ok(check) => handle.fill(alloc, Kind::Check(check)),
    }
}

/// Begins the check of a file's pieces from one number up to another, as [`btcheck_check_new`] does
/// of all of them. Status 5: there is no such file, or it has not these pieces; they are at least
/// one.
#[unsafe(no_mangle)]
pub extern "C" fn btcheck_check_new_pieces(
    alloc: Global,
    handle: &mut Handle,
    session: &mut Handle,
    number: usize,
    from: u64,
    to: u64,
) -> u32
    ensures { CheckStarted (StartsPieces number from to) session.old.slot.held
        handle.old.slot.held result handle.new.slot.held session.new.slot.held }
{
    if handle.is_full() {
        return WRONG_HANDLE;
    }
    match start_pieces(alloc, session, number, from, to) {
        Err(status) => status,
        Ok(check) => handle.fill(alloc, Kind::Check(check)),
    }
}

/// Takes the next bytes. Status 1: the handle holds no check. Status 3: they are more than are
/// still to come. Then nothing is taken.
#[unsafe(no_mangle)]
pub extern "C" fn btcheck_check_push(alloc: Global, handle: &mut Handle, bytes: &[u8]) -> u32
    ensures { Through (PushesFile bytes.now) handle.old.slot.held result handle.new.slot.held }
{
    lend!(handle, alloc, Check(check) => push_file(check, bytes, &mut []))
}

/// Takes the next bytes as [`btcheck_check_push`] does, and sets the bit of each piece that is
/// complete and good: bit 0, the highest of the first byte, is that of the first piece that is
/// checked. The bits are clear at first, and the same at each call. Where it does not return 0,
/// they stay as they are.
#[unsafe(no_mangle)]
pub extern "C" fn btcheck_check_push_bits(
    alloc: Global,
    handle: &mut Handle,
    bytes: &[u8],
    good: &mut [u8],
) -> u32
    ensures done { Through (PushesBits bytes.now good.old good.new) handle.old.slot.held result
        handle.new.slot.held }
    ensures unwritten { result ≢ 0 → good.new ≡ good.old }
{
    lend!(handle, alloc, Check(check) => push_file(check, bytes, good))
}

/// Ends the check of a whole file, which begins anew. Status 1: the handle holds no check. Status
/// 9: bytes of the file are still to come, and the check is as before. Status 10: a piece is not
/// the torrent's, and the number in the file of the first such piece is written.
#[unsafe(no_mangle)]
pub extern "C" fn btcheck_check_finish(alloc: Global, handle: &mut Handle, piece: &mut u64) -> u32
    ensures done { Through (EndsCheck piece.new) handle.old.slot.held result handle.new.slot.held }
    ensures unwritten { result ≢ 10 → piece.new ≡ piece.old }
{
    lend!(handle, alloc, Check(check) => finish_file(check, piece))
}

/// Ends a check as [`btcheck_check_finish`] does, and sets the last piece's bit too, if that is
/// good. Status 9: the content ends before the pieces do; then the bits tell which of them are
/// whole and good, and the check begins anew too. Status 1: bits and number stay as they are.
#[unsafe(no_mangle)]
pub extern "C" fn btcheck_check_finish_bits(
    alloc: Global,
    handle: &mut Handle,
    piece: &mut u64,
    good: &mut [u8],
) -> u32
    ensures done { Through (EndsBits good.old good.new piece.new) handle.old.slot.held result
        handle.new.slot.held }
    ensures unwritten { result ≢ 10 → piece.new ≡ piece.old }
    ensures kept { result ≢ 0 → result ≢ 9 → result ≢ 10 → good.new ≡ good.old }
    ensures size { length good.new ≡ length good.old }
{
    lend!(handle, alloc, Check(check) => finish_bits(check, piece, good))
}

/// Frees what the handle holds, and empties it.
#[unsafe(no_mangle)]
pub extern "C" fn btcheck_check_free(alloc: Global, handle: &mut Handle)
    ensures { handle.new.slot.held ≡ None }
{
    drop(handle.take(alloc));
}
