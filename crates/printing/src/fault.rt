//! Why a command could not do what it was asked for, and the line that says so.
ghost use Rattle.std.specs.Prelude.{◌≡◌, ◌++◌, OnOk, map, true};
ghost use Rattle.std.specs.String.{string_bytes};
ghost use Rattle.benc.specs.Device.{Wrote, WroteAndFlushed};
ghost use Rattle.printing.specs.declared.fault.Fault.TheVariants.{NoMemory};
ghost use Rattle.printing.specs.Fault.{fault_reason, fault_line};
ghost use Rattle.printing.specs.Text.{escaped, path_text};

use crate::text::{flush_after, write_escaped, write_path};
use benc::{DeviceFault, Sink, WriteFault, write_all};
use std::alloc::AllocError;
use thiserror::Error;

/// The path that stands for standard output.
pub const OUTPUT: &str = "-";

/// Why a command could not do what it was asked for.
#[derive(Debug, Drop, Error)]
pub enum Fault<'a> {
    /// This path could not be opened, or not read to its end.
    #[error("cannot read {0}")]
    Read(&'a str),
    /// The file with these path components, in a folder, could not be opened, or not read to its
    /// end, or it changed meanwhile.
    #[error("cannot read a file of the folder")]
    ReadBelow(Vec<String>),
    /// This path could not be written to; [`OUTPUT`] is standard output.
    #[error("cannot write {0}")]
    Write(&'a str),
    /// The record with this path ends inside a frame.
    #[error("record is truncated: {0}")]
    Truncated(&'a str),
    /// A name on the command line or in a folder is not UTF-8.
    #[error("name is not UTF-8")]
    NotUtf8,
    /// What has these path components, in a folder, is neither a regular file nor a folder.
    #[error("not a file or folder")]
    Special(Vec<String>),
    /// Out of memory.
    #[error("no memory")]
    NoMemory,
}

impl<'a> From<AllocError> for Fault<'a> {
    ghost from_gives = { λ _ e. e ≡ NoMemory };

    fn from(_error: AllocError) -> Fault<'a> {
        Fault::NoMemory
    }
}

/// Writes the line of a fault, with the path that it is about, if there is one, and flushes. It
/// takes no memory. After `WriteFault` a prefix of the line went out.
pub fn fault_line<W: Sink>(fault: &Fault<'_>, out: &mut W) -> Result<(), WriteFault>
    ensures { WroteAndFlushed (W.seen out.old) (W.seen out.new) result (fault_line fault.now) }
{
    let written = write_fault(fault, out);
    flush_after(out, written)
}

fn write_fault<W: Sink>(fault: &Fault<'_>, out: &mut W) -> Result<(), DeviceFault>
    ensures { Wrote (W.seen out.old) (W.seen out.new) result (fault_line fault.now) }
{
    write_all(out, b"fault: ")?;
    write_reason(fault, out)?;
    write_all(out, b"\n")
}

// Writes what could not be done.
fn write_reason<W: Sink>(fault: &Fault<'_>, out: &mut W) -> Result<(), DeviceFault>
    ensures { Wrote (W.seen out.old) (W.seen out.new) result (fault_reason fault.now) }
{
    match fault {
        Fault::Read(path) => write_about(b"cannot read ", path, out),
        Fault::ReadBelow(path) => write_about_file(b"cannot read ", path, out),
        Fault::Write(path) => write_about(b"cannot write ", path, out),
        Fault::Truncated(path) => write_about(b"record is truncated: ", path, out),
        Fault::NotUtf8 => write_all(out, b"name is not UTF-8"),
        Fault::Special(path) => write_about_file(b"not a file or folder: ", path, out),
        Fault::NoMemory => write_all(out, b"no memory"),
    }
}

// Writes this text, and the path as it is printed.
fn write_about<W: Sink>(text: &[u8], path: &str, out: &mut W) -> Result<(), DeviceFault>
    ensures { Wrote (W.seen out.old) (W.seen out.new) result (text.now ++ escaped path.now) }
{
    write_all(out, text)?;
    write_escaped(out, path.as_bytes())
}

// Writes this text, and the path of a file in a folder as it is printed.
fn write_about_file<W: Sink>(text: &[u8], path: &[String], out: &mut W) -> Result<(), DeviceFault>
    ensures { Wrote (W.seen out.old) (W.seen out.new) result
        (text.now ++ path_text (map string_bytes path.now)) }
{
    write_all(out, text)?;
    write_path(out, path)
}
