//! What other calls are made of, called alone, and again if memory was refused.
use crate::again::name_refused;
use benc::{Fault, FaultKind, decode_with_span};
use hashtree::{Hash, LayerBuilder};
use pieces::{V1Cuts, V1File};
use std::alloc::{AllocError, Global};
use std::io;

/// Decodes the bytes, and prints those of the value under `info`.
pub(crate) fn span_again(rt: &HostRuntime, bytes: &[u8]) -> io::Result<()> {
    let mut answer = span_of(rt.alloc(), bytes);
    if let Err(fault) = answer
        && fault.kind == FaultKind::NoMemory
    {
        name_refused(rt, "decode_with_span")?;
        answer = span_of(rt.alloc(), bytes);
    }
    println!(rt; "{answer:?}")
}

fn span_of<'a>(alloc: Global, bytes: &'a [u8]) -> Result<Option<&'a [u8]>, Fault> {
    let (_, span) = decode_with_span(alloc, bytes, b"info")?;
    Ok(span)
}

/// Builds the layer of pairs of blocks of a file with this content, and prints it.
pub(crate) fn layer_again(rt: &HostRuntime, content: &[u8]) -> io::Result<()> {
    let answer = match layer_of(rt.alloc(), content) {
        Ok(answer) => answer,
        Err(AllocError) => {
            name_refused(rt, "LayerBuilder")?;
            layer_of(rt.alloc(), content)?
        }
    };
    println!(rt; "{answer:?}")
}

fn layer_of(alloc: Global, content: &[u8]) -> Result<Option<(u64, Hash, Vec<Hash>)>, AllocError> {
    let mut builder = LayerBuilder::new(alloc, 1);
    if content.is_empty() || content.len() > 1 << 40 {
        return Ok(None);
    }
    builder.push(content)?;
    Ok(Some(builder.finish()?))
}

/// Digests the cuts of a file with this content, and prints the digests.
pub(crate) fn cuts_again(rt: &HostRuntime, content: &[u8]) -> io::Result<()> {
    let answer = match cuts_of(rt.alloc(), content) {
        Ok(answer) => answer,
        Err(AllocError) => {
            name_refused(rt, "V1Cuts")?;
            cuts_of(rt.alloc(), content)?
        }
    };
    println!(rt; "{answer:?}")
}

fn cuts_of(alloc: Global, content: &[u8]) -> Result<V1File, AllocError> {
    let mut cuts = V1Cuts::new(alloc, 16384);
    cuts.push(content)?;
    cuts.finish()
}
