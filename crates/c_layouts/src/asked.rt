//! A hash request as C sees it.

ghost use Rattle.std.specs.Prelude.{◌≡◌};
ghost use Rattle.c_layouts.specs.Asks.{ask_of, asked_of};

use wire::Ask;

/// The five fields of a hash request, laid out for C.
#[repr(C)]
#[derive(Clone, Copy)]
pub struct Asked {
    pub root: [u8; 32],
    pub base: u32,
    pub index: u32,
    pub length: u32,
    pub proof: u32,
}

/// The ask of these five fields.
pub fn read_ask(asked: &Asked) -> Ask
    ensures { result ≡ ask_of asked.now }
{
    Ask {
        root: asked.root,
        base: asked.base,
        index: asked.index,
        length: asked.length,
        proof: asked.proof,
    }
}

/// The same five fields, for C.
pub fn lay_out(ask: &Ask) -> Asked
    ensures { result ≡ asked_of ask.now }
{
    Asked {
        root: ask.root,
        base: ask.base,
        index: ask.index,
        length: ask.length,
        proof: ask.proof,
    }
}
