//! Devices that bytes come from and go to, and canonical bencoding (BEP 3).
#![tactic(auto)]

mod adapters;
mod canonical;
mod decoding;
mod device;
mod encoding;
mod fault;
pub mod laws;
pub mod memory;
mod parser;
mod scan;
mod stop;
mod store;
mod value;

pub use adapters::{FromRead, FromWrite};
pub use decoding::{decode, decode_front, decode_with_span, span};
pub use device::{DeviceFault, Sink, Source, WriteFault, write_all};
pub use encoding::encode;
pub use fault::{Fault, FaultKind};
pub use value::{Pair, Value};
