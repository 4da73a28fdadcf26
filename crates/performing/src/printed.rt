//! What every command prints on standard output.
ghost use Rattle.std.specs.Prelude.{◌≢◌};

use crate::hints::hint_at_version;
use commands::outcomes;
use filetree::Refusal;
use lines::LineSink;
use printing::Fault;
use real_files::{StandardOutput, System};

/// Says lines to a sink, as texts, or with `--json` as JSON objects.
macro_rules! say_to {
    ($json:expr, $sink:expr, $lines:ident => $said:expr) => {
        if $json {
            let mut $lines = lines::Objects::new($sink);
            $said
        } else {
            let mut $lines = $sink;
            $said
        }
    };
}

pub(crate) use say_to;

/// Prints the refusal of a torrent with these bytes, as its line or as the object of that. Gives
/// the exit status.
pub(crate) fn refuse<'a>(
    system: &System,
    bytes: &[u8],
    refusal: &Refusal,
    json: bool,
    out: StandardOutput<'_>,
) -> Result<u8, Fault<'a>>
    requires { refusal.now ≢ Refusal.Write }
{
    say_to!(json, out, lines => say_refusal(system, bytes, refusal, &mut lines))
}

/// Says the refusal of a torrent with these bytes, and tells people if it is of version 1 alone.
/// Gives the exit status.
pub(crate) fn say_refusal<'a, L: LineSink>(
    system: &System,
    bytes: &[u8],
    refusal: &Refusal,
    out: &mut L,
) -> Result<u8, Fault<'a>>
    requires { refusal.now ≢ Refusal.Write }
{
    let status = outcomes::refuse(refusal, &[], out)?;
    hint_at_version(system, bytes, refusal);
    Ok(status)
}
