//! How far a file is that is hashed for a draft.

ghost use Rattle.std.specs.Prelude.{◌≡◌, ◌≢◌, ◌≤◌, [], IfOk, OnErr, OnOk, length};
ghost use Rattle.drafting.specs.Stages.{AdvancesStage, FoundOf, LacksMemory, stage_left};

use crate::feeding::feed;
use gathering::{FileHashes, Hashing};
use hashtree::{MAX_LENGTH, NoMemory};
use std::alloc::Global;

/// How far a file is.
#[derive(Drop)]
pub(crate) enum Stage {
    /// Its bytes come.
    Coming(Hashing),
    /// It has all its bytes, and this was found.
    Whole(FileHashes),
    /// Memory was refused.
    Refused,
}

impl Stage {
    /// How many bytes may still come.
    pub(crate) fn left(&self) -> u64
        ensures { result ≡ stage_left self.now }
    {
        match self {
            Stage::Coming(hashing) => MAX_LENGTH.saturating_sub(hashing.tree.len()),
            Stage::Whole(_) => 0,
            Stage::Refused => MAX_LENGTH,
        }
    }

    /// Takes further bytes. It fails only if memory was refused. Condition: no more bytes come than
    /// [`Stage::left`] says.
    pub(crate) fn push(&mut self, bytes: &[u8]) -> Result<(), NoMemory>
        requires { length bytes.now ≤ stage_left self.old }
        ensures fed { OnOk result (AdvancesStage self.old bytes.now self.new) }
        ensures worked { OnOk result (self.old ≢ Stage.Refused) }
        ensures works { OnOk result (self.new ≢ Stage.Refused) }
        ensures memory { OnErr result (LacksMemory self.old bytes.now) }
    {
        match self {
            Stage::Coming(hashing) => {
                if bytes.is_empty() {
                    return Ok(());
                }
                feed(hashing, bytes)
            }
            Stage::Whole(_) => Ok(()),
            Stage::Refused => Err(NoMemory),
        }
    }

    /// What a draft is given of the bytes. It fails only if memory was refused.
    pub(crate) fn found(self, alloc: Global) -> Result<FileHashes, NoMemory>
        ensures found { IfOk result (FoundOf self) }
        ensures works { OnOk result (self ≢ Stage.Refused) }
        ensures memory { OnErr result (LacksMemory self []) }
    {
        match self {
            Stage::Coming(hashing) => {
                if hashing.tree.is_empty() {
                    return Ok(FileHashes::empty(alloc));
                }
                hashing.finish(alloc)
            }
            Stage::Whole(found) => Ok(found),
            Stage::Refused => Err(NoMemory),
        }
    }
}
