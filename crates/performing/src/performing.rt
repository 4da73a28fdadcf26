//! What each command does, on real files.
use crate::assemble::perform_assemble;
use crate::check::perform_check;
use crate::check_part::perform_check_part;
use crate::convert::perform_convert;
use crate::create::perform_create;
use crate::create_part::perform_create_part;
use crate::join::perform_join;
use crate::replay::perform_replay;
use crate::root::perform_root;
use crate::show::perform_show;
use actions::{Action, Asked};
use printing::Fault;
use real_files::{System, hold_closed_streams};

/// Does what was asked for, and gives the exit status.
pub fn perform<'a>(system: &System, asked: &Asked<'a>) -> Result<u8, Fault<'a>> {
    let _placeholders = hold_closed_streams(system.rt())?;
    if asked.reasons {
        system.show_reasons();
    }
    run(system, &asked.action)
}

fn run<'a>(system: &System, action: &Action<'a>) -> Result<u8, Fault<'a>> {
    match action {
        Action::Root { file, json } => perform_root(system, file, *json),
        Action::Show {
            torrent,
            json,
            long,
        } => perform_show(system, torrent, *json, *long),
        Action::Check(asked) => perform_check(system, asked),
        Action::CheckPart(asked) => perform_check_part(system, asked),
        Action::Join(asked) => perform_join(system, asked),
        Action::Replay(asked) => perform_replay(system, asked),
        Action::Create(asked) => perform_create(system, asked),
        Action::CreatePart(asked, part) => perform_create_part(system, asked, *part),
        Action::Assemble(asked) => perform_assemble(system, asked),
        Action::Convert(asked) => perform_convert(system, asked),
    }
}
