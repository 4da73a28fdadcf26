//! What each command answers over any devices: what goes out, and the exit status that follows.
ghost use Rattle.std.specs.Prelude.{◌≡◌, ◌≢◌, ◌^◌, ◌+◌, ◌≤◌, ◌↔◌, ℕ, Bool, IsTrue, List, [], None, Some, Ok, Err, IfErr, IfOk, OnErr, OnOk, String, length, map, not, true, false};
ghost use Rattle.std.specs.String.{string_bytes};
ghost use Rattle.benc.specs.Device.{BrokeOrUnflushed, SentAndFlushed, WroteAndFlushed};
ghost use Rattle.gathering.specs.Gathering.{Gathers};
ghost use Rattle.lines.specs.Rows.{spell};
ghost use Rattle.lines.specs.Table.{refusal_row};
ghost use Rattle.torrent_lines.specs.Rows.{show_rows};
ghost use Rattle.replays.specs.Replay.{IsCutReport, replay_seen};
ghost use Rattle.replays.specs.Telling.{plain_as};
ghost use Rattle.folders.specs.Root.{root_line_as};
ghost use Rattle.seeding.specs.Seeding.{IsSeededAs, SeedsAs, seed_line_as, shelf_and_session};
ghost use Rattle.folders.specs.TakeAll.{IsReadWithin};
ghost use Rattle.session.specs.Fresh.{IsFresh};
ghost use Rattle.part_reports.specs.Heads.{AreMarkedTexts};
ghost use Rattle.commands.specs.Outcomes.{BlamesOne, ConvertsRecord, EndsRoot, IsReplayed, IsListingFault, IsSeedingFault, IsUnprinted, JoinsMarkedParts, JoinsParts, MakesDraft, NamesOutput, NamesSink, WritesTorrent, answer_status, form_2_text, wanted_draft};

use crate::answer_sink::AnswerSink;
use crate::joins::{join_marked, join_plain};
use actions::Create;
use benc::{Sink, Source};
use conversions::ConvertFault;
use drafts::Draft;
use filetree::Refusal;
use folders::{Lengths, Pace, RootFault, Shelf, ShelfFault, root_line_onto};
use gathering::{GatherFault, gather_by_lengths};
use lines::{Line, LineSink, Nowhere, say_last};
use opening::Torrent;
use part_reports::{JoinFault, Kind, kind_of};
use pieces::PieceBuffer;
use printing::{Fault, OUTPUT};
use seeding::SeedFault;
use session::{NodeMap, Paged, Session};
use std::alloc::Global;
use torrent_lines::{refusal_line_onto, show_onto};

/// Says the length and root of the file with this path. The status is 1 if the file is too long.
/// If memory for its buffer is refused, it uses a smaller one, which is no fault.
// It has a block in its frame, so it is not inlined.
#[inline(never)]
pub fn root<'a, R: Source, L: LineSink>(
    alloc: Global,
    path: &'a str,
    source: &mut R,
    out: &mut L,
) -> Result<u8, Fault<'a>>
    ensures ends { EndsRoot (root_line_as L.spelled) (R.seen source.old) (R.seen source.new)
        (L.seen out.old) (L.seen out.new) result }
    ensures no_further { IsReadWithin (2 ^ 46 + 1) (R.seen source.old) (R.seen source.new) }
    ensures faults { BlamesOne path.now (R.seen source.old) (R.seen source.new)
        (L.seen out.old) (L.seen out.new) result }
{
    let mut buffer = PieceBuffer::of_blocks(alloc);
    match root_line_onto(source, buffer.as_mut_slice(), out) {
        Ok(within) => Ok(status(within)),
        Err(RootFault::Read) => Err(Fault::Read(path)),
        Err(RootFault::Write) => Err(Fault::Write(OUTPUT)),
    }
}

/// Says what a torrent holds, status 0. The one fault is a failed write to `out`, after a prefix of
/// the lines.
pub fn show<'a, L: LineSink>(torrent: &Torrent<'_>, out: &mut L) -> Result<u8, Fault<'a>>
    ensures status { IfOk result (λ s. s ≡ answer_status true) }
    ensures lines { WroteAndFlushed (L.seen out.old) (L.seen out.new) result
        (spell L.spelled (show_rows torrent.now)) }
    ensures fault { IfErr result NamesOutput }
{
    match show_onto(torrent, out) {
        Ok(()) => Ok(status(true)),
        Err(_) => Err(Fault::Write(OUTPUT)),
    }
}

/// Says why a torrent was refused, or the file with this path that was to be in one, status 1. Of a
/// refusal out of memory it says nothing, and that is the fault.
pub fn refuse<'a, L: LineSink>(
    refusal: &Refusal,
    path: &[String],
    out: &mut L,
) -> Result<u8, Fault<'a>>
    requires sink { refusal.now ≢ Refusal.Write }
    ensures status { IfOk result (λ s. s ≡ answer_status false) }
    ensures line { OnOk result (SentAndFlushed (L.seen out.old) (L.seen out.new)
        (L.spelled (refusal_row refusal.now (map string_bytes path.now)))) }
    ensures known { OnOk result (refusal.now ≢ Refusal.NoMemory) }
    ensures fault { IfErr result (IsUnprinted refusal.now
        (L.spelled (refusal_row refusal.now (map string_bytes path.now)))
        (L.seen out.old) (L.seen out.new)) }
{
    match refusal {
        Refusal::NoMemory => Err(Fault::NoMemory),
        _ => match refusal_line_onto(refusal, path, out) {
            Ok(()) => Ok(status(false)),
            Err(_) => Err(Fault::Write(OUTPUT)),
        },
    }
}

/// Joins what all parts of a check of this torrent reported, in any order, and says it as the
/// report of the whole check. If the first report is marked all are to be, and the lines of bad
/// pieces are said too. The status is 0 for `yes` and 1 for `no`. If they cannot be joined it
/// answers why, and says nothing.
pub fn join<'a, L: LineSink>(
    alloc: Global,
    torrent: &Torrent<'_>,
    texts: &[&[u8]],
    out: &mut L,
) -> Result<Result<u8, JoinFault>, Fault<'a>>
    ensures plain { let given = map (λ x. x.now) texts.now in (AreMarkedTexts given → ⊥)
        → JoinsParts L.spelled torrent.now given
        (L.seen out.old) (L.seen out.new) result }
    ensures marked { let given = map (λ x. x.now) texts.now in AreMarkedTexts given
        → JoinsMarkedParts L.spelled torrent.now given
        (L.seen out.old) (L.seen out.new) result }
{
    match kind_of(texts) {
        Kind::Plain => join_plain(alloc, torrent, texts, out),
        Kind::Marked => join_marked(alloc, torrent, texts, out),
    }
}

/// A session that knows the torrent's piece layers, or with `info_only` its roots alone. The one
/// fault is out of memory.
pub fn new_session<'t, 'a>(
    alloc: Global,
    torrent: &'t Torrent<'t>,
    info_only: bool,
) -> Result<Session<'t, Paged>, Fault<'a>>
    ensures fresh { IfOk result (IsFresh torrent.now (not info_only)) }
    ensures fault { IfErr result (λ f. f ≡ Fault.NoMemory) }
{
    Ok(Session::new(alloc, torrent, !info_only)?)
}

/// Fills a session from a shelf, and says a line for each file of the torrent. Small files are read
/// together, as many as the pace lets wait.
pub fn seed<'a, N: NodeMap, S: Shelf, P: Pace, L: LineSink>(
    alloc: Global,
    session: &mut Session<'_, N>,
    shelf: &mut S,
    pace: &mut P,
    out: &mut L,
) -> Result<(), Fault<'a>>
    ensures seeded { OnOk result (IsSeededAs S.Shelf S.File.seen (seed_line_as L.spelled)
        (shelf_and_session shelf.old session.old) (shelf_and_session shelf.new session.new)
        (L.seen out.old) (L.seen out.new)) }
    ensures fault { IfErr result (λ f. (e : SeedFault) × SeedsAs S.Shelf S.File.seen
        (seed_line_as L.spelled)
        (shelf_and_session shelf.old session.old) (shelf_and_session shelf.new session.new)
        (L.seen out.old) (L.seen out.new) (Err e) × IsSeedingFault e f) }
{
    match seeding::seed_onto(alloc, session, shelf, pace, out) {
        Ok(()) => Ok(()),
        Err(SeedFault::NoMemory) => Err(Fault::NoMemory),
        Err(SeedFault::Write) => Err(Fault::Write(OUTPUT)),
    }
}

/// Replays a record over a session; with `cuts` the zeros behind the end of a file are cut away.
/// Each line goes out as its frame comes.
pub fn replay<'a, N: NodeMap, R: Source, L: LineSink>(
    alloc: Global,
    session: &mut Session<'_, N>,
    source: &mut R,
    out: &mut L,
    cuts: bool,
) -> Result<u8, Fault<'a>>
    ensures replayed { IfOk result (IsReplayed L.spelled
        (replay_seen cuts (R.seen source.old) session.old tt (L.seen out.old) None)
        (replay_seen cuts (R.seen source.new) session.new tt (L.seen out.new) None)) }
    ensures cut { OnErr result (IsCutReport (plain_as L.spelled)
        (replay_seen cuts (R.seen source.old) session.old tt (L.seen out.old) None)
        (replay_seen cuts (R.seen source.new) session.new tt (L.seen out.new) None)) }
    ensures fault { IfErr result NamesOutput }
{
    let answers = None::<&mut Nowhere>;
    let Ok(outcome) = replays::replay_onto(alloc, session, source, out, answers, cuts) else {
        return Err(Fault::Write(OUTPUT));
    };
    Ok(outcome.status())
}

/// Replays a record over a session, and writes the answers to its hash requests to that sink.
pub fn replay_and_answer<'a, N: NodeMap, R: Source, L: LineSink, A: Sink>(
    alloc: Global,
    session: &mut Session<'_, N>,
    source: &mut R,
    out: &mut L,
    cuts: bool,
    answers: &mut AnswerSink<'a, A>,
) -> Result<u8, Fault<'a>>
    ensures replayed { IfOk result (IsReplayed L.spelled
        (replay_seen cuts (R.seen source.old) session.old tt (L.seen out.old)
        (Some (A.seen answers.old.sink)))
        (replay_seen cuts (R.seen source.new) session.new tt (L.seen out.new)
        (Some (A.seen answers.new.sink)))) }
    ensures cut { OnErr result (IsCutReport (plain_as L.spelled)
        (replay_seen cuts (R.seen source.old) session.old tt (L.seen out.old)
        (Some (A.seen answers.old.sink)))
        (replay_seen cuts (R.seen source.new) session.new tt (L.seen out.new)
        (Some (A.seen answers.new.sink)))) }
    ensures output { (L.seen out.new).faults ≢ (L.seen out.old).faults → IfErr result NamesOutput }
    ensures answers { (L.seen out.new).faults ≡ (L.seen out.old).faults
        → IfErr result (NamesSink answers.old.path.now) }
{
    let faults = out.faults();
    match replays::replay_onto(alloc, session, source, out, Some(&mut answers.sink), cuts) {
        Ok(outcome) => Ok(outcome.status()),
        Err(_) if out.faults() != faults => Err(Fault::Write(OUTPUT)),
        Err(_) => Err(Fault::Write(answers.path)),
    }
}

/// Gathers a draft of all files on a shelf. If they cannot be a torrent, it prints the refusal and
/// answers the exit status, 1. A fault names the file that could not be read, or says why the
/// shelf was not listed. What `lengths` answers chooses only how files are hashed.
pub fn gather<'a, S: Shelf, L: Lengths, W: Sink>(
    alloc: Global,
    asked: &Create<'a>,
    shelf: &mut S,
    lengths: &mut L,
    out: &mut W,
) -> Result<Result<Draft, u8>, Fault<'a>>
    ensures { MakesDraft (Gathers S.Shelf S.File.seen (wanted_draft asked.now) shelf.old shelf.new)
        (Fault.Read asked.now.dir) (W.seen out.old) (W.seen out.new) result }
{
    match gather_by_lengths(
        alloc,
        shelf,
        lengths,
        asked.name,
        asked.piece_length,
        asked.hybrid,
    ) {
        Ok(draft) => Ok(Ok(draft)),
        Err(GatherFault::Refused(refusal, path)) => Ok(Err(refuse(&refusal, &path, out)?)),
        Err(GatherFault::Device(path)) => Err(Fault::ReadBelow(path)),
        Err(GatherFault::Changed(path)) => Err(Fault::ReadBelow(path)),
        Err(GatherFault::List(fault)) => Err(fault_of_listing(fault, asked.dir)),
        Err(GatherFault::NoMemory) => Err(Fault::NoMemory),
    }
}

/// Writes the torrent of a draft to the sink with this path, status 0; or prints why there is none,
/// status 1, and writes nothing to that sink.
pub fn write_torrent<'a, W: Sink, O: Sink>(
    draft: &Draft,
    path: &'a str,
    torrent: &mut W,
    out: &mut O,
) -> Result<u8, Fault<'a>>
    ensures { WritesTorrent draft.now path.now (W.seen torrent.old) (W.seen torrent.new)
        (O.seen out.old) (O.seen out.new) result }
{
    match draft.finish(torrent) {
        Ok(()) => Ok(status(true)),
        Err(Refusal::Write) => Err(Fault::Write(path)),
        Err(refusal) => refuse(&refusal, &[], out),
    }
}

/// Converts the record with the first path and writes it to the sink with the second, status 0. A
/// record of form 2 prints its refusal, status 1. A fault names the record, the sink, or standard
/// output.
pub fn convert<'a, R: Source, W: Sink, O: Sink>(
    record: &'a str,
    source: &mut R,
    path: &'a str,
    converted: &mut W,
    out: &mut O,
) -> Result<u8, Fault<'a>>
    ensures { ConvertsRecord «record».now path.now (R.seen source.old) (R.seen source.new)
        (W.seen converted.old) (W.seen converted.new) (O.seen out.old) (O.seen out.new) result }
{
    match conversions::convert(source, converted) {
        Ok(()) => Ok(status(true)),
        Err(ConvertFault::Truncated) => Err(Fault::Truncated(record)),
        Err(ConvertFault::Read) => Err(Fault::Read(record)),
        Err(ConvertFault::Write) => Err(Fault::Write(path)),
        Err(ConvertFault::AlreadyForm2) => refuse_form_2(out),
    }
}

/// Why the folder with this path could not be listed.
pub(crate) fn fault_of_listing<'a>(fault: ShelfFault, dir: &'a str) -> Fault<'a>
    ensures { IsListingFault (Fault.Read dir.entry) fault result }
{
    match fault {
        ShelfFault::Device => Fault::Read(dir),
        ShelfFault::Name => Fault::NotUtf8,
        ShelfFault::Special(path) => Fault::Special(path),
        ShelfFault::NoMemory => Fault::NoMemory,
    }
}

// Prints that a record is of form 2 already.
fn refuse_form_2<'a, W: Sink>(out: &mut W) -> Result<u8, Fault<'a>>
    ensures status { IfOk result (λ s. s ≡ answer_status false) }
    ensures line { WroteAndFlushed (W.seen out.old) (W.seen out.new) result form_2_text }
    ensures fault { IfErr result NamesOutput }
{
    if say_last(&Line::AlreadyForm2, out).is_err() {
        return Err(Fault::Write(OUTPUT));
    }
    Ok(status(false))
}

/// The exit status of an answer: 0 for yes or done, 1 for no or a refusal.
pub(crate) fn status(yes: bool) -> u8
    ensures { result ≡ answer_status yes }
{
    if yes { 0 } else { 1 }
}
