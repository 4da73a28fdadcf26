//! The pass over the files of a shelf.
ghost use Rattle.std.specs.Prelude.{◌≡◌, ◌+◌, ◌<◌, ◌≤◌, ◌^◌, [], length, true, false, List, IfOk, IfErr};
ghost use Rattle.passes.specs.Batches.{AreBatch, EndsLooking, EndsOne, LooksOnce, TakesBatch, looked_of, number_behind};
ghost use Rattle.passes.specs.Held.{Answer};
ghost use Rattle.passes.specs.Passing.{PassesAll, StopsPassing, TakesTo};

use crate::held::HeldFiles;
use crate::job::Job;
use crate::nothing::Nothing;
use crate::rows::MOST;
use crate::stopped::Stopped;
use benc::DeviceFault;
use folders::Shelf;

// Items whose paths were looked at one after the other: the number of the first, and what was found
// of the last, if it was read alone.
#[derive(Drop)]
struct Batch<T: Drop> {
    from: usize,
    last: Option<T>,
}

/// Passes over all items of a job: looks at the path that is wanted of each once and in order, and
/// takes what came of it in the same order. Small files that follow one another are read before the
/// first of them is taken, and hashed side by side: at most 64, of which the job says that they may
/// wait.
///
/// # Errors
///
/// That for which the job stopped, and the number of the item.
pub fn pass<S: Shelf, J: Job<S, B, K, O>, B, K, O>(
    shelf: &mut S,
    job: &J,
    scratch: &mut B,
    held: &mut HeldFiles,
    kept: &mut K,
    out: &mut O,
) -> Result<(), Stopped<J::Stop>>
    requires fits { J.fits job.now scratch.old }
    requires ready { (J.task job.now).is_ready 0 (J.state kept.old out.old) }
    requires holds { (J.task job.now).holds held.old.cutting }
    ensures all { IfOk result (λ _. PassesAll S.Shelf S.File.seen (J.task job.now) shelf.old
        (J.state kept.old out.old) shelf.new (J.state kept.new out.new)) }
    ensures stops { IfErr result (λ e. StopsPassing S.Shelf S.File.seen (J.task job.now)
        shelf.old (J.state kept.old out.old) e.number e.stop shelf.new
        (J.state kept.new out.new)) }
{
    let mut from = 0;
    let count = job.len();
    'batches: while from < count {
        held.clear();
        let last = match look_ahead(shelf, job, scratch, from, held) {
            Ok(last) => last,
            Err(stopped) => return Err(stopped),
        };
        held.hash();
        from = match take_batch(job, scratch, Batch { from, last }, held, kept, out) {
            Ok(next) => next,
            Err(stopped) => return Err(stopped),
        };
    }
    Ok(())
}

// Looks at the paths of the items from this one on, until what waits is to be taken: what was found
// of the last one, if it was read alone. Conditions: the job has the item, and nothing is held.
fn look_ahead<S: Shelf, J: Job<S, B, K, O>, B, K, O>(
    shelf: &mut S,
    job: &J,
    scratch: &mut B,
    from: usize,
    held: &mut HeldFiles,
) -> Result<Option<J::Found>, Stopped<J::Stop>>
    requires fits { J.fits job.now scratch.old }
    requires there { from < length (J.task job.now).items }
    requires none { held.old.answers ≡ [] }
    requires holds { (J.task job.now).holds held.old.cutting }
    ensures ends { EndsLooking S.Shelf S.File.seen (J.task job.now) from shelf.old
        held.new.answers shelf.new result }
    ensures cutting { held.new.cutting ≡ held.old.cutting }
    ensures fits { J.fits job.now scratch.new }
{
    'paths: for number in from..job.len() {
        let may_wait = job.may_wait(scratch, number, held);
        if is_turn(held.len(), may_wait) {
            return Ok(None);
        }
        match look_and_hold(shelf, job, scratch, number, held) {
            Ok(None) => {}
            Ok(Some(found)) => return Ok(Some(found)),
            Err(stop) => return Err(Stopped { number, stop }),
        }
        if !may_wait {
            return Ok(None);
        }
    }
    Ok(None)
}

// Whether what is held of this many paths is to be taken before the next one is looked at, which
// may wait or not.
fn is_turn(held: usize, may_wait: bool) -> bool
    requires { held ≤ 64 }
    ensures some { result ≡ true → 0 < held }
    ensures few { result ≡ false → held < 64 }
    ensures waits { result ≡ false → 0 < held → may_wait ≡ true }
{
    held > 0 && (held == MOST || !may_wait)
}

// Looks at the path of one item, and holds what came of it; or what was found of it, if it was read
// alone. Conditions: the job has the item, and there is room to hold one more.
fn look_and_hold<S: Shelf, J: Job<S, B, K, O>, B, K, O>(
    shelf: &mut S,
    job: &J,
    scratch: &mut B,
    number: usize,
    held: &mut HeldFiles,
) -> Result<Option<J::Found>, J::Stop>
    requires fits { J.fits job.now scratch.old }
    requires there { number < length (J.task job.now).items }
    requires few { length held.old.answers < 64 }
    requires holds { (J.task job.now).holds held.old.cutting }
    ensures ends { EndsOne S.Shelf S.File.seen (J.task job.now) number shelf.old held.old
        held.new result shelf.new }
    ensures fits { J.fits job.now scratch.new }
{
    match look(shelf, job, scratch, number, held) {
        Ok(found) => Ok(found),
        Err(nothing) => match job.stop_at(number, nothing) {
            Some(stop) => Err(stop),
            None => {
                held.hold_nothing(nothing);
                Ok(None)
            }
        },
    }
}

// Looks at the path of one item: what was found of it, if it was read alone and is not held; or why
// there is nothing to be held. Conditions: as above.
fn look<S: Shelf, J: Job<S, B, K, O>, B, K, O>(
    shelf: &mut S,
    job: &J,
    scratch: &mut B,
    number: usize,
    held: &mut HeldFiles,
) -> Result<Option<J::Found>, Nothing>
    requires fits { J.fits job.now scratch.old }
    requires there { number < length (J.task job.now).items }
    requires few { length held.old.answers < 64 }
    requires holds { (J.task job.now).holds held.old.cutting }
    ensures looks { LooksOnce S.Shelf S.File.seen (J.task job.now) number shelf.old held.old
        held.new result shelf.new }
    ensures fits { J.fits job.now scratch.new }
{
    let Some(opened) = job.open(scratch, shelf, number) else {
        return Err(Nothing::Unasked);
    };
    match opened {
        Ok(Some(mut file)) => {
            let read = job.read(scratch, number, &mut file, held);
            shelf.close(file);
            looked_of(read)
        }
        Ok(None) => Err(Nothing::Missing),
        Err(_) => Err(Nothing::Failed),
    }
}

// What came of looking at a path, by that of reading the file that is there.
fn looked_of<T: Drop>(read: Result<Option<T>, DeviceFault>) -> Result<Option<T>, Nothing>
    ensures { result ≡ looked_of read }
{
    match read {
        Ok(found) => Ok(found),
        Err(_) => Err(Nothing::Failed),
    }
}

// Takes what came of the items of a batch. The number of the next item. Condition: what is held is
// hashed.
fn take_batch<S: Shelf, J: Job<S, B, K, O>, B, K, O>(
    job: &J,
    scratch: &mut B,
    batch: Batch<J::Found>,
    held: &HeldFiles,
    kept: &mut K,
    out: &mut O,
) -> Result<usize, Stopped<J::Stop>>
    requires fits { J.fits job.now scratch.old }
    requires batch { (all : List Answer)
        × AreBatch (J.task job.now) batch.from held.now.answers batch.last all }
    requires short { length (J.task job.now).items < 2 ^ 64 }
    requires hashed { held.now.is_hashed ≡ true }
    requires holds { (J.task job.now).holds held.now.cutting }
    requires ready { (J.task job.now).is_ready batch.from (J.state kept.old out.old) }
    ensures takes { (k : J.State) (all : List Answer)
        → AreBatch (J.task job.now) batch.from held.now.answers batch.last all
        → TakesTo (J.task job.now) k all batch.from (J.state kept.old out.old)
        → TakesBatch (J.task job.now) k all batch.from
        (number_behind (J.task job.now) batch.last (batch.from + length held.now.answers))
        (J.state kept.new out.new) result }
    ensures ready { IfOk result (λ next. (J.task job.now).is_ready next
        (J.state kept.new out.new)) }
    ensures fits { J.fits job.now scratch.new }
{
    'held: for place in 0..held.len() {
        let number = batch.from + place;
        let found = job.found(scratch, number, held, place);
        if let Err(stop) = job.take(scratch, number, found, kept, out) {
            return Err(Stopped { number, stop });
        }
    }
    let number = batch.from + held.len();
    match batch.last {
        None => Ok(number),
        Some(found) => match job.take(scratch, number, found, kept, out) {
            Ok(()) => Ok(number + 1),
            Err(stop) => Err(Stopped { number, stop }),
        },
    }
}
