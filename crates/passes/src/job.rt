//! What is done with the files of a shelf in a pass.
ghost use Rattle.std.specs.Prelude.{◌≡◌, ◌+◌, ◌<◌, length, slice_get, true, Some, IfOk};
ghost use Rattle.benc.specs.Device.{CountsFault};
ghost use Rattle.passes.specs.Held.{Answer, as_answer};
ghost use Rattle.passes.specs.Passing.{OpensFor, ReadsFor, StopsFor, Want};

use crate::held::HeldFiles;
use crate::nothing::Nothing;
use benc::DeviceFault;
use folders::Shelf;

/// What is done in a pass over the files of a shelf: which path is wanted for each item, what is
/// found of the file that is there, and how that is taken. `B` is what the job writes to as it
/// works, as buffers, `K` what is filled as items are taken, and `O` where it is told of.
pub trait Job<S: Shelf, B, K, O> {
    ghost use Rattle.passes.specs.Passing.{Task};

    /// What is found of a path.
    type Found: Drop;

    /// What a pass stops for.
    type Stop: Drop;

    // An item, and what changes in a pass, as contracts see them.
    ghost Item: { Type 0 };

    ghost State: { Type 0 };

    ghost state: { K → O → Self.State };

    // There is all in it that the job needs.
    ghost fits: { Self → B → Type 0 };

    ghost task: { Self → Task Self.Item Self.State Self.Found Self.Stop };

    /// How many items there are.
    fn len(&self) -> usize
        ensures { result ≡ length (task self.now).items };

    /// Opens the path that is wanted of an item; `None` if none is.
    fn open(
        &self,
        scratch: &mut B,
        shelf: &mut S,
        number: usize,
    ) -> Option<Result<Option<S::File>, DeviceFault>>
        requires fits { fits self.now scratch.old }
        requires there { number < length (task self.now).items }
        ensures opens { (i : Self.Item) → slice_get (task self.now).items number ≡ Some i
            → OpensFor S.Shelf S.File.seen ((task self.now).wants i) shelf.old result
            shelf.new }
        ensures fits { fits self.now scratch.new };

    /// Reads the file that was opened for an item. Its bytes are held if that can be done; else it
    /// is read alone. Condition: there is room to hold one more.
    fn read(
        &self,
        scratch: &mut B,
        number: usize,
        file: &mut S::File,
        held: &mut HeldFiles,
    ) -> Result<Option<Self::Found>, DeviceFault>
        requires fits { fits self.now scratch.old }
        requires there { number < length (task self.now).items }
        requires few { length held.old.answers < 64 }
        requires holds { (task self.now).holds held.old.cutting }
        ensures reads { (i : Self.Item) (w : Want)
            → slice_get (task self.now).items number ≡ Some i
            → (task self.now).wants i ≡ Some w
            → ReadsFor ((task self.now).finds i) ((task self.now).reads i) w.most
            (S.File.seen file.old) (S.File.seen file.new) held.old held.new result }
        ensures counts { CountsFault (S.File.seen file.old).faults (S.File.seen file.new).faults
            result }
        ensures fits { fits self.now scratch.new };

    /// What is found of an item of which this is held. Condition: it is hashed.
    fn found(&self, scratch: &mut B, number: usize, held: &HeldFiles, place: usize) -> Self::Found
        requires fits { fits self.now scratch.old }
        requires there { number < length (task self.now).items }
        requires place { place < length held.now.answers }
        requires hashed { held.now.is_hashed ≡ true }
        requires holds { (task self.now).holds held.now.cutting }
        ensures found { (i : Self.Item) (a : Answer)
            → slice_get (task self.now).items number ≡ Some i
            → slice_get held.now.answers place ≡ Some a → (task self.now).finds i a result }
        ensures fits { fits self.now scratch.new };

    /// Takes what was found of an item. Conditions: it was found of what came of looking at its
    /// path, and all items before it were taken.
    fn take(
        &self,
        scratch: &mut B,
        number: usize,
        found: Self::Found,
        kept: &mut K,
        out: &mut O,
    ) -> Result<(), Self::Stop>
        requires fits { fits self.now scratch.old }
        requires found { (i : Self.Item) × (a : Answer)
            × (slice_get (task self.now).items number ≡ Some i)
            × (task self.now).finds i a found }
        requires ready { (task self.now).is_ready number (state kept.old out.old) }
        ensures takes { (i : Self.Item) (a : Answer)
            → slice_get (task self.now).items number ≡ Some i
            → (task self.now).finds i a found
            → (task self.now).takes (state kept.old out.old) i a result
            (state kept.new out.new) }
        ensures ready { IfOk result (λ _. (task self.now).is_ready (number + 1)
            (state kept.new out.new)) }
        ensures fits { fits self.now scratch.new };

    /// Whether an item may be looked at before what is held is taken, as no line of these is due,
    /// and may itself wait while others are looked at.
    fn may_wait(&self, scratch: &mut B, number: usize, held: &HeldFiles) -> bool
        requires fits { fits self.now scratch.old }
        requires there { number < length (task self.now).items }
        ensures waits { result ≡ true → (i : Self.Item)
            → slice_get (task self.now).items number ≡ Some i
            → (task self.now).waits i }
        ensures fits { fits self.now scratch.new };

    /// For what the pass ends at once, if it does so at a path where there is nothing to be held.
    fn stop_at(&self, number: usize, nothing: Nothing) -> Option<Self::Stop>
        requires there { number < length (task self.now).items }
        ensures { (i : Self.Item) → slice_get (task self.now).items number ≡ Some i
            → StopsFor (task self.now) i (as_answer nothing) result };
}
