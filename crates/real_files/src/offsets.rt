//! Where the files of a torrent begin.
use opening::{File as Listed, Torrent};

/// Where the files of a torrent begin in all its bytes, if they are asked for in the torrent's
/// order.
#[derive(Drop)]
pub(crate) struct Offsets<'a> {
    files: &'a [Listed<'a>],
    next: usize,
    passed: u64,
}

impl<'a> Offsets<'a> {
    /// The offsets of all files of this torrent.
    pub(crate) fn new(torrent: &'a Torrent<'a>) -> Offsets<'a> {
        Offsets {
            files: torrent.files(),
            next: 0,
            passed: 0,
        }
    }

    /// How many bytes the files before the one with this path have, whether they were asked for or
    /// not. It counts on from the file that was asked for last.
    pub(crate) fn before(&mut self, path: &[&str]) -> u64 {
        let files = self.files;
        'files: for at in self.next..files.len() {
            let file = &files[at];
            if file.path.parts().as_slice() == path {
                self.next = at;
                return self.passed;
            }
            self.passed = self.passed.saturating_add(file.length);
        }
        self.next = files.len();
        self.passed
    }
}
