//! The lengths of files that are of a wrong length.
use crate::watched::Watch;
use lines::{Checked, Line};
use opening::{File, Torrent};
use real_files::{Progress, System, print_lengths};

/// What tells the lengths of a file below a folder before the line goes by that says it is of a
/// wrong length, if reasons are asked for.
#[derive(Drop)]
pub(crate) struct ToldLengths<'a> {
    system: &'a System,
    dir: &'a str,
    progress: &'a Progress,
    // The files of the torrent from the last one on of which something was told.
    files: &'a [File<'a>],
}

impl<'a> ToldLengths<'a> {
    /// Nothing has been told of the files of this torrent, whose lines come in its order.
    pub(crate) fn new(
        system: &'a System,
        torrent: &'a Torrent<'a>,
        dir: &'a str,
        progress: &'a Progress,
    ) -> ToldLengths<'a> {
        ToldLengths {
            system,
            dir,
            progress,
            files: torrent.files(),
        }
    }

    // Tells the lengths of the file with this path.
    fn tell(&mut self, path: &[&str]) {
        let files = self.files;
        'files: for at in 0..files.len() {
            let file = &files[at];
            if file.path.parts().as_slice() == path {
                self.files = &files[at..];
                self.progress.clear();
                print_lengths(self.system, self.dir, file);
                return;
            }
        }
    }
}

impl Watch for ToldLengths<'_> {
    fn see(&mut self, line: &Line<'_>) {
        if let Line::Checked(Checked::WrongLength(path)) = *line {
            if self.system.shows_reasons() {
                self.tell(path);
            }
        }
    }
}
