//! The line on the terminal, from the first time that it is drawn until it is gone.
use crate::progress::line::{Figures, Text, line_of};
use crate::progress::terminal::columns;
use std::cell::Cell;
use std::io::Write;
use std::time::{Duration, Instant};
use unicode_width::UnicodeWidthStr;

// The clock is read once in this many bytes.
const BYTES_BETWEEN_LOOKS: u64 = 65_536;

// The line is drawn at most ten times a second.
const MILLISECONDS_BETWEEN_LINES: u64 = 100;

// At a line between these a terminal begins no new one, however narrow it is.
const NO_WRAP: &str = "\x1b[?7l";

const WRAP: &str = "\x1b[?7h";

/// How far a command has come, and a line on standard error that says it. There is no line if
/// standard error is no terminal or `TERM` is `dumb`; then no clock is read either. It goes when
/// this is dropped.
pub struct Progress {
    rt: HostRuntime,
    // How many bytes were read.
    read: Cell<u64>,
    screen: Option<Screen>,
}

// What was done on a terminal.
#[derive(Drop)]
struct Screen {
    columns: usize,
    all: Cell<Option<u64>>,
    start: Instant,
    // How many bytes were read since the clock was.
    unseen: Cell<u64>,
    // When the line was drawn, and how many columns it takes.
    drawn: Cell<Instant>,
    width: Cell<usize>,
}

impl Progress {
    /// No line yet, for a command that reads this many bytes in all if that is known.
    pub fn new(rt: &HostRuntime, all: Option<u64>) -> Progress {
        Progress {
            rt: *rt,
            read: Cell::new(0),
            screen: screen_for(rt, all),
        }
    }

    /// Takes note of this many bytes more of the file with this name, and of the place in all
    /// bytes. It draws the line anew if it is time to.
    pub fn note(&self, count: usize, place: u64, name: &str) {
        let count = count as u64;
        self.read.set(self.read.get().saturating_add(count));
        let Some(screen) = &self.screen else {
            return;
        };
        screen.unseen.set(screen.unseen.get().saturating_add(count));
        if screen.unseen.get() < BYTES_BETWEEN_LOOKS {
            return;
        }
        screen.unseen.set(0);
        if let Ok(now) = Instant::now(&self.rt) {
            self.look(screen, now, place, name);
        }
    }

    /// From now on this many bytes are to be read in all.
    pub fn expect(&self, all: u64) {
        if let Some(screen) = &self.screen {
            screen.all.set(Some(all));
        }
    }

    /// How many bytes were read.
    pub fn read(&self) -> u64 {
        self.read.get()
    }

    /// Takes the line away, if there is one.
    pub fn clear(&self) {
        if let Some(screen) = &self.screen {
            if screen.width.get() > 0 {
                self.draw(screen, "");
                self.write("\r");
            }
        }
    }

    // Draws the line anew, if it is time to. It has the line in its frame, so it is not inlined.
    #[inline(never)]
    fn look(&self, screen: &Screen, now: Instant, place: u64, name: &str) {
        let age = now.duration_since(screen.drawn.get());
        if age < Duration::from_millis(MILLISECONDS_BETWEEN_LINES) {
            return;
        }
        screen.drawn.set(now);
        let figures = Figures {
            done: place,
            all: screen.all.get(),
            read: self.read.get(),
            time: now.duration_since(screen.start),
        };
        let line = line_of(&figures, name, screen.columns);
        self.draw(screen, line.as_str());
    }

    // Writes a line over the one that is there.
    fn draw(&self, screen: &Screen, line: &str) {
        let mut text = Text::new();
        let _ = text.try_push('\r');
        let _ = text.try_push_str(NO_WRAP);
        let _ = text.try_push_str(line);
        let width = line.width();
        'rest: for _ in width..screen.width.get() {
            let _ = text.try_push(' ');
        }
        let _ = text.try_push_str(WRAP);
        screen.width.set(width);
        self.write(text.as_str());
    }

    // What cannot be written to the terminal is lost.
    fn write(&self, text: &str) {
        let _ = self.rt.stderr().write_all(text.as_bytes());
    }
}

impl Drop for Progress {
    fn drop(self) {
        self.clear();
        let Progress {
            rt: _,
            read: _,
            screen: _,
        } = self;
    }
}

// The screen, if there is a terminal and a clock. The last column stays empty, so that no terminal
// begins a new line.
fn screen_for(rt: &HostRuntime, all: Option<u64>) -> Option<Screen> {
    let columns = columns(rt)?;
    let start = Instant::now(rt).ok()?;
    Some(Screen {
        columns: columns.saturating_sub(1),
        all: Cell::new(all),
        start,
        unseen: Cell::new(0),
        drawn: Cell::new(start),
        width: Cell::new(0),
    })
}
