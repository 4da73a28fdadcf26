//! When lines that wait for others are due on a terminal.
use crate::system::System;
use folders::Pace;
use std::io::IsTerminal;
use std::time::{Duration, Instant};

// How long the first of the lines waits at most before they are due.
const MILLISECONDS_OF_WAITING: u64 = 300;

/// The pace of the lines on standard output. On a terminal they are due once 300 milliseconds have
/// passed since the first of them began to wait, or at once if the clock fails. That time goes on
/// if lines went out because a batch was full. Anywhere else lines may wait as long as it takes,
/// and no clock is read.
#[derive(Drop)]
pub struct TerminalPace<'a> {
    system: &'a System,
    is_terminal: bool,
    first: FirstLine,
}

// The first of the lines that wait.
#[derive(Clone, Copy)]
enum FirstLine {
    // None waits.
    None,
    // It has waited since then.
    Since(Instant),
    // It waits, and the clock failed when it began to.
    Untimed,
}

impl<'a> TerminalPace<'a> {
    /// The pace of lines on this system's standard output, of which none waits.
    pub fn new(system: &'a System) -> TerminalPace<'a> {
        TerminalPace {
            system,
            is_terminal: system.rt().stdout().is_terminal(),
            first: FirstLine::None,
        }
    }

    // A line that begins to wait now.
    fn begun(&self) -> FirstLine {
        match Instant::now(self.system.rt()) {
            Ok(now) => FirstLine::Since(now),
            Err(_) => FirstLine::Untimed,
        }
    }

    // Whether a line that has waited since then has waited long enough.
    fn is_over(&self, start: Instant) -> bool {
        match start.elapsed(self.system.rt()) {
            Ok(time) => time >= Duration::from_millis(MILLISECONDS_OF_WAITING),
            Err(_) => true,
        }
    }
}

impl Pace for TerminalPace<'_> {
    fn wait(&mut self) {
        if let FirstLine::None = self.first {
            if self.is_terminal {
                self.first = self.begun();
            }
        }
    }

    fn is_due(&mut self) -> bool {
        let is_due = match self.first {
            FirstLine::None => false,
            FirstLine::Since(start) => self.is_over(start),
            FirstLine::Untimed => true,
        };
        if is_due {
            self.first = FirstLine::None;
        }
        is_due
    }
}
