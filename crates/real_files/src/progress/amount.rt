//! Bytes and times, as a reader takes them in at a glance.
use std::fmt;

const UNITS: [&str; 6] = ["KiB", "MiB", "GiB", "TiB", "PiB", "EiB"];

/// A number of bytes, in the largest unit of which there is one, with one decimal, cut off.
#[derive(Drop)]
pub struct Amount(pub u64);

impl fmt::Display for Amount {
    fn fmt<W: fmt::Write>(&self, f: &mut fmt::Formatter<W>) -> fmt::Result {
        let Scaled {
            whole,
            tenths,
            unit,
        } = in_unit(self.0);
        match unit {
            None => write!(f, "{whole} B"),
            Some(unit) => write!(f, "{whole}.{tenths} {unit}"),
        }
    }
}

// A number of bytes in its unit, bytes if none is given.
#[derive(Clone, Copy)]
struct Scaled {
    whole: u64,
    tenths: u64,
    unit: Option<&'static str>,
}

fn in_unit(bytes: u64) -> Scaled {
    let mut scaled = Scaled {
        whole: bytes,
        tenths: 0,
        unit: None,
    };
    'units: for larger in UNITS {
        if scaled.whole < 1024 {
            break;
        }
        scaled = Scaled {
            whole: scaled.whole / 1024,
            tenths: scaled.whole % 1024 * 10 / 1024,
            unit: Some(larger),
        };
    }
    scaled
}

/// A number of seconds, as hours, minutes and seconds.
#[derive(Drop)]
pub(crate) struct Elapsed(pub(crate) u64);

impl fmt::Display for Elapsed {
    fn fmt<W: fmt::Write>(&self, f: &mut fmt::Formatter<W>) -> fmt::Result {
        let (minutes, seconds) = (self.0 / 60, self.0 % 60);
        if minutes < 60 {
            return write!(f, "{minutes}:{seconds:02}");
        }
        write!(f, "{}:{:02}:{seconds:02}", minutes / 60, minutes % 60)
    }
}
