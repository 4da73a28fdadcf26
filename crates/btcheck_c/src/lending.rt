//! How a call has what a handle holds.

/// Lends what a handle holds to a call, if it is a thing of this kind, and puts it back. Else the
/// handle is as before, and the answer is what stands after `else`: that it is a wrong one.
macro_rules! lend {
    ($handle:ident, $alloc:ident, $kind:ident($lent:ident) => $call:expr) => {
        lend!($handle, $alloc, $kind($lent) => $call, else WRONG_HANDLE)
    };
    ($handle:ident, $alloc:ident, $kind:ident($lent:ident) => $call:expr, else $wrong:expr) => {{
        let Some(mut thing) = $handle.take($alloc) else {
            return $wrong;
        };
        match &mut thing.kind {
            Kind::$kind($lent) => {
                let answer = $call;
                $handle.put(thing);
                answer
            }
            _ => {
                $handle.put(thing);
                $wrong
            }
        }
    }};
}

pub(crate) use lend;
