//! Lists that grow by as much as they hold.

ghost use Rattle.std.specs.Prelude.{◌≡◌, ◌*◌, ◌+◌, ◌<◌, ◌≤◌, ◌++◌, [], ◌∷◌, OnErr, OnOk, vec_len};
ghost use Rattle.std.specs.Vec.{vec_capacity};

use crate::NoMemory;

/// Makes room for one more. A full list takes room for as many more as it holds, and for one if it
/// is empty.
///
/// # Errors
///
/// It fails only if memory was refused to a full list.
pub fn reserve_thrifty<T: Drop>(list: &mut Vec<T>) -> Result<(), NoMemory>
    ensures items { list.new.items ≡ list.old.items }
    ensures count { vec_len list.new ≡ vec_len list.old }
    ensures for_one { OnOk result (vec_len list.new < vec_capacity list.new) }
    ensures memory { OnErr result (vec_capacity list.old ≤ vec_len list.old) }
    ensures refused { OnErr result (vec_capacity list.new ≡ vec_capacity list.old) }
    ensures capacity { vec_capacity list.old ≤ vec_capacity list.new }
    ensures room { vec_capacity list.old ≤ 2 * vec_len list.old + 1
        → vec_capacity list.new ≤ 2 * vec_len list.new + 1 }
{
    if list.len() == list.capacity() {
        list.reserve_exact(list.len().max(1))?;
    }
    Ok(())
}

/// Puts one more at the end of a list, which then has room for at most twice as many, if it had.
///
/// # Errors
///
/// It fails only if memory was refused to a full list, and then the list is as it was.
pub fn push_thrifty<T: Drop>(list: &mut Vec<T>, item: T) -> Result<(), NoMemory>
    ensures kept { OnOk result (list.new.items ≡ list.old.items ++ item ∷ []) }
    ensures count { OnOk result (vec_len list.new ≡ vec_len list.old + 1) }
    ensures same { OnErr result (list.new.items ≡ list.old.items) }
    ensures memory { OnErr result (vec_capacity list.old ≤ vec_len list.old) }
    ensures capacity { vec_capacity list.old ≤ vec_capacity list.new }
    ensures room { vec_capacity list.old ≤ 2 * vec_len list.old
        → vec_capacity list.new ≤ 2 * vec_len list.new }
{
    reserve_thrifty(list)?;
    list.push_reserved(item);
    Ok(())
}
