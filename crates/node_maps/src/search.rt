//! Rising numbers, and items that stand beside them.

ghost use Rattle.std.specs.Prelude.{◌≡◌, ◌+◌, ◌<◌, ◌≤◌, IfOk, IfErr, OnOk, vec_len, vec_capacity};
ghost use Rattle.std.specs.List.{insert};
ghost use Rattle.node_maps.specs.Rising.{AreNumbersRising, IsNumberAt, IsGapFor};

use hashtree::NoMemory;

/// Where the number stands, or where it would go. The place of the last write and the end are
/// looked at first, since most work is there. Condition: the numbers ascend.
pub(crate) fn search(numbers: &[u64], last: usize, number: u64) -> Result<usize, usize>
    requires { AreNumbersRising numbers.now }
    ensures at { IfOk result (IsNumberAt numbers.now number) }
    ensures gap { IfErr result (IsGapFor numbers.now number) }
{
    let len = numbers.len();
    if last < len && numbers[last] == number {
        return Ok(last);
    }
    if len == 0 || numbers[len - 1] < number {
        return Err(len);
    }
    numbers.binary_search(&number)
}

/// Makes room for one number and one item more.
pub(crate) fn make_room<T: Drop>(numbers: &mut Vec<u64>, items: &mut Vec<T>) -> Result<(), NoMemory>
    ensures numbers { numbers.new.items ≡ numbers.old.items }
    ensures items { items.new.items ≡ items.old.items }
    ensures one { OnOk result ((vec_len numbers.new < vec_capacity numbers.new)
        × (vec_len items.new < vec_capacity items.new)) }
{
    numbers.reserve_exact(1)?;
    items.reserve_exact(1)
}

/// Puts an item at a place of a list that has room for it.
pub(crate) fn insert_reserved<T: Drop>(items: &mut Vec<T>, at: usize, item: T)
    requires within { at ≤ vec_len items.old }
    requires room { vec_len items.old < vec_capacity items.old }
    ensures items { items.new.items ≡ insert items.old.items at item }
    ensures len { vec_len items.new ≡ vec_len items.old + 1 }
{
    let _ = items.insert(at, item);
}
