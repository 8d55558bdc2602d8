//! Room in lists that may become long.

ghost use Rattle.std.specs.Prelude.{◌≡◌, ◌≤◌, ◌+◌, OnOk, vec_capacity, vec_len};

use std::alloc::AllocError;

/// Makes room in the list for so many more, and for a quarter of what it has where that is more: a list that doubled
/// would take twice its memory at its worst.
pub(crate) fn widen<T: Drop>(list: &mut Vec<T>, count: usize) -> Result<(), AllocError>
    ensures same { list.new.items ≡ list.old.items }
    ensures len { vec_len list.new ≡ vec_len list.old }
    ensures room { OnOk result (vec_len list.new + count ≤ vec_capacity list.new) }
{
    if count <= list.capacity() - list.len() {
        return Ok(());
    }
    list.reserve_exact(count.max(list.len() / 4))
}
