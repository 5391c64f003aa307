//! Room in the lists of a leaf or a level, which grow to what a full one holds and no further.

ghost use Rattle.std.specs.Prelude.{◌≡◌, ◌+◌, ◌≤◌, [], ◌∷◌, ◌++◌, OnOk, vec_len, vec_capacity};
ghost use Rattle.pmf_runs.specs.Ranks.{with_two};

use std::alloc::AllocError;

/// How many elements the lists of a full leaf or level have at most.
const MOST: usize = 64;

/// How many elements a list has before it is given the room of a full one at once.
const FEW: usize = 4;

/// Makes room for so many more. A list of a few elements has next the room of a full one: most lists come to be full,
/// those of rising keys each from its first few on, and one that was split has just as much room as it has elements.
pub(crate) fn make_room<T>(list: &mut Vec<T>, more: usize) -> Result<(), AllocError>
    ensures items { list.new.items ≡ list.old.items }
    ensures len { vec_len list.new ≡ vec_len list.old }
    ensures ok { OnOk result (vec_len list.new + more ≤ vec_capacity list.new) }
{
    let len = list.len();
    if FEW <= len && len < MOST && more <= MOST - len {
        list.reserve_exact(MOST - len)
    } else {
        list.reserve(more)
    }
}

/// Puts in two elements at an index, for which there is room. Those from there on are moved once.
#[tactic(auto, using(crate::proofs::RunRules::two_put))]
pub(crate) fn put_two<T: Copy + Drop>(list: &mut Vec<T>, index: usize, one: T, two: T)
    requires within { index ≤ vec_len list.old }
    requires room { vec_len list.old + 2 ≤ vec_capacity list.old }
    ensures items { list.new.items ≡ with_two list.old.items index one two }
    ensures len { vec_len list.new ≡ vec_len list.old + 2 }
{
    let len = list.len();
    push(list, one);
    push(list, two);
    list.copy_within(index..len, index + 2);
    list[index] = one;
    list[index + 1] = two;
}

/// Appends an element for which there is room.
fn push<T: Drop>(list: &mut Vec<T>, element: T)
    requires { vec_len list.old + 1 ≤ vec_capacity list.old }
    ensures items { list.new.items ≡ list.old.items ++ (element ∷ []) }
    ensures len { vec_len list.new ≡ vec_len list.old + 1 }
    ensures room { vec_capacity list.old ≤ vec_capacity list.new }
{
    match list.push(element) {
        Ok(()) => {}
        Err(_) => unreachable!(),
    }
}
