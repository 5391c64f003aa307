//! What the shadow keeps of one byte.

ghost use Rattle.std.specs.Prelude.{◌≡◌};
ghost use Rattle.pmf_shadow.specs.States.{checked_store, is_late, is_unsettled, stored_of, written_back_of};

mod asking;
mod bounds;
mod changes;

pub(crate) use self::asking::{
    ComesAfter, Fails, HasOneBy, HasOther, IsChecked, IsIncluded, IsLate, IsOutstanding, IsPending,
    IsStored, IsUndurable, IsUnwritten, Opening, OpensIn, Place, StoredBy,
};
pub use self::bounds::Bounds;
pub(crate) use self::changes::{Marked, StoredAt, WrittenBackIn};

/// The last store of a byte, and the first write-back of its line after it.
#[derive(Clone, Copy, Debug, PartialEq, Eq)]
pub struct Stored {
    /// The place of the store.
    pub last: u32,
    /// Its epoch.
    pub opens: u32,
    /// The epoch of the first write-back of the byte's line after it.
    pub written_back: Option<u32>,
}

/// What is kept of a byte, in few bytes. A number that tells nothing is 0.
#[derive(Clone, Copy, Debug, PartialEq, Eq)]
pub struct ByteState {
    /// The place of the last store, where there is one.
    pub last: u32,
    /// Its epoch.
    pub opens: u32,
    /// The epoch of the first write-back of the byte's line after it, where there is one.
    pub written_back: u32,
    /// Whether there is a store.
    pub is_stored: bool,
    /// Whether a write-back follows the last one.
    pub is_written_back: bool,
    /// Whether the byte is out of the checks.
    pub excluded: bool,
}

/// The state of a byte that no event has touched.
pub(crate) const UNTOUCHED: ByteState = ByteState {
    last: 0,
    opens: 0,
    written_back: 0,
    is_stored: false,
    is_written_back: false,
    excluded: false,
};

impl ByteState {
    /// The last store of the byte, where there is one.
    pub fn stored(self) -> Option<Stored>
        ensures { result ≡ stored_of self }
    {
        if self.is_stored {
            Some(Stored {
                last: self.last,
                opens: self.opens,
                written_back: self.first_write_back(),
            })
        } else {
            None
        }
    }

    /// The last store of the byte, if it is checked.
    pub(crate) fn checked(self) -> Option<Stored>
        ensures { result ≡ checked_store self }
    {
        if self.excluded { None } else { self.stored() }
    }

    fn first_write_back(self) -> Option<u32>
        ensures { result ≡ written_back_of self }
    {
        if self.is_written_back {
            Some(self.written_back)
        } else {
            None
        }
    }

    fn lacks_write_back(self) -> bool
        ensures { result ≡ is_unsettled self }
    {
        self.is_stored && !self.is_written_back
    }
}

fn is_late(epoch: u32, written_back: Option<u32>) -> bool
    ensures { result ≡ is_late epoch written_back }
{
    match written_back {
        None => true,
        Some(then) => epoch <= then,
    }
}
