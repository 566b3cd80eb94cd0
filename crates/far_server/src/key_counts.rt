//! How many keys each database has, as its worker or the sweep counts them. No contract claims anything about it.

use far_object::Text;
use stored_keys::database_of;

/// The most databases.
pub(crate) const DATABASES: usize = 256;

/// The keys that were added to each database, without those that were removed. Workers count for themselves, so a
/// count of one worker may be below zero: it wraps then. The sum over all workers is right.
#[derive(Drop)]
pub(crate) struct KeyCounts {
    numbers: [u64; DATABASES],
    /// The databases whose counts have changed since they were last published: from `first` on, below `end`.
    first: usize,
    end: usize,
}

impl KeyCounts {
    /// All are 0.
    pub(crate) fn new() -> KeyCounts {
        KeyCounts {
            numbers: [0; DATABASES],
            first: DATABASES,
            end: 0,
        }
    }

    /// Adds to the count of the database of a stored key.
    fn add(&mut self, key: &Text, more: u64) {
        let Some(database) = database_of(key.as_bytes()) else {
            return;
        };
        let at = database as usize;
        self.numbers[at] = self.numbers[at].wrapping_add(more);
        self.first = self.first.min(at);
        self.end = self.end.max(at + 1);
    }

    /// A key was added.
    pub(crate) fn count_added(&mut self, key: &Text) {
        self.add(key, 1);
    }

    /// A key was removed.
    pub(crate) fn count_removed(&mut self, key: &Text) {
        self.add(key, u64::MAX);
    }

    /// Sets a count that was published earlier.
    pub(crate) fn set(&mut self, database: usize, number: u64) {
        if let Some(count) = self.numbers.get_mut(database) {
            *count = number;
        }
    }

    /// The counts of the databases in order.
    pub(crate) fn numbers(&self) -> &[u64] {
        self.numbers.as_slice()
    }

    /// The databases whose counts have changed since the last call.
    pub(crate) fn take_changed(&mut self) -> (usize, usize) {
        let changed = (self.first, self.end);
        self.first = DATABASES;
        self.end = 0;
        changed
    }
}
