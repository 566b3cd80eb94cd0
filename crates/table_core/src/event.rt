//! What the log of a table says: one event for each atomic step that succeeded.

use crate::operation::Operation;
use crate::pairs::Pairs;

/// One atomic step.
#[derive(Debug, Drop)]
pub enum Event<K, V> {
    /// A pass was drawn.
    Enter(u32),
    /// A name was drawn for a bucket and these contents.
    Named(u64, u32, Pairs<K, V>),
    /// A pass's operation was done, and the word was installed in its key's bucket, or nothing.
    Done(u32, Operation<K, V>, Option<u64>),
    /// A word was installed in a bucket without a change of its contents.
    Moved(u32, u64),
}
