//! What a caller does to a bucket, or finds unchanged.

/// What an install does to the contents of a bucket. Keys and values are lent.
#[derive(Drop)]
pub enum Change<'a, K, V> {
    /// Sets the key to the value.
    Put(&'a K, &'a V),
    /// Takes the key out.
    Remove(&'a K),
    /// Sets the key to the last value where its value is the expected one; none is none.
    PutIf(&'a K, Option<&'a V>, &'a V),
    /// Leaves the contents: they go to another place.
    Move,
}

/// A call that leaves the contents of its bucket.
#[derive(Drop)]
pub enum Probe<'a, K, V> {
    /// Answers the key's value.
    Get(&'a K),
    /// Takes out a key that isn't there.
    Remove(&'a K),
    /// Sets the key where its value is the expected one, which it isn't.
    PutIf(&'a K, Option<&'a V>, &'a V),
}
