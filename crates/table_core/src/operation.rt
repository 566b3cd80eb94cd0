//! What a caller asks of the map.

/// One operation of the map. Each answers the value that its key had before it, or none.
#[derive(Debug, Drop)]
pub enum Operation<K, V> {
    /// Sets the key to the value.
    Put(K, V),
    /// Changes nothing.
    Get(K),
    /// Takes the key out.
    Remove(K),
    /// Sets the key to the last value where the key's value is the expected one (none is none).
    PutIf(K, Option<V>, V),
}
