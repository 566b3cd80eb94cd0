//! Contents as an event keeps them.

use std::marker::Model;

/// The contents that a name was drawn for. A lawful log has them in rising order of their keys' bytes. Contracts see the
/// list of the pairs.
#[derive(Debug, Drop)]
pub struct Pairs<K, V> {
    items: Vec<(K, V)>,
}

impl<K, V> Model for Pairs<K, V> {
    ghost use Rattle.std.specs.Prelude.{List};

    ghost Value = { List (K × V) };

    ghost view = { λ p. p.items.items };
}

impl<K, V> Pairs<K, V> {
    ghost use Rattle.std.specs.Prelude.{◌≡◌};

    /// These pairs.
    pub fn new(items: Vec<(K, V)>) -> Pairs<K, V>
        ensures { result ≡ items.items }
    {
        Pairs { items }
    }

    /// The pairs.
    pub fn as_slice(&self) -> &[(K, V)]
        ensures { result.now ≡ self.now }
    {
        self.items.as_slice()
    }
}
