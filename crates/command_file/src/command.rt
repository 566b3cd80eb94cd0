//! What a line may say.

use far_object::Text;

/// A command.
#[derive(Drop)]
pub enum Command {
    /// Asks the map of texts.
    Map(MapCommand),
    /// Asks the table that keeps the map, and leaves the map as it is.
    Table(TableCommand),
}

/// A command on a map of texts.
#[derive(Drop)]
pub enum MapCommand {
    Put {
        key: Text,
        value: Text,
    },
    Get {
        key: Text,
    },
    Delete {
        key: Text,
    },
    /// A put for a key that has the expected value.
    PutIf {
        key: Text,
        expected: Text,
        value: Text,
    },
    /// A put for a key that has no value.
    PutNew {
        key: Text,
        value: Text,
    },
    /// A get whose value stays readable until it is released.
    Hold {
        key: Text,
    },
}

/// A command on the table that keeps a map.
#[derive(Drop)]
pub enum TableCommand {
    /// The value that is held.
    Show,
    /// The end of the hold.
    Release,
    /// One swap-out of a frame's object.
    Evict,
    /// Where the object of the key's bucket lies.
    Where { key: Text },
}
