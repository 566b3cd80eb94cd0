//! The name of a queue in types.

use std::marker::Brand;

/// Which queue it is, as proofs name it. Types carry it, so that what a seat of one queue knows is never taken for
/// another's. Each call of a program picks it, once the queue is there.
pub trait QueueNaming {
    ghost use Rattle.atomic_table.specs.Seated.{TableId};

    ghost table: { TableId };
}

impl QueueNaming for Brand {
    ghost use Rattle.swapper.specs.Namings.{no_table};

    ghost table = { no_table };
}
