//! The name of a row in types.

use std::marker::Brand;

/// Which row it is and how it was opened: its log and its boards, as proofs name them, and its limits. Types carry it, so
/// that what a pass, a name or a mark of one row tells is never taken for another row's. Each call of a program picks it,
/// once the row is there.
pub trait Naming {
    ghost use Rattle.logbook.specs.Pages.{Book};
    ghost use Rattle.std.specs.Prelude.{List, ℕ};
    ghost use Rattle.table_core.specs.declared.limits.Limits.{Limits};

    ghost book: { Book };

    ghost names: { List ℕ };

    ghost limits: { Limits };
}

impl Naming for Brand {
    ghost use Rattle.std.specs.Prelude.{[], true};

    ghost book = { record { number = 0; log_name = 0; cells_name = 0 } };

    ghost names = { [] };

    ghost limits = { record { buckets = 1; names = 1; passes = 1; honest = true } };
}
