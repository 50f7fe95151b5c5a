//! What names a service.
use std::marker::Brand;

/// Names one service: its words, what it began with, and its sessions. No value of it is made.
pub trait Naming {
    ghost use Rattle.std.specs.Prelude.{ℕ, List};
    ghost use Rattle.atomic_table.specs.Seated.{TableId};
    ghost use Rattle.cat_threads.specs.sharing.Grounds.{Ground};

    /// Its words.
    ghost table: { TableId };

    /// What it began with: the fields, the rows of the table, and the number of writes.
    ghost from: { Ground };

    /// Its sessions, the last one first.
    ghost sessions: { List ℕ };
}

impl Naming for Brand {
    ghost use Rattle.std.specs.Prelude.{[]};
    ghost use Rattle.cat_threads.specs.history.Rules.{no_table};

    ghost table = { no_table };

    ghost from = { record { start = record { schema = []; rows = []; token = 0 } } };

    ghost sessions = { [] };
}
