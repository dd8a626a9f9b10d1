//! Names of tables.
use std::marker::Brand;

/// Names one table. A call picks it, with `Brand`, for a `Ground` that it just made.
pub trait Name {
    ghost use Rattle.atomic_table.specs.Seated.{TableId};

    /// The table that is named.
    ghost table: { TableId };
}

impl Name for Brand {
    ghost use Rattle.deed_table.specs.Name.{no_table};

    ghost table = { no_table };
}
