// A table of limits: from 1 to 8 of them, each greater than the one before.
ghost use Rattle.rows.specs.Rows.{items_of};
ghost use Rattle.steps.specs.Limits.{IsTable};

use rows::Row;

mod table;

// The most limits that a table has.
pub const MAX_LIMITS: usize = 8;

// The greatest limit.
pub const MAX_LIMIT: u64 = 8_796_093_022_207;

// Limits that make a table.
#[derive(Clone, Copy)]
pub struct Limits {
    limits: Row<u64, MAX_LIMITS>,
    ghost table: { IsTable (items_of limits) },
}
