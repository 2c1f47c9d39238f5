// Rows in parts.
ghost use Rattle.std.specs.Prelude.{◌≡◌};
ghost use Rattle.cad_accounts.specs.Memory.{rows_in_blocks};
ghost use Rattle.cad_worlds.specs.RowLists.{rows_listed};

use cad_accounts::{Block, Row};

/// Rows one behind another: some, and those of the blocks behind them.
#[derive(Clone, Copy)]
pub struct RowList<'r> {
    pub rows: &'r [Row],
    pub blocks: &'r [Block],
}

impl<'r> RowList<'r> {
    /// Rows that stand in one place.
    pub fn of_rows(rows: &'r [Row]) -> RowList<'r>
        ensures { rows_listed result ≡ rows.now }
    {
        RowList { rows, blocks: &[] }
    }

    /// The rows of blocks.
    pub fn of_blocks(blocks: &'r [Block]) -> RowList<'r>
        ensures { rows_listed result ≡ rows_in_blocks blocks.now }
    {
        RowList { rows: &[], blocks }
    }
}
