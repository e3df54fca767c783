//! What the rows tell of the notes that they stand for. These functions do nothing; their contracts are laws, for every legal history.
ghost use Rattle.table_laws.specs.Laws.{RowsAnswer, RowsChange, RowsEnd, RowsKeepLimits};

/// The answer to a call by the rows is the machine's.
pub fn rows_answer()
    ensures { RowsAnswer }
{}

/// The notes of the answer change the rows as each of them says.
pub fn rows_change()
    ensures { RowsChange }
{}

/// Time takes out of the rows what it ends.
pub fn rows_end()
    ensures { RowsEnd }
{}

/// There are at most 65,536 rows of grants and 65,536 rows of live tokens, and a round has at most 4 wrong references.
pub fn rows_keep_limits()
    ensures { RowsKeepLimits }
{}
