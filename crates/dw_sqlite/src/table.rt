use crate::cause::cause_of;
use dw_outside::KeeperError;
use sqlite::{Alter, Connection, Row};

/// The one table: the content of each cell by the number of its table and its key.
const CELLS: &str =
    "CREATE TABLE cell (number INTEGER NOT NULL, key BLOB NOT NULL, content BLOB NOT NULL, PRIMARY KEY (number, key)) STRICT";

const FIND: &str = "SELECT sql FROM sqlite_schema WHERE name = 'cell'";

/// Makes the table where nothing has its name, and refuses what was not made by the same text.
pub fn open_table<S: Alter>(conn: &mut Connection<S>) -> Result<(), KeeperError> {
    let found = conn.query_all(FIND, &[]).map_err(cause_of)?;
    match found.as_slice() {
        [] => conn.execute_batch(CELLS).map_err(cause_of),
        [row] if is_ours(row)? => Ok(()),
        _ => Err(KeeperError::Failed),
    }
}

fn is_ours(row: &Row) -> Result<bool, KeeperError> {
    let text: String = row.get(0).map_err(cause_of)?;
    Ok(text.as_str() == CELLS)
}
