ghost use Rattle.std.specs.Prelude.{◌≡◌, ◌≢◌, ◌≤◌, None, All, IsTrue, IfOk, Err, vec_len, map as list_map};
ghost use Rattle.std.specs.Ordering.{nat_cmp};
ghost use Rattle.std.specs.Cmp.Lexicographic.{slice_cmp};
ghost use Rattle.std.specs.List.Sorted.{IsStrictlySortedBy};
ghost use Rattle.dw_outside.specs.Tables.{is_in_span};
ghost use Rattle.dw_outside.specs.Faults.{Rose};

use crate::cause::cause_of;
use crate::table::open_table;
use crate::within::checked_cells;
use crate::writing::put_all;
use dw_outside::{Cell, Keeper, KeeperError, Put};
use sqlite::{Alter, Connection, FileFrom, FileStore, MemStore, Row, Statement, Wary, params};
use std::alloc::Global;
use std::marker::Model;

const SET: &str =
    "INSERT INTO cell (number, key, content) VALUES (?1, ?2, ?3) ON CONFLICT (number, key) DO UPDATE SET content = excluded.content";

const FROM: &str =
    "SELECT key, content FROM cell WHERE number = ?1 AND key >= ?2 ORDER BY key LIMIT ?3";

const BETWEEN: &str =
    "SELECT key, content FROM cell WHERE number = ?1 AND key >= ?2 AND key < ?3 ORDER BY key LIMIT ?4";

/// A keeper over a database, which tells no tables. Contracts see the count of its faults: each refusal of
/// the database but want of memory, and each answer of it that is none to the scan.
#[derive(Drop)]
pub struct SqlKeeper<S: Alter + Drop> {
    alloc: Global,
    conn: Connection<S>,
    statements: Statements,
    faults: u64,
}

impl<S: Alter + Drop> Model for SqlKeeper<S> {
    ghost use Rattle.std.specs.Prelude.{ℕ};

    ghost Value = { ℕ };

    ghost view = { λ k. k.faults };
}

/// What is prepared for the keeper's life.
#[derive(Drop)]
struct Statements {
    set: Statement,
    from: Statement,
    between: Statement,
}

impl SqlKeeper<MemStore> {
    /// Over an empty database in memory.
    pub fn in_memory(alloc: Global) -> Result<SqlKeeper<MemStore>, KeeperError>
        ensures { IfOk result (λ k. k ≡ 0) }
    {
        let conn = Connection::open_in_memory(alloc)?;
        over(alloc, conn)
    }
}

impl SqlKeeper<FileStore<FileFrom<Wary>>> {
    /// Over the database in a file, which is made where there is none. A file that is no database of this
    /// keeper's, or that another has open, is refused.
    pub fn at(
        rt: &HostRuntime,
        path: &str,
    ) -> Result<SqlKeeper<FileStore<FileFrom<Wary>>>, KeeperError>
        ensures { IfOk result (λ k. k ≡ 0) }
    {
        match Connection::open_from(rt, path, false, Wary) {
            Ok(conn) => over(rt.alloc(), conn),
            Err((error, _)) => Err(cause_of(error)),
        }
    }
}

pub(crate) fn over<S: Alter + Drop>(
    alloc: Global,
    mut conn: Connection<S>,
) -> Result<SqlKeeper<S>, KeeperError>
    ensures { IfOk result (λ k. k ≡ 0) }
{
    open_table(&mut conn)?;
    let statements = prepared(&mut conn)?;
    Ok(SqlKeeper {
        alloc,
        conn,
        statements,
        faults: 0,
    })
}

fn prepared<S: Alter>(conn: &mut Connection<S>) -> Result<Statements, KeeperError> {
    Ok(Statements {
        set: conn.prepare(SET).map_err(cause_of)?,
        from: conn.prepare(FROM).map_err(cause_of)?,
        between: conn.prepare(BETWEEN).map_err(cause_of)?,
    })
}

/// The rows of a span, as the database answers. A limit of 0 is none.
fn rows_of<S: Alter>(
    conn: &mut Connection<S>,
    statements: &Statements,
    table: u8,
    from: &[u8],
    before: &[u8],
    limit: u32,
) -> Result<Vec<Row>, KeeperError> {
    let most = if limit == 0 { -1 } else { limit as i64 };
    let rows = if before.is_empty() {
        statements
            .from
            .query_all(conn, params![table as i64, from, most])
    } else {
        statements
            .between
            .query_all(conn, params![table as i64, from, before, most])
    };
    rows.map_err(cause_of)
}

impl<S: Alter + Drop> SqlKeeper<S> {
    fn read(
        &mut self,
        table: u8,
        from: &[u8],
        before: &[u8],
        limit: u32,
    ) -> Result<Vec<Cell>, KeeperError>
        ensures ascending { IfOk result (λ cells. IsStrictlySortedBy (slice_cmp nat_cmp) (list_map (λ c. c.key) cells.items)) }
        ensures bounds { IfOk result (λ cells. All (λ c. IsTrue (is_in_span from.now before.now c.key)) cells.items) }
        ensures few { IfOk result (λ cells. limit ≢ 0 → vec_len cells ≤ limit) }
        ensures faults { self.new ≡ self.old }
    {
        let rows = rows_of(&mut self.conn, &self.statements, table, from, before, limit)?;
        checked_cells(self.alloc, rows.as_slice(), from, before, limit)
    }

    /// Counts a failure.
    fn counted(&mut self, error: KeeperError) -> KeeperError
        ensures same { result ≡ error }
        ensures later { self.old ≤ self.new }
        ensures failed { error ≡ KeeperError.Failed → Rose self.old self.new }
    {
        if error == KeeperError::Failed {
            self.faults = self.faults.saturating_add(1);
        }
        error
    }
}

impl<S: Alter + Drop> Keeper for SqlKeeper<S> {
    ghost told = { λ _. None };

    ghost reads = { λ _. None };

    ghost faults = { λ k. k };

    fn apply(&mut self, puts: &[Put]) -> Result<(), KeeperError> {
        match put_all(&mut self.conn, &self.statements.set, puts) {
            Ok(()) => Ok(()),
            Err(error) => Err(self.counted(cause_of(error))),
        }
    }

    fn scan(
        &mut self,
        table: u8,
        from: &[u8],
        before: &[u8],
        limit: u32,
    ) -> Result<Vec<Cell>, KeeperError> {
        match self.read(table, from, before, limit) {
            Ok(cells) => Ok(cells),
            Err(error) => Err(self.counted(error)),
        }
    }
}
