ghost use Rattle.std.specs.Prelude.{◌≡◌, IsTrue, OnOk, OnErr};
ghost use Rattle.sqlite.specs.State.{HasCleanDisk, KeepsCommit, Survives};
ghost use Rattle.sqlite.specs.Held.{state};
ghost use Rattle.dw_sqlite.specs.Ran.{Makes, Ran, RanAll};

use dw_outside::Put;
use sqlite::{Alter, Connection, Error, ErrorCode, Statement, Transaction, params};

/// Sets one content within a transaction.
fn set_one<S: Alter>(tx: &mut Transaction<'_, S>, set: &Statement, put: &Put) -> Result<(), Error>
    ensures same_reference { tx.new.conn.ghost_name ≡ tx.old.conn.ghost_name }
    ensures kept { HasCleanDisk (state S.Store tx.new.conn.now) → KeepsCommit (state S.Store tx.old.conn.now) (state S.Store tx.new.conn.now) }
    ensures inside { HasCleanDisk (state S.Store tx.new.conn.now) → IsTrue tx.old.conn.now.in_transaction → OnOk result (IsTrue tx.new.conn.now.in_transaction) }
    ensures ran { HasCleanDisk (state S.Store tx.new.conn.now) → IsTrue tx.old.conn.now.in_transaction → OnOk result (Ran S.Store set.now.text put.now tx.old.conn.now tx.new.conn.now) }
    ensures survives { Survives (state S.Store tx.old.conn.now) (state S.Store tx.new.conn.now) (λ _. ⊥) }
{
    tx.execute_prepared(
        set,
        params![put.table as i64, put.key.as_slice(), put.content.as_slice()],
    )?;
    Ok(())
}

/// Sets contents within a transaction, up to the first that is refused.
#[tactic(auto, using(crate::proofs::Undone::kept_itself, crate::proofs::Undone::survives_itself, crate::proofs::Undone::survives_next, crate::proofs::Undone::kept_next, crate::proofs::Undone::inside_next))]
fn set_all<S: Alter>(
    tx: &mut Transaction<'_, S>,
    set: &Statement,
    puts: &[Put],
) -> Result<(), Error>
    ensures same_reference { tx.new.conn.ghost_name ≡ tx.old.conn.ghost_name }
    ensures kept { HasCleanDisk (state S.Store tx.new.conn.now) → KeepsCommit (state S.Store tx.old.conn.now) (state S.Store tx.new.conn.now) }
    ensures inside { HasCleanDisk (state S.Store tx.new.conn.now) → IsTrue tx.old.conn.now.in_transaction → OnOk result (IsTrue tx.new.conn.now.in_transaction) }
    ensures ran { HasCleanDisk (state S.Store tx.new.conn.now) → IsTrue tx.old.conn.now.in_transaction → OnOk result (RanAll S.Store set.now.text puts.now tx.old.conn.now tx.new.conn.now) }
    ensures survives { Survives (state S.Store tx.old.conn.now) (state S.Store tx.new.conn.now) (λ _. ⊥) }
{
    for put in puts {
        set_one(tx, set, put)?;
    }
    Ok(())
}

/// Sets all contents, or none: in one transaction, which is rolled back where it is dropped.
pub fn put_all<S: Alter>(
    conn: &mut Connection<S>,
    set: &Statement,
    puts: &[Put],
) -> Result<(), Error>
    ensures all { HasCleanDisk (state S.Store conn.new) → OnOk result (Makes S.Store set.now.text puts.now conn.old (state S.Store conn.new).committed) }
    ensures neither { HasCleanDisk (state S.Store conn.new) → IsTrue (state S.Store conn.new).is_open
        → OnErr result (((state S.Store conn.new).now ≡ (state S.Store conn.old).now) × ((state S.Store conn.new).committed ≡ (state S.Store conn.old).committed)) }
{
    if !conn.is_autocommit() {
        return Err(Error::SqliteFailure(ErrorCode::TransactionState));
    }
    let mut tx = conn.transaction();
    set_all(&mut tx, set, puts)?;
    tx.commit()
}
