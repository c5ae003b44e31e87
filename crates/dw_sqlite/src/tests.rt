ghost use Rattle.std.specs.Prelude.{◌≡◌, ◌≤◌, All, IfOk};

use crate::SqlKeeper;
use crate::cause::cause_of;
use crate::sql_keeper::over;
use dw_key::Bytes;
use dw_outside::{Cell, Keeper, KeeperError, MemKeeper, Put};
use sqlite::{Alter, Connection, Error, FileStore, Files, Options, Wary};
use sqlite_disk::{Fuse, Memory};
use std::alloc::{AllocError, Global};
use std::fs::{self, Permissions};
use std::os::unix::fs::{MetadataExt, PermissionsExt};
use std::test::Fail;

fn put(alloc: Global, table: u8, key: &[u8], content: &[u8]) -> Result<Put, AllocError>
    ensures { IfOk result (λ p. p.table ≡ table) }
{
    let key = Bytes::of(alloc, key)?;
    let content = Bytes::of(alloc, content)?;
    Ok(Put {
        table,
        key,
        content,
    })
}

/// A number that is not easily foreseen, by a linear congruence.
fn any(seed: &mut u64) -> u8 {
    *seed = seed
        .wrapping_mul(6_364_136_223_846_793_005)
        .wrapping_add(1_442_695_040_888_963_407);
    (*seed >> 56) as u8
}

/// One of a few keys that lie close to one another.
fn any_key(seed: &mut u64) -> &'static [u8] {
    match any(seed) % 6 {
        0 => b"",
        1 => b"\0",
        2 => b"a",
        3 => b"a\0",
        4 => b"ab",
        _ => b"\xff",
    }
}

fn any_table(seed: &mut u64) -> u8
    ensures { result ≤ 3 }
{
    any(seed) % 4
}

fn any_put(alloc: Global, seed: &mut u64) -> Result<Put, AllocError>
    ensures { IfOk result (λ p. p.table ≤ 3) }
{
    let content = [any(seed)];
    put(alloc, any_table(seed), any_key(seed), &content)
}

fn are_same(these: &[Cell], those: &[Cell]) -> bool {
    these.len() == those.len()
        && these.iter().zip(those.iter()).all(|(one, other)| one.key == other.key
            && one.content == other.content)
}

/// Whether two keepers have the same cells in a span.
fn agree<K: Keeper>(
    memory: &mut MemKeeper,
    other: &mut K,
    table: u8,
    from: &[u8],
    before: &[u8],
    limit: u32,
) -> bool
    requires { table ≤ 3 }
{
    let these = memory.scan(table, from, before, limit);
    let those = other.scan(table, from, before, limit);
    match (these, those) {
        (Ok(these), Ok(those)) => are_same(these.as_slice(), those.as_slice()),
        _ => false,
    }
}

/// Sets two contents in two keepers, and says whether a span of both is the same.
fn turn<K: Keeper>(
    alloc: Global,
    memory: &mut MemKeeper,
    other: &mut K,
    seed: &mut u64,
) -> Result<bool, AllocError> {
    let puts = [any_put(alloc, seed)?, any_put(alloc, seed)?];
    Ok(
        memory.apply(&puts).is_ok()
            && other.apply(&puts).is_ok()
            && agree(
                memory,
                other,
                any_table(seed),
                any_key(seed),
                any_key(seed),
                (any(seed) % 4) as u32,
            ),
    )
}

/// Tells two keepers the same, and says whether they answer the same.
fn answer_alike<K: Keeper>(
    alloc: Global,
    memory: &mut MemKeeper,
    other: &mut K,
    seed: &mut u64,
) -> Result<bool, AllocError> {
    for _ in 0..20u8 {
        if !turn(alloc, memory, other, seed)? {
            return Ok(false);
        }
    }
    for table in 0..4u8 {
        if !agree(memory, other, table, b"", b"", 0) {
            return Ok(false);
        }
    }
    Ok(true)
}

#[test]
fn a_database_gives_the_cells_of_a_keeper_in_memory(rt: HostRuntime) -> Result<(), Fail> {
    let alloc = rt.alloc();
    let mut memory = MemKeeper::without_reads(alloc);
    let mut database = SqlKeeper::in_memory(alloc).ok().ok_or("no database")?;
    let mut seed = 2_024;
    assert!(rt; answer_alike(alloc, &mut memory, &mut database, &mut seed)?);
    Ok(())
}

fn refuses(rt: &HostRuntime, path: &str) -> bool {
    matches!(SqlKeeper::at(rt, path), Err(KeeperError::Failed))
}

#[test]
fn a_file_that_is_opened_again_gives_the_cells_of_a_keeper_in_memory(
    rt: HostRuntime,
) -> Result<(), Fail> {
    let alloc = rt.alloc();
    let _ = fs::remove_dir_all(&rt, "dw_sqlite_again");
    fs::create_dir(&rt, "dw_sqlite_again")?;
    let mut memory = MemKeeper::without_reads(alloc);
    let mut seed = 7;
    for _ in 0..3u8 {
        let mut database = SqlKeeper::at(&rt, "dw_sqlite_again/cells.db")
            .ok()
            .ok_or("no database")?;
        assert!(rt; answer_alike(alloc, &mut memory, &mut database, &mut seed)?);
        assert!(rt; refuses(&rt, "dw_sqlite_again/cells.db"), "a second opener");
    }
    fs::remove_dir_all(&rt, "dw_sqlite_again")?;
    Ok(())
}

/// Sets one key twice in one apply, and others of bytes that are no text.
fn fill<K: Keeper>(alloc: Global, keeper: &mut K) -> Result<(), KeeperError> {
    let puts = [
        put(alloc, 1, b"k", b"")?,
        put(alloc, 3, b"\xff\0", b"\x07")?,
        put(alloc, 1, b"k", b"v")?,
        put(alloc, 0, b"", b"")?,
    ];
    keeper.apply(&puts)
}

// checks/sqlite_files has other programs read the file that this leaves.
#[test]
fn a_file_is_left_for_other_programs(rt: HostRuntime) -> Result<(), Fail> {
    let _ = fs::remove_dir_all(&rt, "dw_sqlite_left");
    fs::create_dir(&rt, "dw_sqlite_left")?;
    let mut database = SqlKeeper::at(&rt, "dw_sqlite_left/cells.db")
        .ok()
        .ok_or("no database")?;
    assert_eq!(rt; fill(rt.alloc(), &mut database), Ok(()));
    Ok(())
}

fn run<S: Alter>(conn: &mut Connection<S>, text: &str) -> Result<(), Error> {
    conn.execute_batch(text)
}

/// A database of another program, which has a table of the same name.
fn make_other(rt: &HostRuntime, path: &str) -> Result<(), Error> {
    match Connection::open_from(rt, path, false, Wary) {
        Ok(mut conn) => run(
            &mut conn,
            "CREATE TABLE cell (number INTEGER, key BLOB, content BLOB)",
        ),
        Err((error, _)) => Err(error),
    }
}

/// A file that nobody may read or write. Root may, and then there is no such file.
fn make_locked(rt: &HostRuntime, path: &str) -> Result<bool, Fail> {
    fs::write(rt, path, b"".as_slice())?;
    fs::set_permissions(rt, path, Permissions::from_mode(0))?;
    Ok(fs::metadata(rt, path)?.uid() != 0)
}

#[test]
fn other_paths_are_refused(rt: HostRuntime) -> Result<(), Fail> {
    let _ = fs::remove_dir_all(&rt, "dw_sqlite_other");
    fs::create_dir(&rt, "dw_sqlite_other")?;
    assert!(rt; make_other(&rt, "dw_sqlite_other/other.db").is_ok());
    let is_locked = make_locked(&rt, "dw_sqlite_other/locked.db")?;
    fs::write(
        &rt,
        "dw_sqlite_other/text",
        b"no database, and longer than one".as_slice(),
    )?;
    for path in [
        "dw_sqlite_other/other.db",
        "dw_sqlite_other/text",
        "dw_sqlite_other",
        "dw_sqlite_other/none/a.db",
        "/proc/a.db",
        "/dev/full",
        "",
    ] {
        assert!(rt; refuses(&rt, path), "{path}");
    }
    assert!(rt; !is_locked || refuses(&rt, "dw_sqlite_other/locked.db"));
    let text = fs::read(&rt, "dw_sqlite_other/text")?;
    assert!(rt; text.as_slice() == b"no database, and longer than one".as_slice());
    fs::remove_dir_all(&rt, "dw_sqlite_other")?;
    Ok(())
}

/// A keeper over files in memory whose log fails after so many calls.
fn over_failing(
    alloc: Global,
    calls: u64,
) -> Result<SqlKeeper<FileStore<Fuse<Memory>>>, KeeperError> {
    let files = Files {
        log: Fuse::new(Memory::new(alloc), calls),
        db: Fuse::new(Memory::new(alloc), u64::MAX),
    };
    match Connection::open_files(alloc, files, Options::new(7)) {
        Ok(conn) => over(alloc, conn),
        Err((error, _)) => Err(cause_of(error)),
    }
}

/// Sets three keys in two tables until one is refused, and says how many were set, where those are what is
/// there.
fn kept<K: Keeper>(alloc: Global, keeper: &mut K) -> Result<Option<usize>, AllocError> {
    let mut set = 0usize;
    for key in 0..3u8 {
        let puts = [put(alloc, 0, &[key], b"v")?, put(alloc, 1, &[key], b"v")?];
        match keeper.apply(&puts) {
            Ok(()) => set = set.saturating_add(1),
            Err(KeeperError::Failed) => break,
            Err(KeeperError::OutOfMemory) => return Ok(None),
        }
    }
    let is_right = match keeper.scan(1, b"", b"", 0) {
        Ok(cells) => cells.len() == set,
        Err(error) => error == KeeperError::Failed,
    };
    Ok(if is_right { Some(set) } else { None })
}

/// How many keys are set where the log fails after so many calls, and the keeper has those alone.
fn set_before(alloc: Global, calls: u64) -> Result<Option<usize>, AllocError> {
    match over_failing(alloc, calls) {
        Ok(mut keeper) => kept(alloc, &mut keeper),
        Err(KeeperError::Failed) => Ok(Some(0)),
        Err(KeeperError::OutOfMemory) => Ok(None),
    }
}

#[test]
fn a_disk_that_fails_keeps_what_was_set(rt: HostRuntime) -> Result<(), Fail> {
    let mut most = 0usize;
    for calls in 0..40u64 {
        let set = set_before(rt.alloc(), calls.saturating_mul(3))?.ok_or("other cells")?;
        assert!(rt; set >= most, "{calls}");
        most = set;
        if most == 3 {
            return Ok(());
        }
    }
    Err("three keys were never set")?
}
