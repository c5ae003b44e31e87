use crate::{Desk, Reply, Settings};
use dw_base::{Listed, OutOfMemory};
use dw_event::MarkUid;
use dw_outside::MemKeeper;
use dw_pool::OpenGate;
use dw_wire::{read_line, write_reply};
use std::alloc::Global;
use std::test::Fail;
use std::thread::Threads;

/// A desk over tables in memory.
#[derive(Drop)]
struct Counter {
    desk: Desk,
    keeper: MemKeeper,
    settings: Settings,
}

fn settings(alloc: Global) -> Result<Settings, Fail> {
    let mut batches = Listed::new(alloc);
    batches.put(1)?;
    let settings = Settings::of(2, batches).ok_or("no settings")?;
    Ok(settings)
}

impl Counter {
    fn open(alloc: Global) -> Result<Counter, Fail> {
        let mut keeper = MemKeeper::new(alloc, Vec::new(alloc));
        let Ok(desk) = Desk::load(alloc, &mut keeper) else {
            return Err(Fail::from("no desk"));
        };
        Ok(Counter {
            desk,
            keeper,
            settings: settings(alloc)?,
        })
    }

    fn ask<R: Threads + Sync>(
        &mut self,
        rt: &R,
        alloc: Global,
        line: &[u8],
    ) -> Result<Reply, OutOfMemory> {
        let request = read_line(alloc, line)?;
        let reply = self.desk.answer(
            rt,
            alloc,
            &mut self.keeper,
            &MarkUid,
            &OpenGate,
            &self.settings,
            &request,
        );
        Ok(reply)
    }

    /// Whether the reply to a line has this text.
    fn says<R: Threads + Sync>(
        &mut self,
        rt: &R,
        alloc: Global,
        line: &[u8],
        text: &[u8],
    ) -> Result<bool, Fail> {
        let reply = self.ask(rt, alloc, line)?;
        let written = write_reply(alloc, &reply)?;
        Ok(written.as_slice() == text)
    }
}

const DEFINE: &[u8] =
    b"{\"op\":\"define\",\"field\":\"A\",\"kind\":\"NOOP\",\"indexed\":true,\"reversed\":false}";

const INGEST: &[u8] =
    b"{\"op\":\"ingest\",\"records\":[{\"type\":\"lab\",\"date\":\"20240101\",\"fields\":{\"A\":\"x\",\"ID\":\"0-1\"}},{\"type\":\"lab\",\"date\":\"20240101\",\"fields\":{\"A\":\"x\",\"B\":[\"2\",\"1\"],\"ID\":\"0-2\"}}]}";

const CREATE: &[u8] =
    b"{\"op\":\"create\",\"caller\":\"ann\",\"query\":\"A == 'x'\",\"from\":\"20240101\",\"to\":\"20240101\",\"size\":1}";

const PAGE: &[u8] = b"{\"op\":\"page\",\"caller\":\"ann\",\"number\":1,\"page\":1}";

const NEXT: &[u8] = b"{\"op\":\"page\",\"caller\":\"ann\",\"number\":1,\"page\":2}";

const TAKEN: &[u8] = b"{\"bad\":[],\"new\":2,\"ok\":\"ingest\",\"repeat\":0}\n";

const FAULT: &[u8] = b"{\"error\":\"storeFault\"}\n";

const FIRST: &[u8] =
    b"{\"events\":[{\"fields\":{\"A\":[\"x\"],\"ID\":[\"0-1\"]},\"shard\":\"20240101_0\",\"type\":\"lab\",\"uid\":\"0000000000000000000000000000000000000000000000000000000000000001\"}],\"more\":true,\"ok\":\"page\"}\n";

const SECOND: &[u8] =
    b"{\"events\":[{\"fields\":{\"A\":[\"x\"],\"B\":[\"1\",\"2\"],\"ID\":[\"0-2\"]},\"shard\":\"20240101_0\",\"type\":\"lab\",\"uid\":\"0000000000000000000000000000000000000000000000000000000000000002\"}],\"more\":false,\"ok\":\"page\"}\n";

#[test]
fn a_fault_of_the_store_is_a_reply(rt: HostRuntime) -> Result<(), Fail> {
    let alloc = rt.alloc();
    let mut counter = Counter::open(alloc)?;
    // What is asked, whether the next call of the keeper fails, and what is said.
    let script: [(&[u8], bool, &[u8]); 9] = [
        (DEFINE, false, b"{\"ok\":\"define\"}\n"),
        (INGEST, true, FAULT),
        (INGEST, false, TAKEN),
        (CREATE, false, b"{\"number\":1,\"ok\":\"create\"}\n"),
        (PAGE, true, FAULT),
        (PAGE, false, FIRST),
        (NEXT, true, FAULT),
        (NEXT, false, SECOND),
        (PAGE, false, FIRST),
    ];
    for (line, fails, text) in script {
        if fails {
            counter.keeper.fail_after(0);
        }
        assert!(rt; counter.says(&rt, alloc, line, text)?);
    }
    Ok(())
}

#[test]
fn a_desk_is_not_loaded_where_the_first_read_fails(rt: HostRuntime) -> Result<(), Fail> {
    let mut keeper = MemKeeper::new(rt.alloc(), vec![in rt.alloc(); 1u64]?);
    let loaded = Desk::load(rt.alloc(), &mut keeper);
    assert!(rt; matches!(loaded, Err(dw_outside::KeeperError::Failed)));
    Ok(())
}
