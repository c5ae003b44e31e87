//! The records of the three forms on their happy paths, and the limits on how many they are.
use crate::{BadRecord, Records, read_batch, read_json, read_table, read_text};
use std::alloc::Global;
use std::test::Fail;

/// The rule that each record breaks, and None where it was read.
fn rules(alloc: Global, records: &Records) -> Result<Vec<Option<BadRecord>>, Fail> {
    let mut rules = Vec::new(alloc);
    for rec in records.as_slice() {
        let rule = match rec {
            Ok(_) => None,
            Err(rule) => Some(*rule),
        };
        rules.push(rule)?;
    }
    Ok(rules)
}

#[test]
fn records_come_in_three_forms(rt: HostRuntime) -> Result<(), Fail> {
    let alloc = rt.alloc();
    let good = r#"{"type":"lab","date":"20240301","fields":{"n":1}}"#;
    assert!(rt; read_text(alloc, good.as_bytes())?.is_ok());
    assert!(rt; read_text(alloc, b"")?.err() == Some(BadRecord::Shape));
    assert!(rt; read_text(alloc, b"[")?.err() == Some(BadRecord::Shape));
    let list = read_json(
        alloc,
        br#"[{"type":"fi","date":"20240301","fields":{"n":1}},1.5]"#,
    )?;
    let Some(list) = list else {
        return Err(Fail::from("no list"));
    };
    let Some(items) = list.as_array() else {
        return Err(Fail::from("no list"));
    };
    let Some(batch) = read_batch(alloc, items.as_slice())? else {
        return Err(Fail::from("too many"));
    };
    assert!(rt;
        rules(alloc, &batch)?.as_slice()
            == [Some(BadRecord::Dtype), Some(BadRecord::Shape)].as_slice()
    );
    let text = b"@type,@date,name\nlab,2024-03-01,x\nlab,2024-02-30,x\nlab\n";
    let Some(table) = read_table(alloc, text)? else {
        return Err(Fail::from("too many"));
    };
    assert!(rt;
        rules(alloc, &table)?.as_slice()
            == [None, Some(BadRecord::Date), Some(BadRecord::Shape)].as_slice()
    );
    Ok(())
}
