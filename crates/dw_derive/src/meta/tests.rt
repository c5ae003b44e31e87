use super::*;
use dw_base::Listed;
use std::test::Fail;

#[test]
fn cells_of_table_three(rt: HostRuntime) -> Result<(), Fail> {
    let alloc = rt.alloc();
    let commit = commit_cell(alloc, 258)?;
    assert!(rt; commit.table == 3);
    assert!(rt; commit.content.as_slice() == [0, 0, 0, 0, 0, 0, 1, 2].as_slice());
    let rule = FieldRule::of(Kind::Ipv4, true, false).ok_or("no rule")?;
    let field = field_cell(alloc, "A", rule)?;
    assert!(rt; field.content.as_slice() == [4, 1, 0].as_slice());
    let mut names = Listed::new(alloc);
    names.put(Text::of(alloc, "AB")?)?;
    names.put(Text::of(alloc, "S")?)?;
    let grant = grant_cell(alloc, "ann", names.as_slice())?;
    assert!(rt; grant.content.as_slice() == b"\0\x02AB\0\x01S".as_slice());
    Ok(())
}
