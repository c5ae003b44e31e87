use super::*;
use dw_norm::Kind;
use std::test::Fail;

fn rule(kind: Kind, indexed: bool, reversed: bool) -> Result<FieldRule, Fail> {
    Ok(FieldRule::of(kind, indexed, reversed).ok_or("no rule")?)
}

#[test]
fn fields_have_the_rule_that_was_set_last(rt: HostRuntime) -> Result<(), Fail> {
    let mut dict = Dict::new(rt.alloc());
    dict.define("LEVEL", rule(Kind::Text, false, false)?)?;
    dict.define("COLOR", rule(Kind::Text, true, true)?)?;
    let before = dict.copy()?;
    dict.define("LEVEL", rule(Kind::Number, true, false)?)?;
    for (field, now, then) in [
        (
            "LEVEL",
            rule(Kind::Number, true, false)?,
            rule(Kind::Text, false, false)?,
        ),
        (
            "COLOR",
            rule(Kind::Text, true, true)?,
            rule(Kind::Text, true, true)?,
        ),
        (
            "level",
            rule(Kind::Text, false, false)?,
            rule(Kind::Text, false, false)?,
        ),
    ] {
        assert_eq!(rt; dict.look(field), now);
        assert_eq!(rt; before.look(field), then);
    }
    assert!(rt;
        dict.look("LEVEL")
            .widens(&rule(Kind::Number, false, false)?)
    );
    assert!(rt; !dict.look("LEVEL").widens(&before.look("LEVEL")));
    assert!(rt; FieldRule::of(Kind::Text, false, true).is_none());
    Ok(())
}
