use super::*;
use std::alloc::Global;
use std::test::Fail;

/// Texts, each with its normal form.
type Rows<'a> = &'a [(&'a str, Option<&'a str>)];

/// The first text whose normal form is another.
fn wrong<'a>(alloc: Global, kind: Kind, rows: Rows<'a>) -> Result<Option<&'a str>, OutOfMemory> {
    for (raw, wanted) in rows {
        let found = normal(alloc, kind, *raw)?;
        if found.as_ref().map(|t| t.as_str()) != *wanted {
            return Ok(Some(*raw));
        }
    }
    Ok(None)
}

#[test]
fn texts_lose_marks_and_case(rt: HostRuntime) -> Result<(), Fail> {
    let rows: Rows<'_> = &[
        ("Jackson", Some("jackson")),
        ("école", Some("ecole")),
        ("ÉCOLE", Some("ecole")),
        ("e\u{301}cole", Some("ecole")),
        ("\u{301}\u{308}", None),
        ("", None),
        ("Straße", Some("strasse")),
        ("ŉ", Some("ʼn")),
        ("Ångström", Some("angstrom")),
        ("İ", Some("i")),
        ("ΣΑΣ", Some("σασ")),
        ("ς", Some("σ")),
        ("한", Some("\u{1112}\u{1161}\u{11ab}")),
        ("ﬀ", Some("ff")),
        ("ᾳ", Some("α")),
        ("a b\t", Some("a b\t")),
    ];
    assert_eq!(rt; wrong(rt.alloc(), Kind::Text, rows)?, None);
    Ok(())
}

#[test]
fn plain_texts_stay(rt: HostRuntime) -> Result<(), Fail> {
    let rows: Rows<'_> = &[("École ", Some("École ")), ("", None), ("0", Some("0"))];
    assert_eq!(rt; wrong(rt.alloc(), Kind::Noop, rows)?, None);
    Ok(())
}

#[test]
fn numbers_are_written_in_27_digits(rt: HostRuntime) -> Result<(), Fail> {
    let rows: Rows<'_> = &[
        ("-2", Some("!999999999999999997999999999")),
        ("9", Some("+000000000000000009000000000")),
        ("10", Some("+000000000000000010000000000")),
        ("0", Some("+000000000000000000000000000")),
        ("-0", Some("+000000000000000000000000000")),
        ("+0.0", Some("+000000000000000000000000000")),
        ("-0.000", Some("+000000000000000000000000000")),
        ("-0.000000001", Some("!999999999999999999999999998")),
        ("0.000000001", Some("+000000000000000000000000001")),
        ("+007.25", Some("+000000000000000007250000000")),
        ("-1.5", Some("!999999999999999998499999999")),
        (
            "999999999999999999.999999999",
            Some("+999999999999999999999999999"),
        ),
        (
            "-999999999999999999.999999999",
            Some("!000000000000000000000000000"),
        ),
        ("123456789012345678", Some("+123456789012345678000000000")),
        ("1234567890123456789", None),
        ("0000000000000000001", None),
        ("0.1234567890", None),
        ("1.0000000000", None),
        ("abc", None),
        ("", None),
        ("-", None),
        ("+", None),
        ("+-1", None),
        ("1.", None),
        (".5", None),
        ("1.5.", None),
        ("1e3", None),
        (" 1", None),
        ("1 ", None),
        ("1,5", None),
        ("１", None),
    ];
    assert_eq!(rt; wrong(rt.alloc(), Kind::Number, rows)?, None);
    Ok(())
}

#[test]
fn dates_are_written_in_utc(rt: HostRuntime) -> Result<(), Fail> {
    let rows: Rows<'_> = &[
        ("2024-03-01T08:30:00+01:00", Some("2024-03-01T07:30:00Z")),
        ("20240301", Some("2024-03-01T00:00:00Z")),
        ("2024-03-01", Some("2024-03-01T00:00:00Z")),
        ("20240301T083000", None),
        ("20240301 08:30:59", Some("2024-03-01T08:30:59Z")),
        ("2024-03-01 08:30:59Z", Some("2024-03-01T08:30:59Z")),
        ("20240301T08:30:00.5-02:30", Some("2024-03-01T11:00:00Z")),
        (
            "2024-03-01T08:30:00.999999999Z",
            Some("2024-03-01T08:30:00Z"),
        ),
        ("2024-03-01T08:30:00.1234567890Z", None),
        ("2024-03-01T08:30:00.Z", None),
        ("2024-03-01T08:30:00,5Z", None),
        ("2024-03-01t08:30:00", None),
        ("2024-03-01T08:30:00z", None),
        ("2024-03-01T08:30", None),
        ("2024-03-01Z", None),
        ("2024-03-01+01:00", None),
        ("2024-03-01.5", None),
        ("2024-03-01T", None),
        ("2024-03-01T08:30:00+0100", None),
        ("2024-03-01T08:30:00+01:00Z", None),
        ("2024-03-01T08:30:60", None),
        ("2016-12-31T23:59:60Z", None),
        ("2024-03-01T24:00:00", None),
        ("2024-03-01T23:60:00", None),
        ("2024-03-01T08:30:00+24:00", None),
        ("2024-03-01T08:30:00-23:60", None),
        ("2024-03-01T08:30:00+23:59", Some("2024-02-29T08:31:00Z")),
        ("1900-02-28T23:30:00-01:00", Some("1900-03-01T00:30:00Z")),
        ("1900-02-29", None),
        ("2000-02-29", Some("2000-02-29T00:00:00Z")),
        ("2000-03-01T00:00:00+00:01", Some("2000-02-29T23:59:00Z")),
        ("20240229", Some("2024-02-29T00:00:00Z")),
        ("2023-02-29", None),
        ("2023-03-01T00:00:00+00:30", Some("2023-02-28T23:30:00Z")),
        ("2023-04-31", None),
        ("2023-00-10", None),
        ("2023-13-10", None),
        ("2023-01-00", None),
        ("2023-01-32", None),
        ("2023-12-31T23:00:00-01:00", Some("2024-01-01T00:00:00Z")),
        ("2024-01-01T00:00:00+00:01", Some("2023-12-31T23:59:00Z")),
        ("0001-01-01T00:00:00", Some("0001-01-01T00:00:00Z")),
        ("0001-01-01T00:00:00+00:01", None),
        ("0001-01-01T00:01:00+00:01", Some("0001-01-01T00:00:00Z")),
        ("9999-12-31T23:59:59", Some("9999-12-31T23:59:59Z")),
        ("9999-12-31T23:59:59-00:01", None),
        ("9999-12-31T22:00:00-01:59", Some("9999-12-31T23:59:00Z")),
        ("0000-12-31", None),
        ("00000101", None),
        ("2024-3-1", None),
        ("2024-0301", None),
        ("202403-01", None),
        ("", None),
        ("2024", None),
    ];
    assert_eq!(rt; wrong(rt.alloc(), Kind::Date, rows)?, None);
    Ok(())
}

#[test]
fn days_are_read_in_both_forms(rt: HostRuntime) -> Result<(), Fail> {
    let rows: Rows<'_> = &[
        ("20240301", Some("20240301")),
        ("2024-03-01", Some("20240301")),
        ("00010101", Some("00010101")),
        ("9999-12-31", Some("99991231")),
        ("20240229", Some("20240229")),
        ("2023-02-29", None),
        ("0000-12-31", None),
        ("2024-0301", None),
        ("2024/03/01", None),
        ("2024-03-01 ", None),
        ("202403", None),
        ("", None),
    ];
    for (raw, wanted) in rows {
        let found = read_day(rt.alloc(), *raw)?;
        assert!(rt; found.as_ref().map(|day| day.as_str()) == *wanted);
    }
    Ok(())
}

#[test]
fn addresses_are_written_in_three_digits(rt: HostRuntime) -> Result<(), Fail> {
    let rows: Rows<'_> = &[
        ("1.2.3.4", Some("001.002.003.004")),
        ("255.255.255.255", Some("255.255.255.255")),
        ("01.1.1.1", Some("001.001.001.001")),
        ("001.1.1.1", Some("001.001.001.001")),
        ("0.0.0.0", Some("000.000.000.000")),
        ("10.20.30.200", Some("010.020.030.200")),
        ("256.0.0.1", None),
        ("0.0.0.256", None),
        ("0001.1.1.1", None),
        ("1.2.3", None),
        ("1.2.3.4.5", None),
        ("1..3.4", None),
        (".2.3.4", None),
        ("1.2.3.", None),
        ("1.2.3.4.", None),
        ("1.2.3.x", None),
        ("1.2.3.4 ", None),
        ("-1.2.3.4", None),
        ("", None),
    ];
    assert_eq!(rt; wrong(rt.alloc(), Kind::Ipv4, rows)?, None);
    Ok(())
}

fn back(alloc: Global, text: &str, wanted: &str) -> Result<bool, OutOfMemory> {
    Ok(reversed(alloc, text)?.as_str() == wanted)
}

#[test]
fn texts_are_reversed_by_scalar_values(rt: HostRuntime) -> Result<(), Fail> {
    let name = normal(rt.alloc(), Kind::Text, "Jackson")?.ok_or("no normal form")?;
    assert!(rt; back(rt.alloc(), name.as_str(), "noskcaj")?);
    assert!(rt; back(rt.alloc(), "", "")?);
    assert!(rt; back(rt.alloc(), "aé😀", "😀éa")?);
    assert!(rt; back(rt.alloc(), "e\u{301}", "\u{301}e")?);
    Ok(())
}
