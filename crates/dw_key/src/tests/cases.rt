//! Keys in ascending order, and their codes as another program writes them.

pub struct Case {
    /// Row, family, qualifier and visibility.
    pub parts: [&'static [u8]; 4],
    pub stamp: u64,
    pub code: &'static [u8],
    /// The places behind a byte 0 of a part or of its end.
    pub behind_zeros: &'static [usize],
}

pub static CASES: [Case; 20] = [
    Case {
        parts: [b"", b"", b"", b""],
        stamp: 18446744073709551615,
        code: b"\x00\x00\x00\x00\x00\x00\x00\x00\x00\x00\x00\x00\x00\x00\x00\x00",
        behind_zeros: &[1, 3, 5, 7],
    },
    Case {
        parts: [b"", b"", b"", b""],
        stamp: 9223372036854775808,
        code: b"\x00\x00\x00\x00\x00\x00\x00\x00\x7f\xff\xff\xff\xff\xff\xff\xff",
        behind_zeros: &[1, 3, 5, 7],
    },
    Case {
        parts: [b"", b"", b"", b""],
        stamp: 1,
        code: b"\x00\x00\x00\x00\x00\x00\x00\x00\xff\xff\xff\xff\xff\xff\xff\xfe",
        behind_zeros: &[1, 3, 5, 7],
    },
    Case {
        parts: [b"", b"", b"", b""],
        stamp: 0,
        code: b"\x00\x00\x00\x00\x00\x00\x00\x00\xff\xff\xff\xff\xff\xff\xff\xff",
        behind_zeros: &[1, 3, 5, 7],
    },
    Case {
        parts: [b"", b"", b"", b"\x00"],
        stamp: 0,
        code: b"\x00\x00\x00\x00\x00\x00\x00\xff\x00\x00\xff\xff\xff\xff\xff\xff\xff\xff",
        behind_zeros: &[1, 3, 5, 7, 9],
    },
    Case {
        parts: [b"", b"", b"", b"\xff"],
        stamp: 9223372036854775808,
        code: b"\x00\x00\x00\x00\x00\x00\xff\x00\x00\x7f\xff\xff\xff\xff\xff\xff\xff",
        behind_zeros: &[1, 3, 5, 8],
    },
    Case {
        parts: [b"", b"", b"\x00", b""],
        stamp: 1,
        code: b"\x00\x00\x00\x00\x00\xff\x00\x00\x00\x00\xff\xff\xff\xff\xff\xff\xff\xfe",
        behind_zeros: &[1, 3, 5, 7, 9],
    },
    Case {
        parts: [b"", b"", b"\xff\x00", b""],
        stamp: 0,
        code: b"\x00\x00\x00\x00\xff\x00\xff\x00\x00\x00\x00\xff\xff\xff\xff\xff\xff\xff\xff",
        behind_zeros: &[1, 3, 6, 8, 10],
    },
    Case {
        parts: [b"", b"\x00\x00", b"", b"\xff"],
        stamp: 18446744073709551615,
        code: b"\x00\x00\x00\xff\x00\xff\x00\x00\x00\x00\xff\x00\x00\x00\x00\x00\x00\x00\x00\x00\x00",
        behind_zeros: &[1, 3, 5, 7, 9, 12],
    },
    Case {
        parts: [b"", b"\x00\xff", b"", b""],
        stamp: 0,
        code: b"\x00\x00\x00\xff\xff\x00\x00\x00\x00\x00\x00\xff\xff\xff\xff\xff\xff\xff\xff",
        behind_zeros: &[1, 3, 6, 8, 10],
    },
    Case {
        parts: [b"", b"\xff", b"", b""],
        stamp: 1,
        code: b"\x00\x00\xff\x00\x00\x00\x00\x00\x00\xff\xff\xff\xff\xff\xff\xff\xfe",
        behind_zeros: &[1, 4, 6, 8],
    },
    Case {
        parts: [b"\x00", b"\x00", b"\x00", b"\x00"],
        stamp: 0,
        code: b"\x00\xff\x00\x00\x00\xff\x00\x00\x00\xff\x00\x00\x00\xff\x00\x00\xff\xff\xff\xff\xff\xff\xff\xff",
        behind_zeros: &[1, 3, 5, 7, 9, 11, 13, 15],
    },
    Case {
        parts: [b"\x00\x00", b"", b"", b""],
        stamp: 0,
        code: b"\x00\xff\x00\xff\x00\x00\x00\x00\x00\x00\x00\x00\xff\xff\xff\xff\xff\xff\xff\xff",
        behind_zeros: &[1, 3, 5, 7, 9, 11],
    },
    Case {
        parts: [b"\x00\x01", b"", b"", b""],
        stamp: 0,
        code: b"\x00\xff\x01\x00\x00\x00\x00\x00\x00\x00\x00\xff\xff\xff\xff\xff\xff\xff\xff",
        behind_zeros: &[1, 4, 6, 8, 10],
    },
    Case {
        parts: [b"\x00\xff", b"\xff", b"\xff", b"\xff"],
        stamp: 18446744073709551615,
        code: b"\x00\xff\xff\x00\x00\xff\x00\x00\xff\x00\x00\xff\x00\x00\x00\x00\x00\x00\x00\x00\x00\x00",
        behind_zeros: &[1, 4, 7, 10, 13],
    },
    Case {
        parts: [b"\x01", b"", b"", b""],
        stamp: 0,
        code: b"\x01\x00\x00\x00\x00\x00\x00\x00\x00\xff\xff\xff\xff\xff\xff\xff\xff",
        behind_zeros: &[2, 4, 6, 8],
    },
    Case {
        parts: [b"a", b"", b"", b""],
        stamp: 0,
        code: b"a\x00\x00\x00\x00\x00\x00\x00\x00\xff\xff\xff\xff\xff\xff\xff\xff",
        behind_zeros: &[2, 4, 6, 8],
    },
    Case {
        parts: [b"a", b"", b"b\x00c", b"X"],
        stamp: 1,
        code: b"a\x00\x00\x00\x00b\x00\xffc\x00\x00X\x00\x00\xff\xff\xff\xff\xff\xff\xff\xfe",
        behind_zeros: &[2, 4, 7, 10, 13],
    },
    Case {
        parts: [b"a\x00", b"", b"", b""],
        stamp: 0,
        code: b"a\x00\xff\x00\x00\x00\x00\x00\x00\x00\x00\xff\xff\xff\xff\xff\xff\xff\xff",
        behind_zeros: &[2, 4, 6, 8, 10],
    },
    Case {
        parts: [b"\xff", b"\xff\xff", b"\x00", b"\x00\xff\x00"],
        stamp: 9223372036854775808,
        code: b"\xff\x00\x00\xff\xff\x00\x00\x00\xff\x00\x00\x00\xff\xff\x00\xff\x00\x00\x7f\xff\xff\xff\xff\xff\xff\xff",
        behind_zeros: &[2, 6, 8, 10, 12, 15, 17],
    },
];
