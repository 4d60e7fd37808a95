//! Numbers as texts, by the rules of `docs/COMMANDS.md`.

use kv_base::{read_int, read_score, read_u64};

#[test]
fn reads_integers(rt: HostRuntime) {
    for (text, want) in [
        ("0", Some(0)),
        ("-1", Some(-1)),
        ("9223372036854775807", Some(i64::MAX)),
        ("-9223372036854775808", Some(i64::MIN)),
        ("", None),
        ("-", None),
        ("-0", None),
        ("+1", None),
        ("01", None),
        (" 1", None),
        ("1\0", None),
        ("1.0", None),
        ("1e3", None),
        ("\u{0663}", None),
        ("9223372036854775808", None),
        ("-9223372036854775809", None),
        ("18446744073709551617", None),
    ] {
        assert_eq!(rt; read_int(text.as_bytes()), want, "at {text}");
    }
}

#[test]
fn reads_numbers_of_64_bits(rt: HostRuntime) {
    for (text, want) in [
        ("0", Some(0)),
        ("18446744073709551615", Some(u64::MAX)),
        ("", None),
        ("-0", None),
        ("+1", None),
        ("01", None),
        ("1.0", None),
        ("18446744073709551616", None),
    ] {
        assert_eq!(rt; read_u64(text.as_bytes()), want, "at {text}");
    }
}

#[test]
fn reads_scores(rt: HostRuntime) {
    for (text, want) in [
        ("-0.0", Some(0)),
        ("+5", Some(5)),
        ("007", Some(7)),
        ("1.", Some(1)),
        ("-20.000", Some(-20)),
        ("9007199254740992", Some(9007199254740992)),
        ("-9007199254740992.0", Some(-9007199254740992)),
        // 64 bytes, and 65
        (
            "0000000000000000000000000000000000000000000000000000000000000007",
            Some(7),
        ),
        (
            "00000000000000000000000000000000000000000000000000000000000000007",
            None,
        ),
        ("", None),
        ("+", None),
        (".0", None),
        ("--1", None),
        ("1.5", None),
        ("1..", None),
        ("1e3", None),
        ("inf", None),
        ("1 ", None),
        ("9007199254740993", None),
        ("-9007199254740993", None),
        ("18446744073709551617", None),
    ] {
        assert_eq!(rt; read_score(text.as_bytes()), want, "at {text}");
    }
}
