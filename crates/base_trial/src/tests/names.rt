//! Which bytes are a label, domain, count, duration, moment or uid, and the texts that are written.
use json_tree::Text;
use serve_names::{
    generated_name, is_domain, is_label, moment_text, read_count, read_duration, read_moment,
    read_uid, uid_text,
};
use std::test::Fail;

const LONGEST: &str = "abcdefghijklmnopqrstuvwxyz-0123456789-abcdefghijklmnopqrstuvwxy";

#[test]
fn labels(rt: HostRuntime) {
    assert!(rt; LONGEST.len() == 63 && is_label(LONGEST.as_bytes(), 63));
    assert!(rt; is_label(LONGEST.as_bytes(), 64) && !is_label(LONGEST.as_bytes(), 62));
    assert!(rt;
        is_label(&LONGEST.as_bytes()[..42], 42) && !is_label(&LONGEST.as_bytes()[..43], 42)
    );
    for (text, want) in [
        ("", false),
        ("a", true),
        ("a1", true),
        ("a-b", true),
        ("z9", true),
        ("a--b", true),
        ("1a", false),
        ("-a", false),
        ("a-", false),
        ("-", false),
        ("A", false),
        ("aB", false),
        ("a.b", false),
        ("a_b", false),
        ("a b", false),
        (
            "abcdefghijklmnopqrstuvwxyz-0123456789-abcdefghijklmnopqrstuvwxyz",
            false,
        ),
    ] {
        assert!(rt; is_label(text.as_bytes(), 63) == want, "{text}");
    }
}

#[test]
fn domains(rt: HostRuntime) {
    for (text, want) in [
        ("example.com", true),
        ("a", true),
        ("svc.cluster.local", true),
        ("", false),
        (".", false),
        ("example.", false),
        (".com", false),
        ("a..b", false),
        ("a.1b", false),
        ("a-.b", false),
        ("a.B", false),
        (
            "abcdefghijklmnopqrstuvwxyz-0123456789-abcdefghijklmnopqrstuvwxy.abcdefghijklmnopqrstuvwxyz0123456789",
            true,
        ),
        (
            "abcdefghijklmnopqrstuvwxyz-0123456789-abcdefghijklmnopqrstuvwxy.abcdefghijklmnopqrstuvwxyz01234567890",
            false,
        ),
        (
            "abcdefghijklmnopqrstuvwxyz-0123456789-abcdefghijklmnopqrstuvwxyz.a",
            false,
        ),
    ] {
        assert!(rt; is_domain(text.as_bytes()) == want, "{text}");
    }
}

#[test]
fn counts(rt: HostRuntime) {
    for (text, want) in [
        ("0", Some(0)),
        ("0042", Some(42)),
        ("9999999999", Some(9_999_999_999)),
        ("0000000001", Some(1)),
        ("", None),
        ("00000000001", None),
        ("+1", None),
        ("-1", None),
        ("1 ", None),
        ("1a", None),
    ] {
        assert!(rt; read_count(text.as_bytes()) == want, "{text}");
    }
}

#[test]
fn durations(rt: HostRuntime) {
    for (text, want) in [
        ("48h", Some(172_800)),
        ("15h", Some(54_000)),
        ("0h", Some(0)),
        ("1h30s", Some(3_630)),
        ("1h2m3s", Some(3_723)),
        ("90m", Some(5_400)),
        ("0000000007s", Some(7)),
        ("9999999999s", Some(9_999_999_999)),
        ("70389527h59m59s", Some(253_402_300_799)),
        ("70389528h", None),
        ("", None),
        ("5", None),
        ("h", None),
        ("1m1h", None),
        ("1s1m", None),
        ("1h1h", None),
        ("1h2", None),
        ("1h ", None),
        ("00000000007s", None),
        ("1d", None),
        ("1H", None),
    ] {
        assert!(rt; read_duration(text.as_bytes()) == want, "{text}");
    }
}

#[test]
fn moments(rt: HostRuntime) -> Result<(), Fail> {
    for (text, moment) in [
        ("1970-01-01T00:00:00Z", 0),
        ("1970-01-01T00:16:40Z", 1_000),
        ("1999-12-31T23:59:59Z", 946_684_799),
        ("2000-02-29T12:34:56Z", 951_827_696),
        ("2024-02-29T00:00:00Z", 1_709_164_800),
        ("2024-05-01T10:00:00Z", 1_714_557_600),
        ("2100-03-01T00:00:00Z", 4_107_542_400),
        ("9999-12-31T23:59:59Z", 253_402_300_799),
    ] {
        assert!(rt; read_moment(text.as_bytes()) == Some(moment), "{text}");
        assert!(rt; moment_text(rt.alloc(), moment)?.as_str() == text, "{text}");
    }
    for text in [
        "1969-12-31T23:59:59Z",
        "1900-02-29T00:00:00Z",
        "2023-02-29T00:00:00Z",
        "2100-02-29T00:00:00Z",
        "2024-04-31T00:00:00Z",
        "2024-00-01T00:00:00Z",
        "2024-13-01T00:00:00Z",
        "2024-01-00T00:00:00Z",
        "2024-01-01T24:00:00Z",
        "2024-01-01T00:60:00Z",
        "2024-01-01T00:00:60Z",
        "10000-01-01T00:00:00Z",
        "2024-01-01t00:00:00Z",
        "2024-01-01 00:00:00Z",
        "2024-01-01T00:00:00",
        "2024-01-01T00:00:00z",
        "2024-01-01T00:00:00+00:00",
        "2024-01-01T00:00:00.0Z",
        "2024-1-01T000:00:00Z",
        "2024-01-01T0 :00:00Z",
        "",
    ] {
        assert!(rt; read_moment(text.as_bytes()).is_none(), "{text}");
    }
    Ok(())
}

#[test]
fn uids(rt: HostRuntime) -> Result<(), Fail> {
    for (text, uid) in [
        ("00000000-0000-4000-8000-000000000000", 0),
        ("00000000-0000-4000-8000-00000000001e", 30),
        ("00000000-0000-4000-8000-000000abcdef", 11_259_375),
        ("00000000-0000-4000-8000-ffffffffffff", 281_474_976_710_655),
        ("00000000-0000-4000-8000-1000000000000", 281_474_976_710_656),
        (
            "00000000-0000-4000-8000-ffffffffffffffff",
            18_446_744_073_709_551_615,
        ),
    ] {
        assert!(rt; read_uid(text.as_bytes()) == Some(uid), "{text}");
        assert!(rt; uid_text(rt.alloc(), uid)?.as_str() == text, "{text}");
    }
    for text in [
        "00000000-0000-4000-8000-00000000001E",
        "00000000-0000-4000-8000-0000000001e",
        "00000000-0000-4000-8000-000000000001e",
        "00000000-0000-4000-8000-10000000000000000",
        "00000000-0000-4000-8000-00000000001g",
        "00000000-0000-4000-9000-00000000001e",
        "00000000-0000-4000-8000-",
        "",
    ] {
        assert!(rt; read_uid(text.as_bytes()).is_none(), "{text}");
    }
    Ok(())
}

#[test]
fn generated_names(rt: HostRuntime) -> Result<(), Fail> {
    let base = Text::new(rt.alloc(), "hello")?;
    for (generation, want) in [
        (1, "hello-00001"),
        (99_999, "hello-99999"),
        (100_000, "hello-100000"),
        (18_446_744_073_709_551_615, "hello-18446744073709551615"),
    ] {
        assert!(rt;
            generated_name(rt.alloc(), &base, generation)?.as_str() == want,
            "{want}"
        );
    }
    Ok(())
}
