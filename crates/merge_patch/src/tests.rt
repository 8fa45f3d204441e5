//! The examples of RFC 7396, appendix A, and of objects in objects.
use crate::merge;
use json_tree::{JsonError, read_json, write_json};
use std::alloc::Global;
use std::test::Fail;

// The text of the merge of two texts, which are at most 32 deep, and that of the merge of it and the same patch.
fn merged(alloc: Global, target: &str, patch: &str) -> Result<(Vec<u8>, Vec<u8>), JsonError> {
    let target = read_json(alloc, target.as_bytes())?;
    let patch = read_json(alloc, patch.as_bytes())?;
    let once = merge(alloc, target, &patch)?;
    let text = write_json(alloc, &once)?;
    let again = merge(alloc, once, &patch)?;
    Ok((text, write_json(alloc, &again)?))
}

#[test]
fn merges(rt: HostRuntime) -> Result<(), Fail> {
    for (target, patch, want) in [
        (r#"{"a":"b"}"#, r#"{"a":"c"}"#, r#"{"a":"c"}"#),
        (r#"{"a":"b"}"#, r#"{"b":"c"}"#, r#"{"a":"b","b":"c"}"#),
        (r#"{"a":"b"}"#, r#"{"a":null}"#, "{}"),
        (r#"{"a":"b","b":"c"}"#, r#"{"a":null}"#, r#"{"b":"c"}"#),
        (r#"{"a":["b"]}"#, r#"{"a":"c"}"#, r#"{"a":"c"}"#),
        (r#"{"a":"c"}"#, r#"{"a":["b"]}"#, r#"{"a":["b"]}"#),
        (
            r#"{"a":{"b":"c"}}"#,
            r#"{"a":{"b":"d","c":null}}"#,
            r#"{"a":{"b":"d"}}"#,
        ),
        (r#"{"a":[{"b":"c"}]}"#, r#"{"a":[1]}"#, r#"{"a":[1]}"#),
        (r#"["a","b"]"#, r#"["c","d"]"#, r#"["c","d"]"#),
        (r#"{"a":"b"}"#, r#"["c"]"#, r#"["c"]"#),
        (r#"{"a":"foo"}"#, "null", "null"),
        (r#"{"a":"foo"}"#, r#""bar""#, r#""bar""#),
        (r#"{"e":null}"#, r#"{"a":1}"#, r#"{"a":1,"e":null}"#),
        ("[1,2]", r#"{"a":"b","c":null}"#, r#"{"a":"b"}"#),
        ("{}", r#"{"a":{"bb":{"ccc":null}}}"#, r#"{"a":{"bb":{}}}"#),
        ("{}", r#"{"a":[null]}"#, r#"{"a":[null]}"#),
        ("1", "{}", "{}"),
        (
            r#"{"a":{"x":1,"y":2},"b":3,"d":4}"#,
            r#"{"a":{"y":null,"z":5},"c":6,"d":{"e":null}}"#,
            r#"{"a":{"x":1,"z":5},"b":3,"c":6,"d":{}}"#,
        ),
    ] {
        let (once, again) = merged(rt.alloc(), target, patch)?;
        assert_eq!(rt; once.as_slice(), want.as_bytes(), "{target} and {patch}");
        assert_eq!(rt;
            again.as_slice(),
            want.as_bytes(),
            "{target} and {patch} again"
        );
    }
    Ok(())
}
