//! Values, texts, lists and tables.
use json_tree::{
    Alike, Copied, Json, JsonError, Seq, Table, Text, have_same_text, read_json, reads_back,
    write_json,
};
use std::test::Fail;

#[test]
fn reads_and_writes(rt: HostRuntime) -> Result<(), Fail> {
    let json = read_json(rt.alloc(), br#" {"b":[1,-2,true,null],"a":"x"} "#)?;
    let written = write_json(rt.alloc(), &json)?;
    let want = br#"{"a":"x","b":[1,-2,true,null]}"#;
    assert_eq!(rt; written.as_slice(), want.as_slice());
    Ok(())
}

// What no request shows: a client is told of these alike.
#[test]
fn tells_refusals_apart(rt: HostRuntime) {
    for (bytes, want) in [
        (b"1 x".as_slice(), JsonError::Malformed),
        (b"[1.5]".as_slice(), JsonError::FloatNumber),
        (
            b"[[[[[[[[[[[[[[[[[[[[[[[[[[[[[[[[[]]]]]]]]]]]]]]]]]]]]]]]]]]]]]]]]]".as_slice(),
            JsonError::TooDeep,
        ),
    ] {
        assert_eq!(rt; read_json(rt.alloc(), bytes).err(), Some(want));
    }
}

#[test]
fn laws_can_be_called(rt: HostRuntime) -> Result<(), Fail> {
    assert!(rt; matches!(reads_back(rt.alloc(), &Json::Nat(7))?, Json::Nat(7)));
    assert!(rt; have_same_text(rt.alloc(), &Json::Nat(7), &Json::Nat(7))?);
    assert!(rt; !have_same_text(rt.alloc(), &Json::Nat(7), &Json::Null)?);
    Ok(())
}

#[test]
fn texts_are_short_or_long(rt: HostRuntime) -> Result<(), Fail> {
    for want in ["it is twenty-four bytes.", "twenty-five bytes, of two"] {
        let text = Text::new(rt.alloc(), want)?;
        assert!(rt; text.copy(rt.alloc())?.is(want));
        assert!(rt; text.clone()?.is(want));
    }
    Ok(())
}

#[test]
fn lists_grow(rt: HostRuntime) -> Result<(), Fail> {
    let mut list = Seq::from_slice(rt.alloc(), b"ac")?;
    list.insert(1, b'b')?;
    list.push(b'd')?;
    assert_eq!(rt; list.as_slice(), b"abcd".as_slice());
    Ok(())
}

#[test]
fn tables_grow(rt: HostRuntime) -> Result<(), Fail> {
    let mut table = Table::with_capacity(rt.alloc(), 3)?;
    table.add(Text::new(rt.alloc(), "b")?, 4_u64)?;
    table.put(Text::new(rt.alloc(), "c")?, 5)?;
    table.put_named("b", 6)?;
    assert_eq!(rt; table.len(), 2);
    assert!(rt; matches!(table.get("b"), Some(6)));
    Ok(())
}

#[test]
fn copies_are_equal(rt: HostRuntime) -> Result<(), Fail> {
    let json = Json::text(rt.alloc(), "a")?;
    assert!(rt; json.equals(&Copied::copy(&json, rt.alloc())?));
    assert!(rt; json.clone()? == json);
    Ok(())
}
