//! Values from outside, and that the calls succeed where memory is ample.
use crate::routes::{is_route, route};
use std::test::Fail;

#[test]
fn bytes_tell_manifests_apart(rt: HostRuntime) -> Result<(), Fail> {
    let alloc = rt.alloc();
    let manifest = route(alloc, "r", "blue")?;
    for (name, namespace, want) in [
        ("r", "blue", true),
        ("r", "green", false),
        ("r", "", false),
        ("q", "blue", false),
    ] {
        // The law is one of names that are not empty.
        if name.is_empty() {
            continue;
        }
        let is = is_route(alloc, &manifest, name, namespace)?;
        assert_eq!(rt; is, want, "{name} in {namespace}");
    }
    Ok(())
}
