//! Values from outside, and that calls succeed where memory is ample.
use crate::{fold, fold_truth, settle_times};
use json_tree::{Seq, Text};
use resource_types::{CondName, Condition, Truth};
use std::alloc::{AllocError, Global};
use std::test::Fail;

fn condition(
    alloc: Global,
    name: CondName,
    truth: Truth,
    reason: &str,
    since: u64,
) -> Result<Condition, AllocError> {
    Ok(Condition {
        name,
        truth,
        reason: Text::new(alloc, reason)?,
        message: Text::new(alloc, reason)?,
        info: false,
        since,
    })
}

#[test]
fn folds(rt: HostRuntime) -> Result<(), Fail> {
    let alloc = rt.alloc();
    for (one, two, truth, reason) in [
        (Truth::True, Truth::True, Truth::True, ""),
        (Truth::True, Truth::Unknown, Truth::Unknown, "two"),
        (Truth::Unknown, Truth::Unknown, Truth::Unknown, "one"),
        (Truth::Unknown, Truth::False, Truth::False, "two"),
        (Truth::False, Truth::False, Truth::False, "one"),
        (Truth::False, Truth::True, Truth::False, "one"),
    ] {
        let mut parts = Seq::new(alloc);
        parts.push(condition(alloc, CondName::ContainerHealthy, one, "one", 5)?)?;
        parts.push(condition(alloc, CondName::ResourcesAvailable, two, "two", 5)?)?;
        let ready = condition(alloc, CondName::Ready, truth, reason, 0)?;
        assert_eq!(rt; fold(alloc, &parts)?, ready);
    }
    assert_eq!(rt; fold_truth(&Seq::new(alloc)), Truth::True);
    Ok(())
}

#[test]
fn settles_times(rt: HostRuntime) -> Result<(), Fail> {
    let alloc = rt.alloc();
    let mut old = Seq::new(alloc);
    old.push(condition(alloc, CondName::IngressReady, Truth::True, "", 3)?)?;
    old.push(condition(alloc, CondName::Ready, Truth::False, "", 4)?)?;
    let mut new = Seq::new(alloc);
    new.push(condition(alloc, CondName::AllTrafficAssigned, Truth::True, "", 0)?)?;
    new.push(condition(alloc, CondName::IngressReady, Truth::True, "", 0)?)?;
    new.push(condition(alloc, CondName::Ready, Truth::True, "", 0)?)?;
    let settled = settle_times(&old, new, 9);
    for (place, since) in [(0, 9), (1, 3), (2, 9)] {
        assert_eq!(rt; settled.as_slice()[place].since, since, "at {place}");
    }
    Ok(())
}
