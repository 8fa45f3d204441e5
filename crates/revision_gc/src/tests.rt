//! The tables of collection and of its settings.
use crate::{Candidate, GcSettings, SettingsError, collect, read_settings, standard_settings};
use json_tree::{Seq, Text};
use std::alloc::{AllocError, Global};
use std::test::Fail;

fn candidate(
    alloc: Global,
    created: u64,
    active: u64,
    generation: u64,
    name: &str,
) -> Result<Candidate, AllocError> {
    Ok(Candidate {
        created,
        active,
        generation,
        name: Text::new(alloc, name)?,
    })
}

fn pair(
    alloc: Global,
    one: (u64, u64, u64, &str),
    two: (u64, u64, u64, &str),
) -> Result<Seq<Candidate>, AllocError> {
    let mut list = Seq::with_capacity(alloc, 2)?;
    list.push(candidate(alloc, one.0, one.1, one.2, one.3)?)?;
    list.push(candidate(alloc, two.0, two.1, two.2, two.3)?)?;
    Ok(list)
}

fn settings(create: Option<u64>, active: Option<u64>, least: u64, most: Option<u64>) -> GcSettings {
    GcSettings {
        create,
        active,
        least,
        most,
    }
}

#[test]
fn collects_one_by_the_table(rt: HostRuntime) -> Result<(), Fail> {
    let alloc = rt.alloc();
    let mut one = Seq::with_capacity(alloc, 1)?;
    one.push(candidate(alloc, 0, 0, 1, "a")?)?;
    for (create, least, most, now, answer) in [
        (Some(172_800), 0, None, 172_800, None),
        (Some(172_800), 0, None, 172_801, Some(0)),
        (Some(172_800), 1, None, 172_801, None),
        (None, 0, Some(0), 0, Some(0)),
        (None, 0, None, 253_402_300_799, None),
    ] {
        assert_eq!(rt;
            collect(&one, now, &settings(create, None, least, most)),
            answer,
            "at {now}, {least}"
        );
    }
    Ok(())
}

#[test]
fn collects_the_first_in_order(rt: HostRuntime) -> Result<(), Fail> {
    let alloc = rt.alloc();
    // By active moment, by generation, by name, by place; a stale one before a surplus one; both times have to pass.
    let surplus = settings(None, None, 0, Some(1));
    let stale = settings(Some(10), None, 0, Some(0));
    let both = settings(Some(10), Some(10), 0, None);
    for (one, two, settings, answer) in [
        ((0, 5, 1, "a"), (0, 4, 9, "b"), surplus, Some(1)),
        ((0, 4, 2, "a"), (0, 4, 1, "b"), surplus, Some(1)),
        ((0, 4, 1, "b"), (0, 4, 1, "a"), surplus, Some(1)),
        ((0, 4, 1, "a"), (0, 4, 1, "a"), surplus, Some(0)),
        ((9, 9, 1, "a"), (0, 9, 2, "b"), stale, Some(1)),
        ((0, 9, 1, "a"), (9, 9, 2, "b"), both, None),
        ((0, 9, 1, "a"), (0, 1, 2, "b"), both, Some(1)),
    ] {
        let list = pair(alloc, one, two)?;
        assert_eq!(rt; collect(&list, 12, &settings), answer, "at {answer:?}");
    }
    Ok(())
}

#[test]
fn reads_settings(rt: HostRuntime) -> Result<(), Fail> {
    let alloc = rt.alloc();
    let kept = settings(None, None, 5, None);
    for (create, active, least, most, answer) in [
        ("48h", "15h", "20", "1000", Ok(standard_settings())),
        ("disabled", "disabled", "5", "disabled", Ok(kept)),
        ("2", "2", "x", "x", Err(SettingsError::CreateTime)),
        ("1h", "", "x", "x", Err(SettingsError::ActiveTime)),
        ("1h", "1m", "disabled", "x", Err(SettingsError::Least)),
        ("1h", "1m", "2", "-1", Err(SettingsError::Most)),
        ("1h", "1m", "2", "1", Err(SettingsError::LeastAboveMost)),
    ] {
        let create = Text::new(alloc, create)?;
        let active = Text::new(alloc, active)?;
        let least = Text::new(alloc, least)?;
        let most = Text::new(alloc, most)?;
        let read = read_settings(&create, &active, &least, &most);
        assert_eq!(rt; read, answer, "at {create} {active} {least} {most}");
    }
    Ok(())
}
