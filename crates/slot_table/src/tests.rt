use crate::{Slot, SlotTable};
use std::alloc::{AllocError, Global};
use std::test::Fail;

/// Slots of 5, 1 and 3, of which the first holds 7 and the second 8.
fn three_slots(alloc: Global) -> Result<SlotTable<Slot<u64, u64>>, AllocError> {
    let mut table = SlotTable::new(alloc);
    for (key, held) in [(5u64, 7u64), (1, 6), (3, 9), (1, 8)] {
        table.hold(Slot {
            key,
            seen: 2,
            read_at: 4,
            held,
        })?;
    }
    Ok(table)
}

#[test]
fn slots_are_held_found_and_idled(rt: HostRuntime) -> Result<(), Fail> {
    let mut table = three_slots(rt.alloc())?;
    let mut seen = 0;
    for slot in table.rows() {
        assert!(rt; seen < slot.key, "{seen}");
        seen = slot.key;
    }
    assert!(rt; table.rows().len() == 3);
    assert!(rt;
        table
            .find(&1)
            .is_some_and(|slot| slot.held == 8 && slot.seen == 2)
    );
    table.idle(&3);
    assert!(rt; table.find(&3).is_none() && table.rows().len() == 2);
    let taken = table.take(&5);
    assert!(rt; taken.is_some_and(|slot| slot.held == 7));
    assert!(rt; table.take(&5).is_none() && table.rows().len() == 1);
    Ok(())
}
