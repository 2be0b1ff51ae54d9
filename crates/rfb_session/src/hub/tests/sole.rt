//! Viewers that ask for the screen alone, and slots that are not there.

use super::*;

// Viewers in the slots 1, 2, 5 and 7. The one in 5 asks for the screen alone.
fn joined(hub: &mut Hub) -> bool {
    let mut all = true;
    for slot in [1, 2, 7] {
        let join = HubEvent::Join(slot, setup(Format::rgb888(), raw(), true));
        all = all && refusal(hub, join).is_none();
    }
    let join = HubEvent::Join(5, setup(Format::bgr233(), raw(), false));
    all && refusal(hub, join).is_none()
}

fn emptied(alloc: Global) -> Result<Option<[u8; 3]>, AllocError> {
    let mut hub = hub_of(alloc, 2)?;
    let all = joined(&mut hub);
    let before = settle(&mut hub, 2);
    let at_once = settle(&mut hub, 5);
    let again = settle(&mut hub, 5);
    let alone = hub.is_taken(5) && !hub.is_taken(7) && !hub.is_taken(8);
    drop(hub);
    if all && alone {
        Ok(Some([before, at_once, again]))
    } else {
        Ok(None)
    }
}

#[test]
fn the_other_slots_are_emptied_and_told_once(rt: HostRuntime) -> Result<(), AllocError> {
    let told = emptied(rt.alloc())?;
    assert_eq!(rt; told, Some([0, 0b1000_0110, 0]));
    Ok(())
}

fn refusals(alloc: Global) -> Result<[Option<HubFault>; 6], AllocError> {
    let mut hub = hub_of(alloc, 2)?;
    let _all = joined(&mut hub);
    let told = [
        refusal(
            &mut hub,
            HubEvent::Join(7, setup(Format::rgb888(), raw(), true)),
        ),
        refusal(
            &mut hub,
            HubEvent::Join(8, setup(Format::rgb888(), raw(), true)),
        ),
        refusal(&mut hub, HubEvent::Leave(0)),
        refusal(&mut hub, HubEvent::Leave(255)),
        refusal(&mut hub, HubEvent::Of(3, SlotEvent::Compose)),
        refusal(&mut hub, HubEvent::Of(5, SlotEvent::Key(true, 97))),
    ];
    drop(hub);
    Ok(told)
}

#[test]
fn a_slot_that_is_not_there_is_reported_before_one_that_is_taken(
    rt: HostRuntime,
) -> Result<(), AllocError> {
    let told = refusals(rt.alloc())?;
    assert_eq!(rt;
        told,
        [
            Some(HubFault::SlotTaken),
            Some(HubFault::NoSuchSlot),
            Some(HubFault::NoSuchSlot),
            Some(HubFault::NoSuchSlot),
            Some(HubFault::NoSuchSlot),
            Some(HubFault::NotReady),
        ]
    );
    Ok(())
}
