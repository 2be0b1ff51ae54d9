//! What a step of a hub answers.

ghost use Rattle.std.specs.Prelude.{◌≡◌, false, Some, None};
ghost use Rattle.rfb_session.specs.HubAnswers.{IsMere, TellsFor};

use crate::hub::event::{HubFault, HubTold};
use crate::told::Told;

// The answer to an event that is refused.
pub(crate) fn told_refused(fault: HubFault) -> HubTold
    ensures mere { IsMere result }
    ensures refused { result.refused ≡ Some fault }
{
    HubTold {
        moved: 0,
        refused: Some(fault),
        composed: false,
        ended: 0,
    }
}

// The answer to an event that was made, and to nothing beside.
pub(crate) fn told_made() -> HubTold
    ensures mere { IsMere result }
    ensures refused { result.refused ≡ None }
{
    HubTold {
        moved: 0,
        refused: None,
        composed: false,
        ended: 0,
    }
}

// The answer to an event of one slot, which emptied those.
pub(crate) fn told_for(told: Told, ended: u8) -> HubTold
    ensures tells { TellsFor told result }
    ensures ended { result.ended ≡ ended }
{
    let refused = match told.refused {
        Some(refused) => Some(HubFault::from(refused)),
        None => None,
    };
    HubTold {
        moved: told.moved,
        refused,
        composed: told.composed,
        ended,
    }
}
