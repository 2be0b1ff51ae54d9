//! What a relay is made with.

ghost use Rattle.std.specs.Prelude.{◌≡◌, option_map, take};
ghost use Rattle.rfb.specs.Relay.{IsSetupOf};

use crate::defaults::{HOLD_SECONDS, viewer_setup};
use crate::relaying::RelayOptions;
use crate::sharing::console_setup::NAME_MAX;
use crate::sharing::hosting::rules_of;
use rfb_session::relay::RelaySetup;

// How many bytes of each text of a viewer's are passed on at most.
const TEXT_MOST: u32 = 65_536;

/// The setup that options ask for. Their numbers are seconds, and its are milliseconds.
pub fn setup_of<'a>(options: RelayOptions<'a>) -> RelaySetup<'a>
    ensures { IsSetupOf options.entry result }
{
    RelaySetup {
        name: name_of(options.name),
        rules: rules_of(&options.hosting, TEXT_MOST, HOLD_SECONDS, options.retry),
        viewer: viewer_setup(options.wants.format, options.wants.encodings),
    }
}

// As much of a name as viewers get, if there is one.
fn name_of(name: Option<&str>) -> Option<&[u8]>
    ensures { option_map (λ bytes. bytes.now) result
        ≡ option_map (λ text. take 255 text.now) name.entry }
{
    match name {
        Some(name) => Some(beginning_of(name.as_bytes())),
        None => None,
    }
}

fn beginning_of(name: &[u8]) -> &[u8]
    ensures { result.now ≡ take 255 name.now }
{
    if name.len() <= NAME_MAX {
        return name;
    }
    &name[..NAME_MAX]
}
