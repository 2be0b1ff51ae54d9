//! What a share's console is made with.

ghost use Rattle.std.specs.Prelude.{◌≡◌, ◌≤◌, ◌*◌, length};
ghost use Rattle.rfb.specs.HostRules.{IsHosted};

use crate::defaults::TEXT_LIMIT;
use crate::sharing::ShareOptions;
use crate::sharing::hosting::rules_of;
use rfb_session::console::ConsoleSetup;

/// How many bytes of a name a session takes.
pub const NAME_MAX: usize = 255;

/// The setup that options ask for. Their numbers are seconds, and its are milliseconds.
pub fn setup_of<'a>(options: &ShareOptions<'a>) -> ConsoleSetup<'a>
    ensures name { length result.name.now ≤ 255 }
    ensures hosted { IsHosted options.now.hosting result.rules }
    ensures hold { result.rules.hold ≡ 1000 * options.now.hold }
{
    let name = options.name.as_bytes();
    ConsoleSetup {
        name: &name[..name.len().min(NAME_MAX)],
        rules: rules_of(&options.hosting, TEXT_LIMIT, options.hold, None),
    }
}
