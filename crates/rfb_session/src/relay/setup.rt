//! What a relay is asked for.

ghost use Rattle.std.specs.Prelude.{◌≡◌, ◌≤◌, [], ℕ, length, cond, is_some, option_copied, take};
ghost use Rattle.rfb_viewer.specs.Model.{StandsFor};
ghost use Rattle.rfb_viewer.specs.Viewer.{first_viewer};

use crate::beginning::beginning_of;
use crate::console::Rules;
use crate::link::copy_of;
use crate::relay::NAME_MAX;
use arrayvec::ArrayVec;
use rfb_viewer::{Viewer, ViewerSetup};
use std::alloc::Global;

/// What a relay is made with.
#[derive(Drop)]
pub struct RelaySetup<'a> {
    /// The name that viewers get, its first 255 bytes at most. Where there is none they get the
    /// server's.
    pub name: Option<&'a [u8]>,
    /// The rules that it goes by. `hold` is how long an update of the server's may take before
    /// what has come of it is shown, and `retry` the pause before a server that went away is
    /// called again.
    pub rules: Rules,
    /// What the server's viewers are made with.
    pub viewer: ViewerSetup,
}

// What it keeps of that.
#[derive(Debug, Drop)]
pub(crate) struct Given {
    // The name that viewers get, unless they get the server's.
    name: ArrayVec<u8, NAME_MAX>,
    is_named: bool,
    pub viewer: ViewerSetup,
}

impl Given {
    ghost use Rattle.rfb_session.specs.relay.Setup.{name_by, viewing_by};

    /// The first 255 bytes of a name, and what viewers are made with.
    pub(crate) fn of(name: Option<&[u8]>, viewer: ViewerSetup) -> Given
        ensures { result.viewer ≡ viewer }
    {
        Given {
            name: kept_name(name.unwrap_or(&[])),
            is_named: name.is_some(),
            viewer,
        }
    }

    /// The name that viewers get: the one that was given, or the server's.
    pub(crate) fn name<'x>(&'x self, told: &'x [u8]) -> &'x [u8]
        requires told { length told.now ≤ 255 }
        ensures value { result.now ≡ name_by self.now told.now }
        ensures few { length result.now ≤ 255 }
    {
        if self.is_named {
            self.name.as_slice()
        } else {
            told
        }
    }

    /// A viewer that was told nothing.
    pub(crate) fn next_viewer(&self, alloc: Global) -> Viewer
        ensures { StandsFor (viewing_by self.now.viewer) result first_viewer [] }
    {
        let setup = &self.viewer;
        Viewer::new(
            alloc,
            setup.format,
            copy_of(&setup.encodings),
            setup.limit,
            setup.shared,
            setup.max_places,
            setup.text_limit,
        )
    }
}

/// As much of a name as a session takes.
pub(crate) fn kept_name(name: &[u8]) -> ArrayVec<u8, NAME_MAX>
    ensures { result.items ≡ take 255 name.now }
{
    let mut kept = ArrayVec::new();
    let _ = kept.try_extend_from_slice(beginning_of(name, NAME_MAX));
    kept
}
