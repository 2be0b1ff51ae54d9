//! What a session tracks of the places of its screen.

ghost use Rattle.std.specs.Prelude.{◌≡◌, IfOk};
ghost use Rattle.rfb_picture.specs.Area.{no_places};
ghost use Rattle.rfb_server.specs.session.Marks.{AreAllPlaces, AreUntouched};

use crate::record::Record;
use rfb_picture::{Area, PlaceSet, Rect};
use std::alloc::{AllocError, Global};

/// What the viewer has, what it asked for, and where the screen may differ from that.
#[derive(Drop)]
pub(crate) struct Places {
    pub known: Record,
    pub area: Area,
    pub marks: PlaceSet,
}

impl Places {
    /// Nothing is known or asked for yet, and every place is marked. Where there is no memory it
    /// gives the error, and nothing is kept.
    pub fn new(alloc: Global, width: u16, height: u16) -> Result<Places, AllocError>
        ensures { IfOk result (λ t. AreUntouched width height t.known t.area t.marks) }
    {
        let known = Record::new(alloc, width, height)?;
        let (area, marks) = area_and_marks(alloc, width, height)?;
        Ok(Places { known, area, marks })
    }
}

// An area where nothing is asked, and the set of all places. Each function here has one thing at
// most to drop where memory is wanting: with several, its proof would be long.
fn area_and_marks(alloc: Global, width: u16, height: u16) -> Result<(Area, PlaceSet), AllocError>
    ensures area { IfOk result (λ both. both.0 ≡ no_places width height) }
    ensures columns { IfOk result (λ both. both.0.asked.width ≡ width) }
    ensures rows { IfOk result (λ both. both.0.asked.height ≡ height) }
    ensures marks { IfOk result (λ both. AreAllPlaces width height both.1) }
{
    let area = Area::new(alloc, width, height)?;
    let marks = all_places(alloc, width, height)?;
    Ok((area, marks))
}

// The set of all places.
fn all_places(alloc: Global, width: u16, height: u16) -> Result<PlaceSet, AllocError>
    ensures { IfOk result (AreAllPlaces width height) }
{
    let mut set = PlaceSet::new(alloc, width, height)?;
    set.add(Rect {
        x: 0,
        y: 0,
        w: width,
        h: height,
    });
    Ok(set)
}
