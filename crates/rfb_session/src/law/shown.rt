//! Laws of what a share shows: its owner's drawing, or the picture of a viewer.

ghost use Rattle.std.specs.Prelude.{◌≡◌, ◌≢◌, ℕ, List, Option, None, Some};
ghost use Rattle.rfb_wire.specs.stream.End.{FedBy};
ghost use Rattle.rfb_viewer.specs.declared.fault.ViewerFault.{ViewerFault};
ghost use Rattle.rfb_viewer.specs.declared.viewer.Viewer.{Viewer};
ghost use Rattle.rfb_viewer.specs.Model.{StandsFor, fault_of};
ghost use Rattle.rfb_viewer.specs.Told.{ViewerTold};
ghost use Rattle.rfb_viewer.specs.Viewer.{Viewing, ViewerState};
ghost use Rattle.rfb_viewer.specs.Viewer.{viewer as viewer_end};
ghost use Rattle.rfb_session.specs.declared.share.Share.{Share};
ghost use Rattle.rfb_session.specs.Mirrors.{StandsOrFailed};
ghost use Rattle.rfb_session.specs.Share.{screen_of, canvas_of, viewer_of};

/// The screen of a share is what its owner draws on, or it is the picture of a viewer, and never
/// both.
pub fn a_screen_is_drawn_or_seen()
    ensures drawn { (share : Share) → viewer_of share ≡ None →
        canvas_of share ≡ Some (screen_of share) }
    ensures seen { (share : Share) → viewer_of share ≢ None → canvas_of share ≡ None }
{}

/// A viewer that was made and fed may be shown: it stands for what it was fed, or it has failed.
/// `Viewer::new` and `Viewer::feed` say what is asked here.
pub fn a_viewer_may_be_shown()
    ensures stands { (viewing : Viewing) (viewer : Viewer) (s : ViewerState) (prefix : List ℕ) →
        StandsFor viewing viewer s prefix → ∥ StandsOrFailed viewer ∥₁ }
    ensures failed { (viewer : Viewer) (fault : ViewerFault) → fault_of viewer ≡ Some fault →
        ∥ StandsOrFailed viewer ∥₁ }
    ensures fed { (old new : Viewer) (bytes : List ℕ) (event : Option ViewerTold) →
        ((viewing : Viewing) →
        FedBy (viewer_end viewing) (StandsFor viewing) old bytes event new) →
        fault_of old ≡ None → ∥ StandsOrFailed old ∥₁ → ∥ StandsOrFailed new ∥₁ }
{}
