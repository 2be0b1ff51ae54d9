//! SetPixelFormat, RFC 6143 section 7.5.1: the format that a viewer wants.

use crate::session::Session;
use rfb_picture::Rect;
use rfb_pixel::Format;

impl Session {
    ghost use Rattle.rfb_server.specs.session.Sessions.{HasFormat, StaysCaughtUp};

    /// Updates are sent in the format from here on, and what was sent in another is known no more.
    pub(crate) fn set_format(&mut self, format: Format)
        ensures format { HasFormat format self.old self.new }
        ensures caught_up { StaysCaughtUp self.old self.new }
    {
        let all = Rect {
            x: 0,
            y: 0,
            w: self.known.width(),
            h: self.known.height(),
        };
        self.format = format;
        self.known.forget();
        self.claim = None;
        self.marks.add(all);
    }
}
