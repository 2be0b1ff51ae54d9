//! A picture that is served as it is: nothing changes it.

ghost use Rattle.std.specs.Prelude.{◌≡◌};
ghost use Rattle.rfb_picture.specs.Grid.{with_rows};
ghost use Rattle.rfb_server.specs.Model.{AreOf, Draws, screen_of};
ghost use Rattle.rfb_session.specs.netpbm.File.{picture_of};

use rfb_picture::Rect;
use rfb_pixel::Colour;
use rfb_server::Server;
use rfb_session::Scene;
use rfb_session::netpbm::Pixmap;

/// A scene in which nothing moves. So a viewer that asks for what has changed is answered no more.
#[derive(Drop)]
pub struct Still;

impl Scene for Still {
    ghost shows = { λ old before after new. after ≡ before };

    fn draw(&mut self, _server: &mut Server) {}
}

/// Draws a picture over the whole screen, which has its size.
pub fn draw_picture(server: &mut Server, pixmap: &Pixmap)
    requires columns { (screen_of server.old).width ≡ pixmap.now.width }
    requires rows { (screen_of server.old).height ≡ pixmap.now.height }
    ensures drawn { Draws (picture_of pixmap.now) server.old server.new }
{
    let whole = Rect {
        x: 0,
        y: 0,
        w: pixmap.width,
        h: pixmap.height,
    };
    put_whole(server, whole, pixmap.places.as_slice());
}

// Puts colours there.
fn put_whole(server: &mut Server, whole: Rect, places: &[Colour])
    requires inside { AreOf (screen_of server.old) whole places.now }
    ensures { Draws (with_rows whole places.now (screen_of server.old)) server.old server.new }
{
    let _ = server.put_rows(whole, places);
}
