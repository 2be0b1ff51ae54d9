//! What a server shows.

ghost use Rattle.rfb_codec.specs.Effect.{IsAlike};
ghost use Rattle.rfb_server.specs.Model.{Draws, screen_of};
ghost use Rattle.rfb_session.specs.Turns.{Showing};

use rfb_server::Server;

/// Draws on a server's screen, each time that it has sent an update.
pub trait Scene {
    // What one drawing may be: how the scene is, a screen, the screen that it makes of it, and how
    // the scene is then.
    ghost shows: { Showing Self };

    /// The next drawings and hints. Nothing else of the server changes but its screen's colours.
    fn draw(&mut self, server: &mut Server)
        ensures drawn { Draws (screen_of server.new) server.old server.new }
        ensures size { IsAlike (screen_of server.new) (screen_of server.old) }
        ensures shown { shows self.old (screen_of server.old) (screen_of server.new) self.new };
}
