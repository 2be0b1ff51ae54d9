//! What a server lends of its screen and of its notes.

ghost use Rattle.std.specs.Prelude.{◌≡◌, ℕ, List};

use crate::server::Server;
use rfb_picture::{Area, Picture};
use rfb_pixel::{Colour, Format};

impl Server {
    ghost use Rattle.rfb_server.specs.Server.{Serving, ServerState};
    ghost use Rattle.rfb_server.specs.Model.{StandsFor, screen_of, notes_of, taken_of};
    ghost use Rattle.rfb_server.specs.Record.{ShowsKnown, TellsKnown};

    /// How many bytes `feed` has used in all, as far as 64 bits go. After a fault they are those up
    /// to the byte with which it came: the first with which the bytes are refused.
    pub fn taken(&self) -> u64
        ensures { result ≡ taken_of self.now }
    {
        self.taken
    }

    /// Lends the screen.
    pub fn screen(&self) -> &Picture<Colour>
        ensures { result.now ≡ screen_of self.now }
    {
        &self.screen
    }

    /// Lends what the viewer asked for since the latest update.
    pub fn asked(&self) -> &Area
        ensures value { (serving : Serving) (s : ServerState) (prefix : List ℕ)
            → StandsFor serving self.now s prefix → result.now ≡ s.area }
        ensures noted { result.now ≡ (notes_of self.now).area }
        ensures columns { result.now.asked.width ≡ (screen_of self.now).width }
        ensures rows { result.now.asked.height ≡ (screen_of self.now).height }
    {
        self.session.asked()
    }

    /// Lends what is recorded of the viewer: at each place that `known` has as asked the pixel that
    /// the viewer has or will have, in the format of the session. Elsewhere it says nothing.
    pub fn recorded(&self) -> &Picture<u32>
        ensures value { (serving : Serving) (s : ServerState) (prefix : List ℕ)
            → StandsFor serving self.now s prefix → ShowsKnown s.known result.now }
        ensures noted { ShowsKnown (notes_of self.now).known result.now }
        ensures columns { result.now.width ≡ (screen_of self.now).width }
        ensures rows { result.now.height ≡ (screen_of self.now).height }
    {
        self.session.recorded()
    }

    /// Lends the places where it is known what the viewer has, as asked ones.
    pub fn known(&self) -> &Area
        ensures value { (serving : Serving) (s : ServerState) (prefix : List ℕ)
            → StandsFor serving self.now s prefix → TellsKnown s.known result.now }
        ensures noted { TellsKnown (notes_of self.now).known result.now }
        ensures columns { result.now.asked.width ≡ (screen_of self.now).width }
        ensures rows { result.now.asked.height ≡ (screen_of self.now).height }
    {
        self.session.known()
    }

    /// The format that updates are sent in.
    pub fn format(&self) -> Format
        ensures value { (serving : Serving) (s : ServerState) (prefix : List ℕ)
            → StandsFor serving self.now s prefix → result ≡ s.form }
        ensures noted { result ≡ (notes_of self.now).form }
    {
        self.session.format()
    }
}
