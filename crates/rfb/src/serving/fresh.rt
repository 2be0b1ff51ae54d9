//! One connection, served by a fresh server.

ghost use Rattle.std.specs.Prelude.{◌≡◌};
ghost use Rattle.rfb.specs.ScriptRun.{IsFreshServer};
ghost use Rattle.rfb.specs.Service.{IsServed, IsServedFrom};
ghost use Rattle.rfb.specs.declared.serving.screen.ServedScreen.TheVariants as ServedScreen;

use crate::defaults::fresh_server;
use crate::scene::TestScene;
use crate::serving::screen::ServedScreen;
use crate::serving::still::{Still, draw_picture};
use rfb_server::Server;
use rfb_session::language::Screen;
use rfb_session::netpbm::Pixmap;
use rfb_session::{EngineFault, Scene, Tally, dispose, serve};
use std::alloc::Global;
use std::io::{Read, Write};

/// Serves a reader and a writer with a fresh screen.
pub fn serve_fresh<R: Read + Drop, W: Write + Drop>(
    alloc: Global,
    screen: &ServedScreen,
    reader: R,
    writer: W,
) -> Result<u64, EngineFault>
    ensures { IsServed screen.now (R.remaining reader) (W.contents writer) result }
{
    match screen {
        ServedScreen::Scene(size) => serve_scene(alloc, *size, reader, writer),
        ServedScreen::Picture(pixmap) => serve_picture(alloc, pixmap, reader, writer),
    }
}

// The same with the test scene.
fn serve_scene<R: Read + Drop, W: Write + Drop>(
    alloc: Global,
    size: Screen,
    reader: R,
    writer: W,
) -> Result<u64, EngineFault>
    ensures { IsServed (ServedScreen.Scene size) (R.remaining reader) (W.contents writer) result }
{
    let mut server = fresh_server(alloc, size)?;
    let served = serve_first_scene(alloc, size, &mut server, reader, writer);
    dispose(server);
    served
}

// The same on a server that was fed nothing.
fn serve_first_scene<R: Read + Drop, W: Write + Drop>(
    alloc: Global,
    size: Screen,
    server: &mut Server,
    reader: R,
    writer: W,
) -> Result<u64, EngineFault>
    requires fresh { IsFreshServer size server.old }
    ensures { IsServed (ServedScreen.Scene size) (R.remaining reader) (W.contents writer) result }
{
    let mut scene = TestScene::new(alloc, server)?;
    serve_shown(alloc, server, &mut scene, reader, writer)
}

// Serves them with a picture.
fn serve_picture<R: Read + Drop, W: Write + Drop>(
    alloc: Global,
    pixmap: &Pixmap,
    reader: R,
    writer: W,
) -> Result<u64, EngineFault>
    ensures { IsServed (ServedScreen.Picture pixmap.now)
        (R.remaining reader) (W.contents writer) result }
{
    let size = Screen {
        width: pixmap.width,
        height: pixmap.height,
    };
    let mut server = fresh_server(alloc, size)?;
    let served = serve_first_picture(alloc, size, pixmap, &mut server, reader, writer);
    dispose(server);
    served
}

// The same on a server that was fed nothing.
fn serve_first_picture<R: Read + Drop, W: Write + Drop>(
    alloc: Global,
    size: Screen,
    pixmap: &Pixmap,
    server: &mut Server,
    reader: R,
    writer: W,
) -> Result<u64, EngineFault>
    requires fresh { IsFreshServer size server.old }
    requires columns { size.width ≡ pixmap.now.width }
    requires rows { size.height ≡ pixmap.now.height }
    ensures { IsServed (ServedScreen.Picture pixmap.now)
        (R.remaining reader) (W.contents writer) result }
{
    draw_picture(server, pixmap);
    serve_shown(alloc, server, &mut Still, reader, writer)
}

// Serves them with a server and its scene.
fn serve_shown<R: Read + Drop, W: Write + Drop, S: Scene>(
    alloc: Global,
    server: &mut Server,
    scene: &mut S,
    reader: R,
    writer: W,
) -> Result<u64, EngineFault>
    ensures { IsServedFrom (R.remaining reader) (W.contents writer) server.old result }
{
    let mut source = Tally::new(reader);
    let mut sink = Tally::new(writer);
    serve(alloc, &mut source, &mut sink, server, scene)
}
