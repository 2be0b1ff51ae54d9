//! The screen that `serve` shows: a pattern that scrolls up by a row at each step.

ghost use Rattle.std.specs.Prelude.{◌≡◌, ◌+◌, ◌*◌, ◌%◌, ◌<◌, ◌≤◌, ℕ, length, slice_index_or, IfOk};
ghost use Rattle.std.specs.Prelude.{OnOk, OnErr};
ghost use Rattle.rfb_codec.specs.Effect.{IsAlike};
ghost use Rattle.rfb_picture.specs.Grid.{Holds, copied, filled, with_row};
ghost use Rattle.rfb_pixel.specs.declared.colour.Colour.{Colour};
ghost use Rattle.rfb_server.specs.Hints.{hints_of, with_hint};
ghost use Rattle.rfb_server.specs.Model.{Draws, HoldsBoth, screen_of};
ghost use Rattle.rfb.specs.Scene.{begun_at, hinted, moved_up, pattern, step_colour, stepped};
ghost use Rattle.rfb.specs.Scene.{last_row, upper_rows};

use rfb_picture::Rect;
use rfb_pixel::Colour;
use rfb_server::Server;
use rfb_session::Scene;
use std::alloc::{AllocError, Global};

/// The steps of the pattern.
#[derive(Drop)]
pub struct TestScene {
    // The number of steps that were drawn, modulo 256. Colours depend on no more of it.
    step: u8,
}

impl TestScene {
    /// The scene of a server, on whose screen it draws the pattern. Without memory for a row it
    /// gives the error, and draws nothing.
    pub fn new(alloc: Global, server: &mut Server) -> Result<TestScene, AllocError>
        ensures drawn { OnOk result
            (Draws (pattern (screen_of server.old)) server.old server.new) }
        ensures step { IfOk result (λ scene. scene.step ≡ 0) }
        ensures hints { hints_of server.new ≡ hints_of server.old }
        ensures kept { OnErr result (server.new ≡ server.old) }
    {
        let width = server.screen().width();
        let mut row = Vec::new(alloc);
        row.resize(usize::from(width), pattern_at(0, 0))?;
        draw_pattern(server, &mut row);
        Ok(TestScene { step: 0 })
    }
}

// Gives each place of a screen the colour that it begins with. `row` is used for each row in turn.
fn draw_pattern(server: &mut Server, row: &mut [Colour])
    requires whole { length row.old ≡ (screen_of server.old).width }
    ensures drawn { Draws (pattern (screen_of server.old)) server.old server.new }
    ensures hints { hints_of server.new ≡ hints_of server.old }
{
    let height = server.screen().height();
    for y in 0..height {
        paint(usize::from(y), row);
        put(server, y, row);
    }
}

// Gives each place of row `y` the colour that it begins with.
fn paint(y: usize, row: &mut [Colour])
    requires columns { length row.old ≤ 65535 }
    requires rows { y ≤ 65535 }
    ensures { (x : ℕ) (c : Colour) → x < length row.new
        → slice_index_or row.new x c ≡ begun_at x y }
{
    for x in 0..row.len() {
        row[x] = pattern_at(x, y);
    }
}

// Row `y` gets these colours.
fn put(server: &mut Server, y: u16, row: &[Colour])
    requires whole { length row.now ≡ (screen_of server.old).width }
    requires inside { y < (screen_of server.old).height }
    ensures drawn { Draws (with_row 0 y row.now (screen_of server.old)) server.old server.new }
    ensures hints { hints_of server.new ≡ hints_of server.old }
{
    let _ = server.put(0, y, row);
}

// The colour that a place begins with.
fn pattern_at(x: usize, y: usize) -> Colour
    requires column { x ≤ 65535 }
    requires row { y ≤ 65535 }
    ensures { result ≡ begun_at x y }
{
    Colour::of_bytes(low(4 * x), low(4 * y), low(2 * (x + y)))
}

// A number modulo 256.
fn low(number: usize) -> u8
    ensures { result ≡ number % 256 }
{
    (number % 256) as u8
}

impl Scene for TestScene {
    ghost shows = { λ old before after new.
        (after ≡ stepped new.step before) × (new.step ≡ (old.step + 1) % 256) };

    fn draw(&mut self, server: &mut Server)
        ensures drawn { Draws (screen_of server.new) server.old server.new }
        ensures size { IsAlike (screen_of server.new) (screen_of server.old) }
        ensures shown { (screen_of server.new ≡ stepped self.new.step (screen_of server.old))
            × (self.new.step ≡ (self.old.step + 1) % 256) }
        ensures counted { self.new.step ≡ (self.old.step + 1) % 256 }
        ensures step { screen_of server.new ≡ stepped self.new.step (screen_of server.old) }
        ensures hints { hints_of server.new
            ≡ hinted (screen_of server.old) (hints_of server.old) }
    {
        self.step = self.step.wrapping_add(1);
        if server.screen().height() > 0 {
            draw_step(server, self.step);
        }
    }
}

// A step: where there is more than one row, all move up by one, which the viewer may be sent as a
// copy; and the last one gets a colour.
fn draw_step(server: &mut Server, step: u8)
    requires some { 1 ≤ (screen_of server.old).height }
    ensures drawn { Draws (stepped step (screen_of server.old)) server.old server.new }
    ensures hints { hints_of server.new ≡ hinted (screen_of server.old) (hints_of server.old) }
{
    let w = server.screen().width();
    let above = server.screen().height() - 1;
    move_up(server, w, above);
    let last = Rect {
        x: 0,
        y: above,
        w,
        h: 1,
    };
    fill(server, last, colour_of(step));
}

// The first `above` rows get what those below have, which the viewer may be sent as a copy.
fn move_up(server: &mut Server, w: u16, above: u16)
    requires columns { w ≡ (screen_of server.old).width }
    requires rows { above + 1 ≡ (screen_of server.old).height }
    ensures drawn { Draws (moved_up (screen_of server.old)) server.old server.new }
    ensures hints { hints_of server.new ≡ hinted (screen_of server.old) (hints_of server.old) }
{
    if above == 0 {
        return;
    }
    let moved = Rect {
        x: 0,
        y: 0,
        w,
        h: above,
    };
    copy(server, moved);
    hint(server, moved);
}

// A rectangle gets what the one a row below has.
fn copy(server: &mut Server, moved: Rect)
    requires inside { HoldsBoth (screen_of server.old) moved 0 1 }
    ensures drawn { Draws (copied moved 0 1 (screen_of server.old)) server.old server.new }
    ensures hints { hints_of server.new ≡ hints_of server.old }
{
    let _ = server.copy(moved, 0, 1);
}

// A hint to the server: a rectangle looks as the one a row below did.
fn hint(server: &mut Server, moved: Rect)
    requires inside { HoldsBoth (screen_of server.old) moved 0 1 }
    ensures drawn { Draws (screen_of server.old) server.old server.new }
    ensures hints { hints_of server.new
        ≡ with_hint (record { to = moved; sx = 0; sy = 1 }) (hints_of server.old) }
{
    let _ = server.hint(moved, 0, 1);
}

// A rectangle gets a colour.
fn fill(server: &mut Server, rect: Rect, colour: Colour)
    requires inside { Holds (screen_of server.old) rect }
    ensures drawn { Draws (filled rect colour (screen_of server.old)) server.old server.new }
    ensures hints { hints_of server.new ≡ hints_of server.old }
{
    let _ = server.fill(rect, colour);
}

// The colour that a step fills the last row with.
fn colour_of(step: u8) -> Colour
    ensures { result ≡ step_colour step }
{
    Colour::of_bytes(255 * (step % 2), 0, low(16 * usize::from(step)))
}
