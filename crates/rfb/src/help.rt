//! What `--help` says.

/// The version that `--version` prints after the program's name.
pub const VERSION: &str = "0.2.0";

/// What comes below the words in help.
pub enum Topic {
    /// The statuses, below the commands.
    Statuses,
    /// The language of scripts.
    Language,
    /// What `loop` does with it.
    Loopback,
    /// What a recording is.
    Recordings,
    /// What viewers are served.
    Viewers,
    /// What servers are asked for.
    Servers,
    /// The lines of a share's owner, and those that it gets.
    Owners,
    /// What a relay does, and the lines that it writes.
    Relays,
    /// The lines of a test rig, and those that it gets.
    Rigs,
}

impl Topic {
    /// Its text.
    pub fn text(&self) -> &'static str {
        match self {
            Topic::Statuses => STATUSES,
            Topic::Language => LANGUAGE,
            Topic::Loopback => LOOPBACK,
            Topic::Recordings => RECORDINGS,
            Topic::Viewers => VIEWERS,
            Topic::Servers => SERVERS,
            Topic::Owners => OWNERS,
            Topic::Relays => RELAYS,
            Topic::Rigs => RIGS,
        }
    }
}

const STATUSES: &str = "\
Status:
  0  the work is done: the picture or this text is on standard output
  1  it failed, and the last line on standard error says why
  2  the command line is wrong: standard error says what

With --explain, at any command, sentences on standard error say how it goes and why it fails. They
come without it at a terminal, with RFB_EXPLAIN=1 in the environment, and at `share`, `relay` and
`drive`.

`rfb help faults` has refusals and faults by number, docs/PROTOCOL.md the language of scripts.";

const LANGUAGE: &str = "\
A script has a line for each step. One space parts two words:
  screen W H                  first: the size of the screen, 1 to 4096 pixels a side
  viewer F E..                second, or not at all: the format and the encodings that it takes
  fill X Y W H RRGGBB         the server draws; twelve digits are four for each component
  copy X Y W H SX SY          the same, from the rectangle at (SX, SY)
  hint X Y W H SX SY          a hint: a rectangle looks as the one at (SX, SY) did
  request full|inc X Y W H    the viewer asks for a rectangle, or for what changed there
  format F                    the viewer asks for another format
  compose                     the server composes an update, if one is due
  toserver N, toviewer N      at most N of the bytes in flight arrive
  settle                      all bytes arrive, eight times each way

With several viewers, each in a slot S from 0 to 7:
  hub W H                     first, in place of screen
  join S shared|sole F E..    a viewer comes, beside others or to have the screen alone
  leave S                     it goes
  foreign S HEX               bytes that it did not send reach its session
  at S request .., at S settle, ..
                              a line of that viewer, or of its session
  show S                      last: whose picture is written

F is rgb888, rgb565, bgr233 or rgb101010; E is raw, copyrect, rre or hextile.
docs/PROTOCOL.md has the language of scripts, with all that is bad in it.

Example:
  rfb script < examples/first.script > picture.ppm";

const LOOPBACK: &str = "\
Both ends are in this process, and talk over a connection of 127.0.0.1. At each delivery at most
4096 bytes are written before the other end reads them. What is printed is what `script` prints.
There is no hub here. `rfb help script` and docs/PROTOCOL.md have the language of scripts.

Example:
  rfb loop < examples/first.script > picture.ppm";

const RECORDINGS: &str = "\
A recording is all that a server sent, from its greeting to the end of a message. What a viewer
would answer is dropped. With --updates U the picture is the one right after the Uth update. What
comes later is not looked at, and a recording of fewer updates is played whole.
docs/PROTOCOL.md has the formats, and the faults by number.

Examples:
  rfb play --format rgb565 < server.rfb > picture.ppm
  rfb play --updates 2 -i server.rfb -o picture.ppm";

const VIEWERS: &str = "\
Each connection has a fresh screen, with a test picture or the one of --picture. After each update
the test picture scrolls up by a row. A picture of --picture never changes, so a viewer that has all
of it gets no more updates, unless it asks for all again. As soon as a connection ends, a line on
standard output says `ok` and how many updates were sent, or `fault` and which fault ended it; then
the next one is served. With --timeout S a viewer that sends nothing for S seconds, or takes nothing
of what is sent, is disconnected with `fault 29 Device`.

A picture is a PPM (P6) of 1 to 4096 pixels a side, with 255 or 65535 as its largest component. It
has its own size, so it cannot be used with --width or --height. What is wrong with a file is
reported as `bad picture`, with a number and a sentence, and nobody is served.
docs/PROTOCOL.md has the faults by number.

Examples, with a viewer of TigerVNC:
  rfb serve --port 5950 --width 640 --height 480 &
  vncviewer 127.0.0.1::5950
  rfb serve --port 5950 --picture status.ppm --forever";

const SERVERS: &str = "\
A viewer asks for the whole screen and then, after each update, for what changed, until it has the
updates that --updates asks for. A server sends none while nothing changes. Then the picture is
written. With --record standard output gets the server's bytes up to there instead, as they come:
`rfb play` makes the same picture of them, in the same format. The server must offer the security
type None.
With --follow a picture is written after each update, until --updates have come or the server ends
between two messages. --fps N asks for at most N a second, and what changes faster comes as one. A
write that fails ends it. --follow cannot be used with --record or --partial.
With --timeout S a connection that is refused is tried again, and waiting ends after S seconds.
With --partial the picture of what came by then is written; the status is 1 all the same.
docs/PROTOCOL.md has the formats, and the faults by number.

Examples:
  rfb view example.org:1 -o picture.ppm
  rfb view --host example.org --port 5900 --encodings hextile,copyrect --updates 3 > picture.ppm
  rfb view --port 5901 --record > server.rfb
  rfb view localhost:1 --follow | ffmpeg -f image2pipe -c:v ppm -i - screen.mp4";

const OWNERS: &str = "\
Standard input has a line for each thing that is drawn. One space parts two words:
  screen W H                  first: the size of the screen, 1 to 4096 pixels a side
  fill X Y W H RRGGBB         a rectangle gets a colour; twelve digits are four for each component
  copy X Y W H SX SY          it gets what the one at (SX, SY) had
  scroll X Y W H DX DY        what is in it moves DX to the right, DY down; with a minus, left or up
  hint X Y W H SX SY          a hint for viewers: it looks as the one at (SX, SY) did
  pixels X Y W H              three bytes for each of its pixels follow, and a newline
  hold                        what follows is a scene: no viewer is shown a part of it
  show                        the scene is whole; without this line it is after --hold seconds
  end N                       the viewer of seat N is disconnected
  quit                        all ends
A bad line is reported on standard error with its number, and nothing of it is drawn. Sentences there
say why, and why a viewer leaves. When standard input ends the screen stays as it is.

Standard output has a line for each thing that viewers do; N is a seat, 0 to 7:
  come N ADDRESS              a connection took the seat
  join N                      its handshake is done: it is a viewer
  leave N ok, leave N fault C NAME
                              it went, or was disconnected for a fault
  busy ADDRESS                a connection got no seat
  key N down|up K             a key, by its keysym
  pointer N BUTTONS X Y       the pointer, and the buttons that are down, a bit each
  text N HEX                  a text that was cut, at most 1024 bytes of it

Example:
  (echo screen 640 480; echo fill 0 0 640 480 336699) | rfb share --port 5950";

const RELAYS: &str = "\
A server's screen for up to eight viewers at once. The server has one viewer, which is this one. The
server must offer the security type None, and have a screen of at most 4096 pixels a side. Viewers
wait until its first picture is there. Their keys, pointers and texts go to the server in the order
in which they came. A text or a bell of the server's goes to none of them. Standard input is not
read. The relay ends with the server, with status 1, or by --until-idle. With --retry S a server that
went away is called again after S seconds, and so on until it comes. Until it has sent a whole
picture viewers keep the last one, and what they do goes nowhere. Where its screen has another size
they are disconnected.

A line on standard output says what the server does:
  server up W H NAME          it is there, with a screen of this size; its name in hexadecimal digits
  server bell                 it rings
  server text HEX             it cuts a text; at most 1024 bytes of it are here
  server down WHY             it goes away: closed, failed, or a fault by its number and name
The lines that say what viewers do are those of `rfb help share`.
docs/PROTOCOL.md has the faults by number.

Example, of a server at display 1 that viewers have at port 5950:
  rfb relay localhost:1 --port 5950";

const RIGS: &str = "\
Lines are done one after another: each LINE, or those of standard input or of a file. The first is
begun once the server's first update is whole, each of the others once the one before it is done. One
space parts two words; an empty line and one that begins with # are skipped.
  key NAME..                  keys go down and up; with hyphens together, as ctrl-alt-delete
  down NAME, up NAME          one goes down, or up
  type TEXT                   the rest of the line is typed
  move X Y, drag X Y          the pointer goes there; with the first button down
  click [BUTTON] [X Y]        a button goes down and up, 1 to 8; double does it twice
  wheel up|down N             the wheel turns
  paste HEX, paste-file FILE  a text is sent, for the server's clipboard
  save FILE [X Y W H]         what the screen shows is written as PPM, or a part of it
  expect FILE [at X Y] [within N]
                              waits until the screen shows the picture of a PPM, each component
                              within N of 255
  still S                     waits until nothing has changed for S seconds
  wait S                      waits for S seconds
  until-change [X Y W H]      waits until the screen changes, or a part of it
  timeout S                   the lines after it have S seconds each
A NAME is that of X11's keysym, as Return, F5 or KP_Enter; one character; or a number as 0xFF0D. A bad
line, and one that is not done in its time, ends all with status 1: a sentence says why.

Standard output has a line for each thing that happens:
  ready W H NAME              the first update is whole; the name in hexadecimal digits
  done LINE                   a line is done, by its number
  changed X Y W H             with --tell: where an update changed the screen
  bell, text HEX              the server rings, or cuts a text
docs/PROTOCOL.md says of each line what is sent for it.

Example:
  rfb drive example.org:1 'type make' 'key Return' 'still 2' 'save built.ppm'";
