//! A server, its viewer, and the bytes in flight between them.

ghost use Rattle.std.specs.Prelude.{◌≡◌, ◌≤◌, [], min, length, take, drop, IfOk, OnOk, OnErr};
ghost use Rattle.rfb_hello.specs.Version.{version_text};
ghost use Rattle.rfb_hello.specs.declared.version.Version.TheVariants.{V38};
ghost use Rattle.rfb.specs.Few.{cut_by};
ghost use Rattle.rfb.specs.ScriptRun.{IsFreshServer, encodings_of, format_of};
ghost use Rattle.rfb.specs.Recording.{IsFresh};

use crate::defaults::{copy_of, fresh_server, fresh_viewer};
use crate::fault::Fault;
use crate::loopback::arriving::{reach_server, reach_viewer, take_some};
use crate::loopback::link::{Link, PART};
use crate::loopback::sent::{compose, cut_text, in_flight, of_drawing, send, send_list};
use crate::script::Wants;
use crate::script::steps::wishes;
use rfb_server::Server;
use rfb_session::language::Screen;
use rfb_session::{Event, Refused, dispose};
use rfb_viewer::Viewer;
use std::alloc::Global;
use std::collections::VecDeque;
use std::io::{Read, Write};

/// Both ends, and what was sent and has not arrived.
#[derive(Drop)]
pub struct Ends {
    alloc: Global,
    server: Server,
    pub viewer: Viewer,
    to_server: VecDeque<u8>,
    to_viewer: VecDeque<u8>,
}

impl Ends {
    ghost use Rattle.rfb.specs.Delivery.{ReachesServer, ReachesViewer, server_end, viewer_end};
    ghost use Rattle.rfb.specs.Loopback.{AsksMemory, TakesEvent};

    /// Two fresh ends; the server's greeting is in flight.
    pub fn new(alloc: Global, screen: Screen, wants: &Option<Wants>) -> Result<Ends, Fault>
        ensures server { IfOk result (λ ends. IsFreshServer screen ends.server) }
        ensures viewer { IfOk result (λ ends.
            IsFresh (format_of wants.now) (encodings_of wants.now) ends.viewer) }
        ensures to_server { IfOk result (λ ends. ends.to_server.items ≡ []) }
        ensures to_viewer { IfOk result (λ ends. ends.to_viewer.items ≡ version_text V38) }
    {
        let server = fresh_server(alloc, screen)?;
        let to_viewer = match in_flight(alloc, &server.greeting()) {
            Ok(to_viewer) => to_viewer,
            Err(error) => {
                dispose(server);
                return Err(error);
            }
        };
        let (format, encodings) = wishes(wants);
        Ok(Ends {
            alloc,
            server,
            viewer: fresh_viewer(alloc, format, encodings),
            to_server: VecDeque::new(alloc),
            to_viewer,
        })
    }

    /// Takes an event that is no delivery, and answers its refusal, if it was refused. At a
    /// delivery nothing happens here. An error comes only where memory is asked for; what was to be
    /// sent may be lost then.
    pub fn take(&mut self, event: &Event) -> Result<Option<Refused>, Fault>
        requires few { cut_by event.now ≤ 1048576 }
        ensures takes { IfOk result (λ refused. TakesEvent self.old event.now refused self.new) }
        ensures stopped { OnErr result (AsksMemory self.old event.now) }
    {
        match event {
            Event::Fill(rect, colour) => Ok(of_drawing(self.server.fill(*rect, *colour))),
            Event::Put(x, y, row) => Ok(of_drawing(self.server.put(*x, *y, row))),
            Event::Copy(rect, sx, sy) => Ok(of_drawing(self.server.copy(*rect, *sx, *sy))),
            Event::Hint(rect, sx, sy) => Ok(of_drawing(self.server.hint(*rect, *sx, *sy))),
            Event::Request(incremental, rect) => {
                let called = self.viewer.request(*incremental, *rect);
                send(called, &mut self.to_server)
            }
            Event::SetFormat(format) => {
                let called = self.viewer.set_format(*format);
                send(called, &mut self.to_server)
            }
            Event::SetEncodings(encodings) => {
                let called = self.viewer.set_encodings(copy_of(encodings));
                send_list(&called, &mut self.to_server)
            }
            Event::Key(down, key) => send(self.viewer.key(*down, *key), &mut self.to_server),
            Event::Pointer(buttons, x, y) => {
                let called = self.viewer.pointer(*buttons, *x, *y);
                send(called, &mut self.to_server)
            }
            Event::CutText(text) => {
                cut_text(self.alloc, &self.viewer, text, &mut self.to_server)
            }
            Event::Compose => {
                compose(self.alloc, &mut self.server, &mut self.to_viewer)?;
                Ok(None)
            }
            Event::ToServer(_) | Event::ToViewer(_) => Ok(None),
        }
    }

    /// `count` of the bytes in flight to the server arrive, or all.
    pub fn deliver_to_server<C: Read + Write>(
        &mut self,
        count: u32,
        link: &mut Link<C>,
    ) -> Result<(), Fault>
        ensures viewer { self.new.viewer ≡ self.old.viewer }
        ensures taken { OnOk result (self.new.to_server.items
            ≡ drop (min (length self.old.to_server.items) count) self.old.to_server.items) }
        ensures reached { OnOk result (ReachesServer
            (take (min (length self.old.to_server.items) count) self.old.to_server.items)
            (C.contents (viewer_end link.old)) (C.contents (viewer_end link.new))
            (C.remaining (server_end link.old)) (C.remaining (server_end link.new))
            self.old.server self.old.to_viewer.items self.new.to_viewer.items self.new.server) }
    {
        let mut part = [0; PART];
        let wanted = self.to_server.len().min(count as usize);
        let mut left = wanted;
        while left > 0 {
            let taken = take_some(&mut self.to_server, left, &mut part)?;
            let server = &mut self.server;
            reach_server(&mut part[..taken], link, server, &mut self.to_viewer)?;
            left -= taken;
        }
        Ok(())
    }

    /// `count` of the bytes in flight to the viewer arrive, or all.
    pub fn deliver_to_viewer<C: Read + Write>(
        &mut self,
        count: u32,
        link: &mut Link<C>,
    ) -> Result<(), Fault>
        ensures server { self.new.server ≡ self.old.server }
        ensures taken { OnOk result (self.new.to_viewer.items
            ≡ drop (min (length self.old.to_viewer.items) count) self.old.to_viewer.items) }
        ensures reached { OnOk result (ReachesViewer
            (take (min (length self.old.to_viewer.items) count) self.old.to_viewer.items)
            (C.contents (server_end link.old)) (C.contents (server_end link.new))
            (C.remaining (viewer_end link.old)) (C.remaining (viewer_end link.new))
            self.old.viewer self.old.to_server.items self.new.to_server.items self.new.viewer) }
    {
        let mut part = [0; PART];
        let wanted = self.to_viewer.len().min(count as usize);
        let mut left = wanted;
        while left > 0 {
            let taken = take_some(&mut self.to_viewer, left, &mut part)?;
            let viewer = &mut self.viewer;
            reach_viewer(&mut part[..taken], link, viewer, &mut self.to_server)?;
            left -= taken;
        }
        Ok(())
    }
}
