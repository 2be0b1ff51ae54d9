//! A source and a sink as one wire.

ghost use Rattle.rfb_session.specs.Wire.{Tells, known_of_both};

use crate::engine::device::{Sink, Source};
use crate::engine::wire::Wire;
use std::io;

/// A borrowed source and a borrowed sink, as one wire. A step of it is a call of one of them, by
/// that one's contract.
#[derive(Drop)]
pub struct Pair<'r, 'w, R, W> {
    pub source: &'r mut R,
    pub sink: &'w mut W,
}

impl<R: Source, W: Sink> Wire for Pair<'_, '_, R, W> {
    ghost known = { λ p. known_of_both (R.unread p.source.now) (R.failed p.source.now)
        (W.written p.sink.now) (W.failed p.sink.now) p.source.ghost_name p.sink.ghost_name };

    ghost steps = { λ old step new. Tells step
        (known_of_both (R.unread old.source.now) (R.failed old.source.now)
        (W.written old.sink.now) (W.failed old.sink.now)
        old.source.ghost_name old.sink.ghost_name)
        (known_of_both (R.unread new.source.now) (R.failed new.source.now)
        (W.written new.sink.now) (W.failed new.sink.now)
        new.source.ghost_name new.sink.ghost_name) };

    fn read(&mut self, buf: &mut [u8]) -> io::Result<usize> {
        self.source.read(buf)
    }

    fn write(&mut self, buf: &[u8]) -> io::Result<usize> {
        self.sink.write(buf)
    }

    ghost tells = { λ old new step told. told };
}
