//! The messages in flight one way, and how many bytes of the first of them have been moved.

use rfb_picture::Rect;
use rfb_pixel::Format;
use std::alloc::{AllocError, Global};

/// What an item does once its last byte was moved.
#[derive(Clone, Copy)]
pub(super) enum Act {
    /// Each end's version.
    Greets,
    /// The server's list of security types, or in 3.3 the one type.
    Secures,
    /// The viewer's choice of a security type.
    Chooses,
    /// The server's result of the security handshake, in 3.8.
    Accepts,
    /// The viewer's ClientInit.
    Joins,
    /// The fixed part of the server's ServerInit, which describes the screen.
    Starts,
    /// Its name, which ends the handshake.
    Names,
    SetsFormat(Format),
    Asks(bool, Rect),
    /// Any other message of the viewer's.
    Tells,
    /// The last byte of an update.
    Updates,
}

#[derive(Clone, Copy)]
struct Item {
    size: usize,
    act: Act,
}

#[derive(Drop)]
pub(crate) struct Queue {
    items: Vec<Item>,
    moved: usize,
}

impl Queue {
    pub(super) fn new(alloc: Global) -> Queue {
        Queue {
            items: Vec::new(alloc),
            moved: 0,
        }
    }

    pub(super) fn push(&mut self, size: usize, act: Act) -> Result<(), AllocError> {
        self.items.push(Item { size, act })?;
        Ok(())
    }

    /// How many messages are in flight, also a part of one.
    pub(super) fn count(&self) -> usize {
        self.items.len()
    }

    /// How many bytes are in flight.
    pub(crate) fn len(&self) -> usize {
        let mut sum = 0_usize;
        for item in &self.items {
            sum = sum.saturating_add(item.size);
        }
        sum.saturating_sub(self.moved)
    }

    /// `count` more bytes are moved, or all; how many they are.
    pub(super) fn advance(&mut self, count: u32) -> u32 {
        let moved = (count as usize).min(self.len());
        self.moved = self.moved.saturating_add(moved);
        moved as u32
    }

    /// The first item, if its last byte was moved. It leaves the queue.
    pub(super) fn take(&mut self) -> Option<Act> {
        let first = *self.items.first()?;
        if first.size > self.moved {
            return None;
        }
        self.moved = self.moved.saturating_sub(first.size);
        self.items.remove(0);
        Some(first.act)
    }
}
