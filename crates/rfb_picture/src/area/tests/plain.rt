//! Areas as plain lists of marks, and the numbers that pick their rectangles.

use crate::rect::Rect;
use std::alloc::{AllocError, Global};

// What is asked and whole, a mark for each place, row after row.
#[derive(Drop)]
pub(super) struct Plain {
    width: u16,
    asked: Vec<bool>,
    whole: Vec<bool>,
}

impl Plain {
    pub(super) fn new(alloc: Global, width: u16, height: u16) -> Result<Plain, AllocError> {
        Ok(Plain {
            width,
            asked: no_marks(alloc, width, height)?,
            whole: no_marks(alloc, width, height)?,
        })
    }

    pub(super) fn add(&mut self, rect: Rect, whole: bool) {
        let width = self.width;
        mark(&mut self.asked, width, rect);
        if whole {
            mark(&mut self.whole, width, rect);
        }
    }

    pub(super) fn clear(&mut self) {
        self.asked.fill(false);
        self.whole.fill(false);
    }

    // Whether a place is asked, and whether it is whole.
    pub(super) fn marks(&self, x: u16, y: u16) -> (bool, bool) {
        let at = index(self.width, x, y);
        (is_marked(&self.asked, at), is_marked(&self.whole, at))
    }

    pub(super) fn bounds_in(&self, cell: Rect) -> Option<Rect> {
        let mut found = None;
        for y in cell.y..cell.y.saturating_add(cell.h) {
            for x in cell.x..cell.x.saturating_add(cell.w) {
                if is_marked(&self.asked, index(self.width, x, y)) {
                    found = Some(with_place(found, x, y));
                }
            }
        }
        found
    }
}

fn no_marks(alloc: Global, width: u16, height: u16) -> Result<Vec<bool>, AllocError> {
    let mut marks = Vec::new(alloc);
    marks.resize(
        usize::from(width).saturating_mul(usize::from(height)),
        false,
    )?;
    Ok(marks)
}

fn is_marked(marks: &[bool], at: usize) -> bool {
    matches!(marks.get(at), Some(true))
}

fn index(width: u16, x: u16, y: u16) -> usize {
    usize::from(y)
        .saturating_mul(usize::from(width))
        .saturating_add(usize::from(x))
}

fn mark(marks: &mut [bool], width: u16, rect: Rect) {
    for y in rect.y..rect.y.saturating_add(rect.h) {
        for x in rect.x..rect.x.saturating_add(rect.w) {
            if let Some(mark) = marks.get_mut(index(width, x, y)) {
                *mark = true;
            }
        }
    }
}

fn with_place(found: Option<Rect>, x: u16, y: u16) -> Rect {
    let place = Rect { x, y, w: 1, h: 1 };
    let old = found.unwrap_or(place);
    let right = old.x.saturating_add(old.w).max(x.saturating_add(1));
    let bottom = old.y.saturating_add(old.h).max(y.saturating_add(1));
    let left = old.x.min(x);
    let top = old.y.min(y);
    Rect {
        x: left,
        y: top,
        w: right.saturating_sub(left),
        h: bottom.saturating_sub(top),
    }
}

// Numbers that look as if drawn at random, the same in each run.
#[derive(Drop)]
pub(super) struct Numbers {
    pub state: u64,
}

impl Numbers {
    // A number below `limit`; 0 if that is 0.
    pub(super) fn below(&mut self, limit: u16) -> u16 {
        self.state = self
            .state
            .wrapping_mul(6_364_136_223_846_793_005)
            .wrapping_add(1_442_695_040_888_963_407);
        ((self.state >> 33) % u64::from(limit.max(1))) as u16
    }

    // A rectangle of the screen; now and then with no place.
    pub(super) fn rect(&mut self, width: u16, height: u16) -> Rect {
        let x = self.below(width.saturating_add(1));
        let y = self.below(height.saturating_add(1));
        Rect {
            x,
            y,
            w: self.below(width.saturating_sub(x).saturating_add(1)),
            h: self.below(height.saturating_sub(y).saturating_add(1)),
        }
    }
}
