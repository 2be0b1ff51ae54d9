//! What a server composes, against a plain model of the rule: drawings, hints, requests, formats
//! and lists are drawn by lot, and each update has to be the model's, byte by byte.

mod boxes;
mod copies;
mod draw;
mod lot;
mod messages;
mod plain;
mod play;
mod rects;
mod update;

use lot::Lot;
use play::plays;
use std::alloc::{AllocError, Global};

// Whether server and model answer alike over `lists` lists of events, on screens of up to `most`
// places a side.
fn play_alike(alloc: Global, seed: u64, lists: u16, most: u16) -> Result<bool, AllocError> {
    let mut lot = Lot::new(seed);
    let mut alike = true;
    for _ in 0..lists {
        let width = lot
            .up_to(most.min(4096).saturating_sub(1))
            .saturating_add(1)
            .min(4096);
        let height = lot
            .up_to(most.min(4096).saturating_sub(1))
            .saturating_add(1)
            .min(4096);
        alike = alike && plays(alloc, width, height, &mut lot)?;
    }
    Ok(alike)
}

#[test]
fn updates_of_small_screens_are_the_plain_ones(rt: HostRuntime) -> Result<(), AllocError> {
    assert!(rt; play_alike(rt.alloc(), 1, 3000, 9)?);
    Ok(())
}

#[test]
fn updates_of_screens_of_several_cells_are_the_plain_ones(
    rt: HostRuntime,
) -> Result<(), AllocError> {
    assert!(rt; play_alike(rt.alloc(), 2, 125, 130)?);
    Ok(())
}
