//! Ends that had failed before they were handed to a world.

use super::*;

// Twelve bytes of no version.
const NO_VERSION: [u8; 12] = *b"RFB 008.003;";

fn server_of(alloc: Global) -> Result<Server, AllocError> {
    Server::of(alloc, ServerSetup::usual(2, 1, b"rfb"))
}

fn viewer_of(alloc: Global) -> Viewer {
    let mut encodings = ArrayVec::new();
    encodings.push(Encoding::Raw);
    let viewing = ViewerSetup {
        encodings,
        ..ViewerSetup::usual(Format::rgb888())
    };
    Viewer::of(alloc, viewing)
}

// How many bytes reach each end, the viewer's first, and what is in flight then.
fn moves(world: &mut World) -> [usize; 4] {
    let viewer = to_viewer(world, ALL) as usize;
    let server = to_server(world, ALL) as usize;
    [
        viewer,
        server,
        world.link.in_flight_to_viewer(),
        world.link.in_flight_to_server(),
    ]
}

// A world whose viewer was fed no version, and whether that failed.
fn of_a_failed_viewer(alloc: Global) -> Result<(bool, World), AllocError> {
    let server = server_of(alloc)?;
    let mut viewer = viewer_of(alloc);
    let failed = viewer.feed(&NO_VERSION).is_err();
    let world = World::new(alloc, server, viewer)?;
    Ok((failed, world))
}

// The same of its server.
fn of_a_failed_server(alloc: Global) -> Result<(bool, World), AllocError> {
    let mut server = server_of(alloc)?;
    let failed = server.feed(&NO_VERSION).is_err();
    let world = World::new(alloc, server, viewer_of(alloc))?;
    Ok((failed, world))
}

fn moved_to_a_failed_viewer(alloc: Global) -> Result<(bool, [usize; 4]), AllocError> {
    let (failed, mut world) = of_a_failed_viewer(alloc)?;
    let moved = moves(&mut world);
    drop(world);
    Ok((failed, moved))
}

#[test]
fn bytes_to_a_viewer_that_has_failed_are_lost(rt: HostRuntime) -> Result<(), AllocError> {
    let moved = moved_to_a_failed_viewer(rt.alloc())?;
    assert_eq!(rt; moved, (true, [12, 0, 0, 0]));
    Ok(())
}

fn moved_to_a_failed_server(alloc: Global) -> Result<(bool, [usize; 4]), AllocError> {
    let (failed, mut world) = of_a_failed_server(alloc)?;
    let moved = moves(&mut world);
    drop(world);
    Ok((failed, moved))
}

#[test]
fn bytes_to_a_server_that_has_failed_are_lost(rt: HostRuntime) -> Result<(), AllocError> {
    let moved = moved_to_a_failed_server(rt.alloc())?;
    // The version of each.
    assert_eq!(rt; moved, (true, [12, 12, 0, 0]));
    Ok(())
}
