//! The rule's ties and its counts, in both tables.

use super::*;

// Whether that is the background, however many pixels differ.
fn is_background(pixels: &[u32], wanted: u32) -> bool {
    if pixels.is_empty() || PLACES < pixels.len() {
        return false;
    }
    background_of(pixels, PLACES) == Some(wanted)
}

#[test]
fn the_least_of_the_most_frequent_pixels_is_chosen(rt: HostRuntime) {
    for (pixels, wanted) in [
        ([5, 3].as_slice(), 3),
        (&[3, 5], 3),
        (&[9], 9),
        (&[1, 2, 2, 1, 2], 2),
        (&[2, 2, 1, 1, 3], 1),
        (&[4, 4, 1, 4, 1, 1, 0xFFFF_FFFF], 1),
    ] {
        assert!(rt; is_background(pixels, wanted));
    }
}

// Gives every second place a pixel of its own.
fn spread(pixels: &mut [u32]) {
    let mut next = 0x0100_0000u32;
    for pair in pixels.chunks_mut(2) {
        if let Some(pixel) = pair.first_mut() {
            *pixel = next;
        }
        next = next.wrapping_add(1);
    }
}

fn runs_count_as_one() -> bool {
    let mut pixels = [7; 4096];
    spread(&mut pixels);
    let whole = is_background(&pixels, 7);
    pixels[1] = 0;
    pixels[2] = 0;
    whole && is_background(&pixels, 7)
}

#[test]
fn runs_far_apart_count_as_one_pixel(rt: HostRuntime) {
    assert!(rt; runs_count_as_one());
}

// Gives the places pixels from 5000 on down.
fn fall(pixels: &mut [u32]) {
    let mut next = 5000u32;
    for pixel in pixels {
        *pixel = next;
        next = next.saturating_sub(1);
    }
}

// Whether that is the background of pixels from 5000 on down.
fn is_least(pixels: &mut [u32], wanted: u32) -> bool {
    fall(pixels);
    is_background(pixels, wanted)
}

#[test]
fn pixels_that_all_differ_have_the_least_as_background(rt: HostRuntime) {
    let few = is_least(&mut [0; 256], 4745);
    let more = is_least(&mut [0; 257], 4744);
    let all = is_least(&mut [0; 4096], 905);
    assert!(rt; few && more && all);
}
