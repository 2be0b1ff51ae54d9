//! The rule at small blocks, worked out by hand.

use super::*;

const A: u32 = 0;

const B: u32 = 0x00FF_FFFF;

// A subrectangle of pixel A.
fn dark(x: u16, y: u16, w: u16, h: u16) -> Subrect {
    Subrect {
        pixel: A,
        rect: Rect { x, y, w, h },
    }
}

// Whether two rows of four places over pixel B are covered by those alone.
fn is_covered_by(pixels: &[u32; 8], wanted: &[Subrect]) -> bool {
    let mut subs: ArrayVec<Subrect, 8> = ArrayVec::new();
    cover(pixels, 4, 2, B, 8, &mut subs) && subs.as_slice() == wanted
}

// The same of three rows of five.
fn are_covered_by(pixels: &[u32; 15], wanted: &[Subrect]) -> bool {
    let mut subs: ArrayVec<Subrect, 8> = ArrayVec::new();
    cover(pixels, 5, 3, B, 8, &mut subs) && subs.as_slice() == wanted
}

#[test]
fn two_columns_of_unlike_height_are_two_subrectangles(rt: HostRuntime) {
    let wanted = [dark(0, 0, 1, 2), dark(3, 0, 1, 1)];
    assert!(rt; is_covered_by(&[A, B, B, A, A, B, B, B], &wanted));
}

#[test]
fn a_run_goes_down_as_far_as_all_of_it_does(rt: HostRuntime) {
    let wanted = [dark(1, 0, 3, 1), dark(1, 1, 2, 1)];
    assert!(rt; is_covered_by(&[B, A, A, A, B, A, A, B], &wanted));
}

#[test]
fn a_run_of_two_columns_goes_down_two_rows(rt: HostRuntime) {
    let pixels = [B, A, A, A, B, B, A, A, B, B, B, A, A, A, A];
    let wanted = [dark(1, 0, 3, 1), dark(1, 1, 2, 2), dark(3, 2, 2, 1)];
    assert!(rt; are_covered_by(&pixels, &wanted));
}

// Whether a row of five places is covered where every second one has pixel A.
fn is_row_covered(background: u32, limit: usize) -> bool {
    let mut subs: ArrayVec<Subrect, 8> = ArrayVec::new();
    cover(&[A, B, A, B, A], 5, 1, background, limit.min(8), &mut subs)
}

#[test]
fn it_gives_up_beyond_the_limit(rt: HostRuntime) {
    let good = !is_row_covered(B, 2) && is_row_covered(B, 3) && !is_row_covered(7, 4);
    assert!(rt; good);
}
