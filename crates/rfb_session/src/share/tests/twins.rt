//! Seats for which one update is composed, and those that differ in one thing.

ghost use Rattle.std.specs.Prelude.{◌≤◌};

use super::*;
use crate::hub::BLACK;
use crate::seats::Seats;

// SetPixelFormat, section 7.5.1: 32 bits, depth 24, little-endian, true colour, maxima of 255, and
// the red first: shifts 0, 8 and 16.
const RED_FIRST: &[u8] = b"\0\0\0\0\x20\x18\0\x01\0\xFF\0\xFF\0\xFF\0\x08\x10\0\0\0";

// SetEncodings, section 7.5.2: RRE.
const LISTS_RRE: &[u8] = b"\x02\0\0\x01\0\0\0\x02";

// The first place alone is asked for, whole.
const ASKS_FIRST: &[u8] = b"\x03\0\0\0\0\0\0\x01\0\x01";

const FIRST_BLACK: &[u8] = b"\0\0\0\x01\0\0\0\0\0\x01\0\x01\0\0\0\0\0\0\0\0";

// Both places, the red first in each.
const RED_BY_ITS_FORMAT: &[u8] = b"\0\0\0\x01\0\0\0\0\0\x02\0\x01\0\0\0\0\xFF\0\0\0\xFF\0\0\0";

// Whether an update is composed for the third seat, and given to exactly these of the others.
fn gives(share: &mut Share, others: Seats, given: Seats) -> bool {
    share.compose_shared(at(2), others) == Ok((Composing::Composed, given))
}

// An update for the seventh waits to be written. The third, the fifth and the eighth ask for the
// same, and each other one for something else.
fn all_ask(share: &mut Share) -> bool {
    send(share, at(6), ASKS_ALL)
        && composes(share, at(6), Composing::Composed)
        && send(share, at(0), RED_FIRST)
        && send(share, at(0), ASKS_ALL)
        && send(share, at(1), LISTS_RRE)
        && send(share, at(1), ASKS_ALL)
        && send(share, at(2), ASKS_ALL)
        && send(share, at(3), ASKS_FIRST)
        && send(share, at(4), ASKS_ALL)
        && send(share, at(5), ASKS_CHANGES)
        && send(share, at(6), ASKS_ALL)
        && send(share, at(7), ASKS_ALL)
}

// The fifth is not one of those that may be given it.
fn one_is_given_it(share: &mut Share) -> bool {
    let others = Seats::all().without(at(2)).without(at(4));
    gives(share, others, Seats::none().with(at(7)))
        && takes(share, at(2), BLACK_UPDATE)
        && takes(share, at(7), BLACK_UPDATE)
        && takes(share, at(6), BLACK_UPDATE)
        && share.to_write(at(0)).is_empty()
        && share.to_write(at(1)).is_empty()
        && share.to_write(at(3)).is_empty()
        && share.to_write(at(4)).is_empty()
        && share.to_write(at(5)).is_empty()
}

// What is not given is due still.
fn others_have_their_own(share: &mut Share) -> bool {
    composes(share, at(3), Composing::Composed)
        && takes(share, at(3), FIRST_BLACK)
        && composes(share, at(4), Composing::Composed)
        && takes(share, at(4), BLACK_UPDATE)
        && composes(share, at(7), Composing::NotDue)
}

// What was given is known to be there: the next update is of what has changed since.
fn goes_on(share: &mut Share) -> bool {
    let others = Seats::all().without(at(2));
    send(share, at(2), ASKS_CHANGES)
        && send(share, at(4), ASKS_CHANGES)
        && send(share, at(7), ASKS_CHANGES)
        && share.compose_shared(at(2), others) == Ok((Composing::NotDue, Seats::none()))
        && paint(share, RED)
        && gives(share, others, Seats::none().with(at(4)).with(at(7)))
        && takes(share, at(4), RED_UPDATE)
        && takes(share, at(7), RED_UPDATE)
        && takes(share, at(2), RED_UPDATE)
        && composes(share, at(0), Composing::Composed)
        && takes(share, at(0), RED_BY_ITS_FORMAT)
}

// One that takes a part of what it shares has the rest later, whatever the others do. Of little
// the third is worth a look, which was given the same last, until it sets a format.
fn takes_by_parts(share: &mut Share) -> bool {
    let others = Seats::all().without(at(7));
    let asked = send(share, at(2), ASKS_CHANGES) && send(share, at(7), ASKS_CHANGES);
    let given = paint(share, BLUE)
        && gives(share, Seats::none().with(at(7)), Seats::none().with(at(7)));
    share.written(at(7), 3);
    asked
        && given
        && send(share, at(7), ASKS_CHANGES)
        && paint(share, BLUE)
        && share.worth_sharing(at(7), others) == Seats::none().with(at(2))
        && takes(share, at(2), BLUE_UPDATE)
        && send(share, at(2), RED_FIRST)
        && share.worth_sharing(at(7), others) == Seats::none()
        && composes(share, at(7), Composing::Waiting)
        && share.left(at(2))
        && share.worth_sharing(at(2), Seats::all()) == Seats::all()
        && takes(share, at(7), &BLUE_UPDATE[3..])
}

fn told_of_twins(alloc: Global) -> Result<[bool; 6], AllocError> {
    let mut share = share_of_two_places(alloc)?;
    let told = [
        all_greeted(&mut share),
        all_ask(&mut share),
        one_is_given_it(&mut share),
        others_have_their_own(&mut share),
        goes_on(&mut share),
        takes_by_parts(&mut share),
    ];
    drop(share);
    Ok(told)
}

#[test]
fn an_update_is_given_to_those_to_whom_it_is_the_same(rt: HostRuntime) -> Result<(), AllocError> {
    let told = told_of_twins(rt.alloc())?;
    assert_eq!(rt; told, [true; 6]);
    Ok(())
}

// Each of the first viewers has asked for all by itself, and been composed for alone.
fn each_has_all(share: &mut Share, count: u8) -> bool
    requires { count ≤ 8 }
{
    let mut all = true;
    for number in 0..count {
        let seat = at(number);
        all = all
            && send(share, seat, ASKS_ALL)
            && share.compose_shared(seat, Seats::none()).is_ok()
            && takes(share, seat, BLACK_UPDATE);
    }
    all
}

// The fourth asks for changes, and what is drawn may be one. Then others are worth a look.
fn looks_for(share: &mut Share, worth: Seats) -> bool {
    send(share, at(3), ASKS_CHANGES)
        && paint(share, BLACK)
        && share.worth_sharing(at(3), Seats::all().without(at(3))) == worth
}

fn told_of_each(alloc: Global) -> Result<[bool; 5], AllocError> {
    let mut share = share_of_two_places(alloc)?;
    let others = Seats::all().without(at(3));
    let told = [
        all_greeted(&mut share) && each_has_all(&mut share, 7),
        share.worth_sharing(at(3), others) == Seats::none(),
        looks_for(&mut share, others.without(at(7))),
        each_has_all(&mut share, 8),
        looks_for(&mut share, others),
    ];
    drop(share);
    Ok(told)
}

#[test]
fn those_who_came_one_by_one_are_looked_for_once_they_have_all(
    rt: HostRuntime,
) -> Result<(), AllocError> {
    let told = told_of_each(rt.alloc())?;
    assert_eq!(rt; told, [true; 5]);
    Ok(())
}
