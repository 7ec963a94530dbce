//! Readings of a worked rule over some replies, with answers worked out by hand.

use sg_reading::example::{Answer, FoundPlaces, Query, member, places};
use sg_reading::{Known, Replies, Stop};
use std::alloc::{AllocError, Global};
use std::test::Fail;

/// What a block declares under a name.
type Reply = (u32, u32, Answer);

/// Puts replies, one after another.
fn put_all(replies: &mut Replies<Query, Answer>, told: &[Reply]) -> Result<(), AllocError> {
    for (block, name, answer) in told {
        let query = Query {
            block: *block,
            name: *name,
        };
        replies.put(query, *answer)?;
    }
    Ok(())
}

/// Replies of which each is to a query.
fn replies_of(alloc: Global, told: &[Reply]) -> Result<Replies<Query, Answer>, AllocError> {
    let mut replies = Replies::new(alloc);
    put_all(&mut replies, told)?;
    Ok(replies)
}

/// The block of the query that the member 9 of what 7 means in the blocks 3 and 1 lacks.
fn lacking(replies: &Replies<Query, Answer>) -> Option<(u32, u32)> {
    match member(replies, &[3, 1], 7, 9) {
        Err(Stop::NoReply(query)) => Some((query.block, query.name)),
        _ => None,
    }
}

/// The replies in the order in which they are asked for.
const TOLD: [Reply; 3] = [
    (3, 7, Answer::Declared(4, false)),
    (1, 7, Answer::Declared(5, true)),
    (5, 9, Answer::Declared(8, true)),
];

/// The first of the replies that is not asked for once those before it are there.
fn wrong_turn(alloc: Global) -> Result<Option<usize>, AllocError> {
    for (at, (block, name, _)) in TOLD.iter().enumerate() {
        if lacking(&replies_of(alloc, &TOLD[..at])?) != Some((*block, *name)) {
            return Ok(Some(at));
        }
    }
    Ok(None)
}

/// Whether the member of what 7 means in these blocks is this.
fn is_member(alloc: Global, blocks: &[u32], wanted: Option<u32>) -> Result<bool, AllocError> {
    let replies = replies_of(alloc, &TOLD)?;
    Ok(member(&replies, blocks, 7, 9) == Ok(wanted))
}

#[test]
fn a_member_of_the_nearest_block(rt: HostRuntime) -> Result<(), Fail> {
    assert_eq!(rt; wrong_turn(rt.alloc())?, None);
    assert!(rt; is_member(rt.alloc(), &[3, 1], Some(8))?);
    assert!(rt; is_member(rt.alloc(), &[3], None)?);
    Ok(())
}

/// What the blocks 3 and 1 tell of the name 7.
const OF_BLOCKS: [Reply; 2] = [
    (3, 7, Answer::Undeclared),
    (1, 7, Answer::Declared(5, true)),
];

/// The places of 7 in the blocks 3 and 1.
fn places_of_blocks(alloc: Global) -> Result<Known<FoundPlaces, Query>, AllocError> {
    let replies = replies_of(alloc, &OF_BLOCKS)?;
    places(alloc, &replies, &[3, 1], 7)
}

/// Whether places are found, and are these.
fn are_places(found: &Known<FoundPlaces, Query>, wanted: &[Option<u32>]) -> bool {
    match found {
        Known::Is(found) => found.as_slice() == wanted,
        Known::Need(_) => false,
    }
}

#[test]
fn the_places_of_each_block(rt: HostRuntime) -> Result<(), Fail> {
    let found = places_of_blocks(rt.alloc())?;
    assert!(rt; are_places(&found, &[None, Some(5)]));
    Ok(())
}

/// The block and the name of the last reply, which is taken back.
fn taken(replies: &mut Replies<Query, Answer>) -> Option<(u32, u32)> {
    match replies.take_back() {
        Some((query, _)) => Some((query.block, query.name)),
        None => None,
    }
}

/// Whether the last of two replies is taken back and asked for again, and no other.
fn is_taken_back(replies: &mut Replies<Query, Answer>) -> Result<bool, AllocError> {
    put_all(replies, &OF_BLOCKS)?;
    let last = taken(replies);
    let lacks = lacking(replies);
    put_all(replies, &[(1, 7, Answer::Declared(6, true))])?;
    Ok(last == Some((1, 7)) && lacks == Some((1, 7)) && lacking(replies) == Some((6, 9)))
}

#[test]
fn the_last_reply_is_taken_back(rt: HostRuntime) -> Result<(), Fail> {
    let mut replies = Replies::new(rt.alloc());
    assert_eq!(rt; taken(&mut replies), None);
    assert!(rt; is_taken_back(&mut replies)?);
    Ok(())
}
