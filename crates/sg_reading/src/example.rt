//! A worked rule: what a name means in nested blocks, and a member of that. A crate with rules of its own has the same
//! parts: queries and answers, each rule as a reading in `specs/`, and a function with `?` that proves itself by
//! `reading_steps`.

ghost use Rattle.std.specs.Prelude.{◌≡◌, IfOk};
ghost use Rattle.sg_reading.specs.Example.{reply_to, place_of, declared_in, nearest, member, places, MemberReadsOnlyItsQueries};
ghost use Rattle.sg_reading.specs.Stop.{IsKnown, Reads};

use crate::known::Known;
use crate::replies::Replies;
use crate::stop::Stop;
use std::alloc::{AllocError, Global};
use std::marker::Model;

/// A query: which place a block declares under a name.
#[derive(Clone, Copy, Debug, PartialEq, Eq, Hash)]
pub struct Query {
    pub block: u32,
    pub name: u32,
}

/// The answer: a place, with whether it fits the blocks, or nothing.
#[derive(Clone, Copy, Debug)]
pub enum Answer {
    Declared(u32, bool),
    Undeclared,
}

/// The places that some blocks declare, in their order.
#[derive(Debug, Drop)]
pub struct FoundPlaces {
    places: Vec<Option<u32>>,
}

impl Model for FoundPlaces {
    ghost use Rattle.std.specs.Prelude.{ℕ, List, Option};

    ghost Value = { List (Option ℕ) };

    ghost view = { λ p. p.places.items };
}

impl FoundPlaces {
    ghost use Rattle.std.specs.Prelude.{◌≡◌, [], ◌∷◌, ◌++◌, MatchResult};
    ghost use Rattle.sg_reading.specs.declared.stop.Stop.TheVariants.{OutOfMemory};

    /// The places as a slice.
    pub fn as_slice(&self) -> &[Option<u32>]
        ensures { result.now ≡ self.now }
    {
        self.places.as_slice()
    }

    /// These places and one more.
    fn with(mut self, place: Option<u32>) -> Result<FoundPlaces, Stop<Query>>
        ensures { MatchResult result (λ places. places ≡ self ++ place ∷ []) (λ stop. stop ≡ OutOfMemory) }
    {
        self.places.push(place)?;
        Ok(self)
    }
}

/// The place that an answer declares, where it fits.
fn place_of(answer: &Answer) -> Option<u32>
    ensures { result ≡ place_of answer.now }
{
    match answer {
        Answer::Declared(place, fits) => fits.then_some(*place),
        Answer::Undeclared => None,
    }
}

/// The place that a block declares under a name.
#[tactic(auto, using(crate::proofs::ExampleSteps::example_steps))]
fn declared_in(
    replies: &Replies<Query, Answer>,
    name: u32,
    block: u32,
) -> Result<Option<u32>, Stop<Query>>
    ensures { Reads (reply_to replies.now) (declared_in name block) result }
{
    let answer = replies.ask(Query { block, name })?;
    Ok(place_of(answer))
}

/// The place that the first of the blocks declares under the name which declares one.
#[tactic(auto, using(crate::proofs::ExampleSteps::example_steps))]
fn nearest(
    replies: &Replies<Query, Answer>,
    blocks: &[u32],
    name: u32,
) -> Result<Option<u32>, Stop<Query>>
    ensures { Reads (reply_to replies.now) (nearest blocks.now name) result }
{
    for block in blocks {
        let found = declared_in(replies, name, *block)?;
        if found.is_some() {
            return Ok(found);
        }
    }
    Ok(None)
}

/// A member of the block that the name means. Stops at the first query that has no reply, and takes no memory and time
/// linear in the number of blocks.
#[tactic(auto, using(crate::proofs::ExampleSteps::example_steps))]
pub fn member(
    replies: &Replies<Query, Answer>,
    blocks: &[u32],
    name: u32,
    of: u32,
) -> Result<Option<u32>, Stop<Query>>
    ensures { Reads (reply_to replies.now) (member blocks.now name of) result }
{
    let found = nearest(replies, blocks, name)?;
    match found {
        Some(block) => declared_in(replies, of, block),
        None => Ok(None),
    }
}

#[tactic(auto, using(crate::proofs::ExampleSteps::example_steps))]
fn read_places(
    alloc: Global,
    replies: &Replies<Query, Answer>,
    blocks: &[u32],
    name: u32,
) -> Result<FoundPlaces, Stop<Query>>
    ensures { Reads (reply_to replies.now) (places blocks.now name) result }
{
    let mut places = FoundPlaces {
        places: Vec::new(alloc),
    };
    for block in blocks {
        let place = declared_in(replies, name, *block)?;
        places = places.with(place)?;
    }
    Ok(places)
}

/// The place that each of the blocks declares under the name, or the first query that has no reply. Takes time linear
/// in the number of blocks.
#[tactic(auto, using(crate::proofs::Steps::reading_steps))]
pub fn places(
    alloc: Global,
    replies: &Replies<Query, Answer>,
    blocks: &[u32],
    name: u32,
) -> Result<Known<FoundPlaces, Query>, AllocError>
    ensures { IfOk result (IsKnown (reply_to replies.now) (places blocks.now name)) }
{
    Known::from_found(read_places(alloc, replies, blocks, name))
}

/// The rule of a member looks at replies only by the queries that it asks.
pub fn member_reads_only_its_queries()
    ensures { MemberReadsOnlyItsQueries }
{}
