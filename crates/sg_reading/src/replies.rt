use crate::stop::Stop;
use indexmap::IndexMap;
use std::alloc::{AllocError, Global};
use std::hash::Hash;
use std::marker::Model;

/// The replies that have come so far, at most one to each query, in the order in which they came.
#[derive(Drop)]
pub struct Replies<Q: Eq + Hash, A> {
    replies: IndexMap<Q, A>,
}

impl<Q: Eq + Hash, A> Model for Replies<Q, A> {
    ghost use Rattle.std.specs.Prelude.{List};

    ghost Value = { List (Q × A) };

    ghost view = { λ r. r.replies.entries };
}

impl<Q: Eq + Hash, A> Replies<Q, A> {
    ghost use Rattle.std.specs.Prelude.{◌≡◌, List, [], ◌∷◌, ◌++◌, None, Some, OnOk, OnErr, option_copied, MatchResult, if◌then◌else◌};
    ghost use Rattle.sg_reading.specs.declared.stop.Stop.TheVariants.{NoReply};
    ghost use Rattle.sg_reading.specs.Replies.{reply_of, with_reply};

    /// No replies.
    pub fn new(alloc: Global) -> Replies<Q, A>
        ensures { result ≡ [] }
    {
        Replies {
            replies: IndexMap::new(alloc),
        }
    }

    /// Adds the reply to a query: last, or in place of an earlier reply to it. After want of memory the replies are what
    /// they were. Takes constant time on average.
    pub fn put(&mut self, query: Q, answer: A) -> Result<(), AllocError>
    where
        Q: Drop,
        A: Drop,
        ensures ok { OnOk result (self.new ≡ with_reply Q.eq self.old query answer) }
        ensures last { reply_of Q.eq self.old query ≡ None → OnOk result (self.new ≡ self.old ++ (query, answer) ∷ []) }
        ensures reply { OnOk result ((p : Q) → reply_of Q.eq self.new p ≡ (if Q.eq query p then Some answer else reply_of Q.eq self.old p)) }
        ensures err { OnErr result (self.new ≡ self.old) }
    {
        self.replies.insert(query, answer)?;
        Ok(())
    }

    /// Takes the last reply back, with its query, where there is one. Takes no memory and constant time.
    pub fn take_back(&mut self) -> Option<(Q, A)>
        ensures last { (before : List (Q × A)) (last : Q × A) → self.old ≡ before ++ last ∷ [] → (self.new ≡ before) × (result ≡ Some last) }
        ensures none { self.old ≡ [] → (self.new ≡ []) × (result ≡ None) }
    {
        self.replies.pop()
    }

    /// The reply to the query. Takes constant time on average.
    pub fn get(&self, query: &Q) -> Option<&A>
        ensures { option_copied result ≡ reply_of Q.eq self.now query.now }
    {
        self.replies.get(query)
    }

    /// The reply to the query, or a stop that names it. Takes constant time on average.
    pub fn ask(&self, query: Q) -> Result<&A, Stop<Q>>
    where
        Q: Drop,
        ensures { MatchResult result
            (λ answer. reply_of Q.eq self.now query ≡ Some answer.now)
            (λ stop. (stop ≡ NoReply query) × (reply_of Q.eq self.now query ≡ None)) }
    {
        match self.get(&query) {
            Some(answer) => Ok(answer),
            None => Err(Stop::NoReply(query)),
        }
    }
}
