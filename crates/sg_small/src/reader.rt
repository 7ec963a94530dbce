ghost use Rattle.std.specs.Prelude.{◌≡◌, ◌++◌, ◌∷◌, [], option_copied, is_some, None, IfOk, OnErr};
ghost use Rattle.sg_headers.specs.Small.{looking, row_query};
ghost use Rattle.sg_reading.specs.Stop.{IsKnown};
ghost use Rattle.sg_script.specs.Example.{is_query, reply_to};
ghost use Rattle.sg_script.specs.Script.{row_stage, row_writes};
ghost use Rattle.sg_small.specs.Reader.{type_of, first_missing};

use sg_base::{Label, Scope};
use sg_numbers::Numbers;
use sg_query::{Answer, KindTable, Query};
use sg_reading::Known;
use sg_script::{Script, Write, Writes};
use std::alloc::{AllocError, Global};
use std::marker::Model;
use std::snapshot::Snapshot;

/// The reader of one type's header, with the replies that have come.
///
/// It asks for the supertypes of each type that the header looks at, first to last, by queries of kind 0 that want 5. Then
/// it writes the supertypes that the header gives into the row with label 0 of its own type, closes the row, and ends with 7.
#[derive(Drop)]
pub struct Reader {
    alloc: Global,
    number: u32,
    kinds: Snapshot<KindTable>,
    looks: Vec<Scope>,
    gives: Vec<Scope>,
    replies: Vec<(Query<u64>, Answer<u64>)>,
}

impl Model for Reader {
    ghost use Rattle.sg_small.specs.Reader.{ReaderOf};
    ghost use Rattle.sg_query.specs.Query.{coded_kind};
    ghost use Rattle.std.specs.Coded.{codes};

    ghost Value = { ReaderOf };

    ghost coded = { Prim.hlevel (codes, coded_kind) };

    ghost view = { λ r. record { number = r.number; kinds = r.kinds.value; looks = r.looks.items; gives = r.gives.items; replies = r.replies.items } };
}

/// Whether two queries are the same.
fn is_query(p: &Query<u64>, q: &Query<u64>) -> bool
    ensures { result ≡ is_query p.now q.now }
{
    p.start.unit == q.start.unit
        && p.start.serial == q.start.serial
        && p.kind == q.kind
        && p.pred == q.pred
}

/// The query that looks at the supertypes of a type.
fn row_query(scope: Scope) -> Query<u64>
    ensures { result ≡ row_query 5 scope }
{
    Query {
        start: scope,
        kind: 0,
        pred: 5,
    }
}

/// The writes of the row of a type with these supertypes: an edge to each, and then the close.
fn row_writes(alloc: Global, from: Scope, above: &Vec<Scope>) -> Result<Writes<u64>, AllocError>
    ensures { IfOk result (λ ws. ws ≡ row_writes from 0 above.now.items) }
{
    let close = Write::CloseRow {
        scope: from,
        label: Label::new(0),
    };
    let mut writes = Writes::new(alloc);
    for to in above {
        writes.push(Write::AddEdge {
            from,
            label: Label::new(0),
            to: *to,
        })?;
    }
    writes.push(close)?;
    Ok(writes)
}

impl Reader {
    /// The reader of the header of the type with this number, which looks at the supertypes of some types and gives others. No
    /// reply has come. Takes constant time.
    pub fn new(
        alloc: Global,
        number: u32,
        table: &KindTable,
        looks: Vec<Scope>,
        gives: Vec<Scope>,
    ) -> Reader
        ensures { result ≡ record { number = number; kinds = table.now; looks = looks.items; gives = gives.items; replies = [] } }
    {
        Reader {
            alloc,
            number,
            kinds: Snapshot::of(table),
            looks,
            gives,
            replies: Vec::new(alloc),
        }
    }

    /// The reply to a query, where one has come. Takes the time of the replies.
    fn find(&self, query: &Query<u64>) -> Option<&Answer<u64>>
        ensures { option_copied result ≡ reply_to self.now.replies query.now }
    {
        for pair in &self.replies {
            if is_query(query, &pair.0) {
                return Some(&pair.1);
            }
        }
        None
    }

    /// Whether a reply to the query has come.
    fn has_reply(&self, query: &Query<u64>) -> bool
        ensures { result ≡ is_some (reply_to self.now.replies query.now) }
    {
        match self.find(query) {
            Some(_) => true,
            None => false,
        }
    }

    /// The first query of the header that has no reply.
    fn missing(&self) -> Option<Query<u64>>
        ensures { result ≡ first_missing (reply_to self.now.replies) self.now.looks }
    {
        for scope in &self.looks {
            let query = row_query(*scope);
            if !self.has_reply(&query) {
                return Some(query);
            }
        }
        None
    }

    /// The writes of the row, or the first query that has no reply.
    fn row(&self) -> Result<Known<Writes<u64>, Query<u64>>, AllocError>
        ensures { IfOk result (IsKnown (reply_to self.now.replies) (row_stage (type_of self.now.number) 0 (looking 5 self.now.looks self.now.gives)).rule) }
    {
        match self.missing() {
            Some(query) => Ok(Known::Need(query)),
            None => {
                let own = Scope {
                    unit: u32::MAX,
                    serial: self.number,
                };
                Ok(Known::Is(row_writes(self.alloc, own, &self.gives)?))
            }
        }
    }
}

/// A script of one stage. A read takes the time of the replies for each type that the header looks at, and of what it gives.
impl Script for Reader {
    ghost use Rattle.std.specs.Prelude.{◌≡◌, ◌++◌, ◌∷◌, [], None, IfOk, OnErr};
    ghost use Rattle.sg_script.specs.Example.{reply_to};
    ghost use Rattle.sg_reading.specs.Replies.{AddsReply};
    ghost use Rattle.sg_small.specs.Reader.{reader_plan, reader_told};

    type Inst = Numbers;

    type Outcome = u64;

    ghost plan = { λ r. reader_plan r };

    ghost reply = { λ r. reply_to r.replies };

    ghost is_ready = { λ _. Unit {0} };

    ghost is_put = { λ b q a r. r ≡ record { number = b.number; kinds = b.kinds; looks = b.looks; gives = b.gives; replies = b.replies ++ (q, a) ∷ [] } };

    fn id(&self) -> u32 {
        self.number
    }

    fn stage_count(&self) -> usize {
        1
    }

    fn put(&mut self, query: &Query<u64>, answer: Answer<u64>) -> Result<(), AllocError>
        requires { reply_to self.old.replies query.now ≡ None }
        ensures put { IfOk result (λ _. self.new ≡ reader_told self.old query.now answer) }
        ensures reply { IfOk result (λ _. AddsReply (reply_to self.old.replies) (reply_to self.new.replies) query.now answer) }
        ensures same { OnErr result (self.new ≡ self.old) }
    {
        let copy = Query {
            start: query.start,
            kind: query.kind,
            pred: query.pred,
        };
        self.replies.push((copy, answer))?;
        Ok(())
    }

    fn take_back(&mut self) {
        let _last = self.replies.pop();
    }

    fn read(&mut self, _stage: usize) -> Result<Known<Writes<u64>, Query<u64>>, AllocError> {
        self.row()
    }

    fn finish(&mut self) -> Result<Known<u64, Query<u64>>, AllocError> {
        Ok(Known::Is(7))
    }
}
