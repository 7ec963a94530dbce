use jv_instance::{JavaDatum, JavaPred};
use sg_query::{Answer, Query};
use sg_reading::Replies;

/// The replies that have come so far, at most one to each query. `put` and `get` take constant time on average.
pub type Oracle = Replies<Query<JavaPred>, Answer<JavaDatum>>;
