use jv_instance::JavaPred;
use sg_query::Query;
use sg_reading::Stop;

/// Why a rule stops: a query without a reply, or want of memory.
pub type Need = Stop<Query<JavaPred>>;
