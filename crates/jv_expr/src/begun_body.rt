use crate::local::Local;
use jv_diag::DiagList;
use jv_instance::Ty;

/// A body whose parameters are in scope, behind some of the statements at its top: what a `return` gives, how many statements
/// were checked, the local variables in scope behind them, and the diagnostics so far.
#[derive(Drop)]
pub(crate) struct BegunBody {
    pub(crate) result: Option<Ty>,
    pub(crate) count: usize,
    pub(crate) locals: Vec<Local>,
    pub(crate) diags: DiagList,
}
