use sg_base::Step;
use sg_expr::Expr;

/// A path that goes on, and behind which a walk has still to look: how many of the walk's steps it begins with, its
/// last step, if it has one, and the expression of the words that may follow its word.
#[derive(Drop)]
pub struct Going {
    pub depth: usize,
    pub last: Option<Step>,
    pub rest: Expr,
}
