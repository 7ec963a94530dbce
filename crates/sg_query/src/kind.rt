use sg_expr::Expr;
use sg_order::Order;

/// A kind of query: the words that it follows, and the order of the paths that it finds.
#[derive(Debug, Drop)]
pub struct Kind {
    pub expr: Expr,
    pub order: Order,
}
