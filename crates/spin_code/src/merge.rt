//! Merges: how the results of several handlers become one.

use crate::expr::Expr;

/// How the results of several handlers become one.
#[derive(PartialEq, Drop, Debug)]
pub enum Merge {
    /// The last result stands.
    Last,
    /// From the first result on, each next one is combined with the merge so far by this expression over two words:
    /// argument 0 is the merge so far, argument 1 the next result.
    Fold(Expr),
}
