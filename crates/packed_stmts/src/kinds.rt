// The kinds of expressions, by the byte in front of their parts.

/// The kind of an expression.
#[derive(Clone, Copy)]
pub(crate) enum ExprKind {
    Name,
    At,
    Number,
    To32,
    To64,
    Star,
    Op,
}
