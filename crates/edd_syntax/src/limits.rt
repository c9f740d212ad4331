//! What a description has only so many of.

/// What there are too many of: more than 4,096 items of a kind or transactions of a command, 64
/// locals of a method, 524,288 nodes, or 65,535 different strings.
#[derive(Clone, Copy, PartialEq, Eq, Debug)]
pub enum Limit {
    Items,
    Transactions,
    Locals,
    Nodes,
    Strings,
}
