//! What a walk over an attribute looks for.

/// An enumerator, a call that doesn't fit its function, a decimal, a constant out of range, or a
/// second DEFAULT of one SELECT.
#[derive(Clone, Copy)]
pub enum Sought {
    Enumerator,
    Call(Calls),
    Decimal,
    Constant,
    Default,
}

/// Which calls are looked for.
#[derive(Clone, Copy)]
pub enum Calls {
    /// All that do not fit.
    All,
    /// Those of functions that exist, where the calls of other functions among the arguments may fit:
    /// where something stands for the names of these.
    Named,
}
