//! Where bytes break a rule.

/// An instruction: the number of its attribute row, and its place in the unit.
#[derive(Clone, Copy)]
pub struct Site {
    pub row: usize,
    pub place: usize,
}

/// Where bytes that are no image have their fault. Numbers count from 0; a row of the number of all
/// rows stands for the end of their section, where what the rows name doesn't fill it.
#[derive(Clone, Copy)]
pub enum Spot {
    /// The header, but for its zeros.
    Header,
    Zero,
    /// The zero among the fields that the second version adds.
    SecondZero,
    VariableRow(usize),
    /// Names by the kinds and numbers of their items.
    NameRow(usize),
    AttributeRow(usize),
    ElementRow(usize),
    StringRow(usize),
    Name(usize),
    String(usize),
    Instruction(Site),
}
