//! The rules on an image, in the order in which they are tried.

/// A rule on each unit. A unit is the code of one attribute or of one method.
#[derive(Clone, Copy, PartialEq, Eq, Debug)]
pub enum UnitRule {
    /// It is not empty, and is a chain of whole instructions that are allowed in it.
    Chain,
    /// Each way leads to an instruction, and in an attribute each jump forward.
    Jump,
    /// There is one number of operands for each place.
    Depth,
    /// What an instruction names exists.
    Reference,
}

/// A rule on an image.
#[derive(Clone, Copy, PartialEq, Eq, Debug)]
pub enum Rule {
    /// There is a whole header.
    Short,
    /// It begins with `EDI1`.
    Magic,
    /// The version is known.
    Version,
    /// The lengths add up to the number of bytes, and the code is within its limit.
    Length,
    /// The zeros are zero, and the rows hold what they may hold.
    Row,
    /// Each name is a name.
    Name,
    /// Each string is a string.
    Text,
    /// Each unit keeps its rule.
    Unit(UnitRule),
}
