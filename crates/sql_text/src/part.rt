// A range partition as statements write it.
use crate::query::Literal;
use dl_values::Name;

/// `PARTITION name VALUES bounds`.
#[derive(Debug, Drop)]
pub struct Part {
    pub name: Name,
    pub bounds: PartBounds,
}

/// The ends of a partition, whose high end is outside.
#[derive(Debug, Drop)]
pub enum PartBounds {
    /// `LESS THAN (end)`. None is MAXVALUE.
    Less(Option<Literal>),
    /// `[(low), (high))`.
    Between(Literal, Literal),
}
