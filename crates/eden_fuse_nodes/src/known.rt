use crate::place::Place;

/// What is known of a node.
#[derive(Debug, Drop)]
pub struct Known {
    /// How often the kernel was told of it and hasn't forgotten it: at least once.
    pub count: u64,
    /// Where it stands; nowhere once it was removed or replaced.
    pub place: Option<Place>,
}
