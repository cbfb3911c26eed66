use crate::id::Key;
use crate::reply::Reply;

/// What came of one attempt of a request.
#[derive(Drop)]
pub enum Attempt {
    /// The reply: the table's, or a fault.
    Finished(Reply),
    /// The table gives no reply without the object of this key, which is lacking.
    Need(Key),
}
