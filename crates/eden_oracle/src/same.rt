ghost use Rattle.std.specs.Prelude.{◌≡◌, ◌↔◌, IsTrue};
ghost use Rattle.eden_model.specs.Laws.{without_number};

use eden_model::{Entries, Kind, Name, Reply};

fn is_same_row(one: &(Name, Kind), other: &(Name, Kind)) -> bool
    ensures { IsTrue result ↔ (one.now ≡ other.now) }
{
    one.0 == other.0 && one.1 == other.1
}

fn are_same(one: &[(Name, Kind)], other: &[(Name, Kind)]) -> bool
    ensures { IsTrue result ↔ (one.now ≡ other.now) }
{
    if one.len() != other.len() {
        return false;
    }
    for k in 0..one.len() {
        if !is_same_row(&one[k], &other[k]) {
            return false;
        }
    }
    true
}

/// Whether two replies are one, the number that a `stat` tells aside.
pub(crate) fn is_same(one: &Reply, other: &Reply) -> bool
    ensures { IsTrue result ↔ (without_number one.now ≡ without_number other.now) }
{
    match (one, other) {
        (Reply::Ok, Reply::Ok) => true,
        (Reply::Kind(kind), Reply::Kind(wanted)) => kind == wanted,
        (Reply::Stat(kind, size, _), Reply::Stat(wanted, length, _)) => kind == wanted
            && size == length,
        (Reply::Data(bytes), Reply::Data(wanted)) => bytes.as_slice() == wanted.as_slice(),
        (Reply::Count(count), Reply::Count(wanted)) => count == wanted,
        (Reply::Entries(entries, more), Reply::Entries(wanted, left)) => {
            more == left && are_same(entries.as_slice(), wanted.as_slice())
        }
        (Reply::Err(errno), Reply::Err(wanted)) => errno == wanted,
        (Reply::Fault(fault), Reply::Fault(wanted)) => fault == wanted,
        _ => false,
    }
}
