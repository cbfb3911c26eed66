//! Where requests wait: a seat for the place of each pass, made once one is to be kept.
ghost use Rattle.std.specs.Prelude.{◌≡◌, ◌<◌, ◌≤◌, ℕ, true, false, length};
ghost use Rattle.eden_mount.specs.Places.{kept_at, Notes};

/// Keeps a place at a seat. If there is no memory for another seat it isn't kept, and that is no refusal.
pub(crate) fn note<P: Drop>(places: &mut Vec<Option<P>>, seat: usize, place: P)
    ensures { Notes seat place places.old.items places.new.items }
{
    if !widen(places, seat) {
        return;
    }
    drop(places[seat].replace(place));
}

/// Makes seats up to this one, with nothing kept at those that are new. False if there is no memory for them all.
fn widen<P: Drop>(places: &mut Vec<Option<P>>, seat: usize) -> bool
    ensures wide { result ≡ true → seat < length places.new.items }
    ensures narrow { result ≡ false → length places.old.items ≤ seat }
    ensures same { (i : ℕ) → kept_at i places.new.items ≡ kept_at i places.old.items }
{
    for _seat in places.len()..=seat {
        if places.push(None).is_err() {
            return false;
        }
    }
    true
}
