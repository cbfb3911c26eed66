ghost use Rattle.eden_checkout.specs.Laws.{OpensFresh, OpensAsShown, FindsAsOverlay, AccusesAsOverlay};

use eden_model::backing_laws;
use eden_overlay::overlay_laws;

/// What whoever opens a checkout has to know: over no files it shows the commit's whole tree, and closed files back the
/// inode numbers that they show. What a rescan finds, and what it accuses files of, is what the overlay's does.
pub fn opening_laws()
    ensures fresh { OpensFresh }
    ensures as_shown { OpensAsShown }
    ensures finds { FindsAsOverlay }
    ensures accuses { AccusesAsOverlay }
{
    overlay_laws();
    backing_laws();
}
