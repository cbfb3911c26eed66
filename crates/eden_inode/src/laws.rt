ghost use Rattle.eden_inode.specs.Trails.{LeadOn, StampsKeepNames, LoadsKeepNames, SameKeepsPlaces, PlacesGoOn};
ghost use Rattle.eden_inode.specs.Trails.{RiseKeepsPlaces, UnloadsKeepPlaces};

use eden_model::World;
use eden_overlay::Files;

/// What keeps a noted place: looks and loads keep names at their positions, and whatever else changes names raises the
/// count of changes.
pub fn place_laws<W: World, F: Files<W>>()
    ensures lead_on { LeadOn }
    ensures stamps { StampsKeepNames }
    ensures loads { LoadsKeepNames }
    ensures same { SameKeepsPlaces F }
    ensures go_on { PlacesGoOn F }
    ensures rise { RiseKeepsPlaces F }
    ensures unloads { UnloadsKeepPlaces F W.honest }
{}
