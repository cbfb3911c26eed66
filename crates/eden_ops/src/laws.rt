ghost use Rattle.eden_ops.specs.Left.{FewAreLeft, SomeAreLeft, NeedsStay, LeftFalls};
ghost use Rattle.eden_ops.specs.Laws.{KeepsShown, KeepsFiles, KeepsEntries, KeepsCounts, KeepsLeaves, KeepsStamps};
ghost use Rattle.eden_ops.specs.Laws.{KeepsGains};
ghost use Rattle.eden_ops.specs.Laws.{PlaceIsFront, NextIsDeeper};

use eden_coupling::shown_laws;
use eden_model::{World, backing_laws};
use eden_overlay::Files;

/// What an attempt that changes nothing keeps: what is shown, and if the outside is honest the stored files; each
/// entry, and what is loaded, and no directory becomes unsaved; the clock and the count of changes; the stamp of each
/// directory that is loaded, unless it leads to a path of the request; and each number that is shown. Numbers are
/// given, and the device's failures rise.
pub fn keeps_laws<W: World, F: Files<W>>()
    ensures shown { KeepsShown W.World F.Files }
    ensures files { KeepsFiles W.World F.Files }
    ensures entries { KeepsEntries W.World F.Files }
    ensures counts { KeepsCounts W.World F.Files }
    ensures leaves { KeepsLeaves W.World F.Files }
    ensures stamps { KeepsStamps W.World F.Files }
    ensures gains { KeepsGains W.World F.Files }
{
    shown_laws();
    backing_laws();
}

/// What the definition of a wait says of the waits of one path: each stands deeper than the one before.
pub fn wait_laws()
    ensures front { PlaceIsFront }
    ensures deeper { NextIsDeeper }
{}

/// How many objects a request may still need, and how that falls: at most one for each place of its paths, never more
/// than before, one less for each needed object that comes; and what was needed is needed still, or the request has
/// come further.
pub fn need_laws()
    ensures few { FewAreLeft }
    ensures some { SomeAreLeft }
    ensures stay { NeedsStay }
    ensures falls { LeftFalls }
{}
