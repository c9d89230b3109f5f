//! Laws of where things stand in a flash in segments.

ghost use Rattle.mb_model_laws.specs.SectorLaws.{SlotsAreApart, SlotsAreBetween, LogSectorsFit};

/// No sector belongs to two of the header areas, code slots and log sectors, and all of them lie within the flash.
pub fn sectors_are_apart()
    ensures slots { SlotsAreApart }
    ensures between { SlotsAreBetween }
    ensures log { LogSectorsFit }
{}
