//! Laws of a flash in segments: what it holds, and what may be written to it.

ghost use Rattle.mb_model_lemmas.specs.SegmentLaws.{AreasHoldOneHeader, SegmentsHoldOne, BadLogSectorsHoldNothing, HeldHeadersAreSmall, HeldLogsAreAllowed, HeldTextsAreAllowed, HeldCodesAreShort, HeldSegmentsFit, WrittenEntriesAreHeld, EntriesFitTheirSectors, WrittenFlashIsWhole, WrittenFlashHolds};
ghost use Rattle.mb_model_memory.specs.FlashLaws.{AgreeingFlashesHoldTheSame, AgreementKeepsTheLog, FlashesAgreeWithThemselves, AgreementGoesOn, AgreementGoesBack, UncountedSectorsAreFree, OtherHeadersAreFree, UnnamedSlotsAreFree, OrdersAreHeld, OrderWritesAreHeld, EntriesHaveTexts, OrdersBringShortCode, OrderHeadersAreAllowed, SettledHeadersAreAllowed, LogWritesAppend, SettledLogsAreHeld, SettlingOneIsHeld, SettlingTwoIsHeld};

/// A header area of a flash in segments holds one header at most. For a root, the flash holds one list of codes and one
/// list of entries at most, and nothing if the header counts a sector of the log that holds no entry.
pub fn segments_hold_one()
    ensures header { AreasHoldOneHeader }
    ensures segments { SegmentsHoldOne }
    ensures nothing { BadLogSectorsHoldNothing }
{}

/// What a flash in segments holds fits a flash: headers name slots and counts that can be, entries have spellings, and
/// codes fit their slots.
pub fn held_segments_fit()
    ensures headers { HeldHeadersAreSmall }
    ensures log { HeldLogsAreAllowed }
    ensures texts { HeldTextsAreAllowed }
    ensures codes { HeldCodesAreShort }
    ensures fit { HeldSegmentsFit }
{}

/// A flash that is written from nothing is as long as a flash, and holds the codes and the log that it was written from.
pub fn written_flashes_hold_what_was_written()
    ensures entry { WrittenEntriesAreHeld }
    ensures bytes { EntriesFitTheirSectors }
    ensures whole { WrittenFlashIsWhole }
    ensures holds { WrittenFlashHolds }
{}

/// Flashes that agree wherever a header area counts hold the same codes, entries and signed log for it. A flash agrees with
/// itself, and agreement goes from write to write and back.
pub fn agreeing_flashes_hold_the_same()
    ensures segments { AgreeingFlashesHoldTheSame }
    ensures log { AgreementKeepsTheLog }
    ensures itself { FlashesAgreeWithThemselves }
    ensures further { AgreementGoesOn }
    ensures back { AgreementGoesBack }
{}

/// Three parts of a flash can be written, and torn, without an effect on what is held: sectors of the log that the
/// header does not count, the other header area, and code slots that the header does not name.
pub fn free_places_can_be_written()
    ensures log { UncountedSectorsAreFree }
    ensures header { OtherHeadersAreFree }
    ensures code { UnnamedSlotsAreFree }
{}

/// An order's code, in the free slot of its layer, and its header, in the other area, make the flash hold what the order
/// leaves, for the root that commits it; until then the flash holds what it held.
pub fn order_writes_are_held()
    ensures held { OrdersAreHeld }
    ensures writes { OrderWritesAreHeld }
    ensures texts { EntriesHaveTexts }
    ensures code { OrdersBringShortCode }
    ensures header { OrderHeadersAreAllowed }
{}

/// Log sectors and then a header that counts them make the flash hold the completed log, for the root that ends the work;
/// until then the flash holds what it held.
pub fn settling_writes_are_held()
    ensures append { LogWritesAppend }
    ensures held { SettledLogsAreHeld }
    ensures one { SettlingOneIsHeld }
    ensures two { SettlingTwoIsHeld }
    ensures header { SettledHeadersAreAllowed }
{}
