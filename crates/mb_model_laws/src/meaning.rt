//! Laws of what a memory means.

ghost use Rattle.mb_model_laws.specs.MeaningLaws.{HoldsOneContents, StandsForOne, OneFaultBy, WellFormedHasNoFaultBy, WellFormedOrFaultyBy, WellFormedStandsForOneBy, OneFault, WellFormedHasNoFault, WellFormedOrFaulty, WellFormedStandsForOne, CleanStandsForIt, BlankIsDead, FactoryImageIsWellFormed};
ghost use Rattle.mb_model.specs.memories.OldFlash.{HeldPublic};
ghost use Rattle.mb_model_lemmas.specs.FormLaws.{HoldsOnePublic, HoldsFittingParts};
ghost use Rattle.mb_model_lemmas.specs.ImageLaws.{WrittenMemoriesAreSized, WrittenMemoryIsClean, WrittenImagesAreWellFormed};

/// The bytes of a memory hold at most one `Contents`, and mean at most one state.
pub fn one_meaning()
    ensures contents { HoldsOneContents }
    ensures state { StandsForOne }
{}

/// An image of bytes has one fault at most. A well-formed one has none, and means one state; no image is neither well
/// formed nor faulty.
pub fn images_are_clear()
    ensures fault { OneFault }
    ensures none { WellFormedHasNoFault }
    ensures either { WellFormedOrFaulty }
    ensures state { WellFormedStandsForOne }
{}

/// An image whose flash has the earlier form has one fault at most, or else is well formed and means one state. For a
/// root, a flash of that form holds one list of codes and one log, for which a device has room.
pub fn old_images_are_clear()
    ensures public { HoldsOnePublic HeldPublic }
    ensures fit { HoldsFittingParts HeldPublic }
    ensures fault { OneFaultBy HeldPublic }
    ensures none { WellFormedHasNoFaultBy HeldPublic }
    ensures either { WellFormedOrFaultyBy HeldPublic }
    ensures state { WellFormedStandsForOneBy HeldPublic }
{}

/// A memory that is clean for a state means it, if the flash holds the state's codes and log. A memory that is all zero
/// is clean for the dead device alone.
pub fn clean_memories_stand_for_it()
    ensures live { CleanStandsForIt }
    ensures dead { BlankIsDead }
{}

/// An image that is written from nothing, for a state that fits it, has two memories of their lengths, the
/// battery-backed one clean for that state. The image is well formed if the state is valid, and so is that of a dead
/// device.
pub fn written_images_are_well_formed()
    ensures sized { WrittenMemoriesAreSized }
    ensures clean { WrittenMemoryIsClean }
    ensures well_formed { WrittenImagesAreWellFormed }
{}

/// The image from the factory is well formed, and means the state of a new device.
pub fn factory_images_are_well_formed()
    ensures { FactoryImageIsWellFormed }
{}
