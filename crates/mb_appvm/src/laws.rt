//! Laws of the definitions, and the numbers of the code, as the contracts of functions that do nothing.

ghost use Rattle.mb_model.specs.application.Runs.{RunsEndOnce, RunsSeeNothingElse};
ghost use Rattle.mb_appvm.specs.Listing.{AssembliesAreClear, ListingsAssemble};
ghost use Rattle.mb_appvm.specs.NumberLaws.{ApplicationNumbersAre};
ghost use Rattle.mb_appvm.specs.Tracing.{TracesAreTrue};

/// A run ends in one way.
pub fn runs_end_once()
    ensures { RunsEndOnce }
{}

/// What stands in regions that the running layer may not read changes nothing: devices that agree on the secrets that
/// may be read have equal ends.
pub fn runs_see_nothing_else()
    ensures { RunsSeeNothingElse }
{}

/// A text assembles to one code, or one line of it is the first that is wrong; never two of either, never both.
pub fn assemblies_are_clear()
    ensures { AssembliesAreClear }
{}

/// The text that is written of a code assembles to that code and to no other, and no line of it is wrong.
pub fn listings_assemble()
    ensures { ListingsAssemble }
{}

/// A step that goes on leaves the memory with what its line says that it writes, and as it was if the line says nothing
/// of memory.
pub fn traces_are_true()
    ensures { TracesAreTrue }
{}

/// The limits of the machine are these numbers.
pub fn numbers_are()
    ensures { ApplicationNumbersAre }
{}
