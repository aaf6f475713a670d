//! What follows from the definitions alone.
ghost use Rattle.bdb_onto.specs.Laws.{JoinedAreLoadable, JoinedBuildOnto, JoinedLoadWithoutErrors, NoFirstErrorIsNone, OntoNothingIsLoading};
ghost use Rattle.bdb_onto.specs.Samples.{SamplesCompute};

/// If no load error holds for sections on a base, none holds for the sections that are joined with its databases.
pub fn joined_load_without_errors()
    ensures { JoinedLoadWithoutErrors }
{}

/// The joined sections can be loaded.
pub fn joined_are_loadable()
    ensures { JoinedAreLoadable }
{}

/// An image that is built of the joined sections is one that is built of the sections on the base.
pub fn joined_build_onto()
    ensures { JoinedBuildOnto }
{}

/// If sections on a base have no first load error, none holds for any of them.
pub fn no_first_error_is_none()
    ensures { NoFirstErrorIsNone }
{}

/// Onto a base without databases a section is loaded as by itself.
pub fn onto_nothing()
    ensures { OntoNothingIsLoading }
{}

/// The results and first errors of loading small texts onto small bases, worked out by hand.
pub fn samples_compute()
    ensures { SamplesCompute }
{}
