//! What follows from the definitions alone.
ghost use Rattle.bdb_law_sections.specs.Fit.{ReadSectionsAreFit, ReadQueuesHaveBytes};

/// The sections that a text is read as can be loaded: settings don't go against each other, keys are those of the kind, names are apart.
pub fn read_sections_are_fit()
    ensures { ReadSectionsAreFit }
{}

/// The records of a queue that a text is read as have bytes.
pub fn read_queues_have_bytes()
    ensures { ReadQueuesHaveBytes }
{}
