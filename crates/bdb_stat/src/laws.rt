//! A law of the classes of pages.
ghost use Rattle.bdb_stat.specs.Laws.{ClassesAddUp};

/// The nine classes of a sound file have all its pages, each once.
pub fn classes_add_up()
    ensures { ClassesAddUp }
{}
