//! What follows from the definitions alone.
ghost use Rattle.bdb_mkqueue.specs.Written.{WrittenQueuesAreSound};

/// The pages of a queue under its metadata, which is written over page 0, are a sound file with the list of the queue.
pub fn written_queues_are_sound()
    ensures { WrittenQueuesAreSound }
{}
