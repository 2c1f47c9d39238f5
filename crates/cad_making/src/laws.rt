// Laws of the end of resources.
ghost use Rattle.cad_making.specs.Laws.{BurialKeeps, EndsByParts, EventsKeep, LayingOutKeeps};

/// The end of a resource is its laying out, its events in order, and its burial.
pub fn the_end_is_by_parts()
    ensures { EndsByParts }
{}

/// Labels stand once behind laying out, and while the events are made, and behind the burial.
pub fn ends_keep_labels()
    ensures laid_out { LayingOutKeeps }
    ensures events { EventsKeep }
    ensures buried { BurialKeeps }
{}
