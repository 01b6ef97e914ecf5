// Laws of the newest connection of a door.
ghost use Rattle.door_source.specs.DoorLaws.{NewestIsOne};

/// The connection that a call changes is the last one of the list.
pub fn newest_connection_is_one()
    ensures { NewestIsOne }
{}
