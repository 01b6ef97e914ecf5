// Laws of the names of a payload's files, and of what the files hold.
ghost use Rattle.payload_files.specs.Names.{NamesDiffer};
ghost use Rattle.payload_files.specs.Payload.{FilesFill, SameFilesHold};

/// Two files of a layout have different names on the disk.
pub fn names_differ()
    ensures { NamesDiffer }
{}

/// Files of the right lengths fill their layout, so the parts of a slice of the layout hold that slice of the payload
/// (`span_map::parts_hold_slices`).
pub fn files_fill()
    ensures { FilesFill }
{}

/// What has of each file the same holds the same payload. So after `sync_files` every image holds the payload that the
/// disk reads.
pub fn same_files_hold()
    ensures { SameFilesHold }
{}
