ghost use Rattle.mqb_replies.specs.Asked.{CheckpointsAreReplied, RequestsAreReplied};

/// There is a reply to what each request comes to: no definition answers `Memory` or `DiskFault`,
/// which come of memory and of the disk alone.
pub fn requests_are_replied()
    ensures { RequestsAreReplied }
{}

/// Nor does the definition of a checkpoint.
pub fn checkpoints_are_replied()
    ensures { CheckpointsAreReplied }
{}
