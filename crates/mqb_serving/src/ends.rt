ghost use Rattle.mqb_serving.specs.EndLaws.{AnswersAreNoFaults, ReadIsPast};

/// Whatever bytes were read, a manager is as behind some pumps from where pumping started.
pub fn read_is_past()
    ensures { ReadIsPast }
{}

/// What the definitions answer to a pump and to a packet is never want of memory or
/// a fault of the disk.
pub fn answers_are_no_faults()
    ensures { AnswersAreNoFaults }
{}
