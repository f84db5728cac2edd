ghost use Rattle.mqb_model.specs.laws.Durable.{CallsLeaveStore, DurableIsApplied, DurableIsFitted};
ghost use Rattle.mqb_model.specs.laws.Durable.{LeavingIsDurable, MeetsDurably, StepsAreDurable};
ghost use Rattle.mqb_model.specs.laws.Fitting.{PumpedIsReadable, RecordsAreRead};
ghost use Rattle.mqb_model.specs.laws.Fitting.{RecordsAreSpelled, RecordsFit};
ghost use Rattle.mqb_model.specs.laws.Keeping.{
  AppliedIsValid,
  CallsKeepValid,
  KeptIsValid,
  LinkedIsValid,
  RecordsKeepIdentities,
};
ghost use Rattle.mqb_model.specs.laws.Refusals.{RefusalsChangeNothing};
ghost use Rattle.mqb_model.specs.laws.Stepwise.{StepwiseIsEffect};
ghost use Rattle.mqb_model.specs.laws.Validity.{
  DurableIsValid,
  FailedIsValid,
  LostIsValid,
  NewIsValid,
  RefusedIsSame,
  ResentIsValid,
  RestartedIsValid,
  UnlinkedIsValid,
  UnreadIsValid,
};

/// A record that is tried step by step is applied exactly where it fits.
pub fn stepwise_is_effect()
    ensures { StepwiseIsEffect }
{}

/// A call that is refused changes nothing, and the disk is called exactly where
/// a record is written.
pub fn refusals_change_nothing()
    ensures { RefusalsChangeNothing }
{}

/// A manager that has nothing but its identity is valid.
pub fn new_is_valid()
    ensures { NewIsValid }
{}

/// What a store stands for is valid where the state is.
pub fn durable_is_valid()
    ensures { DurableIsValid }
{}

/// No record changes the identity of a manager.
pub fn records_keep_identities()
    ensures { RecordsKeepIdentities }
{}

/// A valid manager that goes down under a record that may have been written, or
/// under none, is valid.
pub fn failed_is_valid()
    ensures { FailedIsValid }
{}

/// A manager that is started over the store of a valid state is valid.
pub fn restarted_is_valid()
    ensures { RestartedIsValid }
{}

/// A valid manager is valid again over a store without the record in doubt.
pub fn lost_is_valid()
    ensures { LostIsValid }
{}

/// What follows when a durable message meets a class reads and changes nothing but
/// what a store stands for.
pub fn meets_durably()
    ensures { MeetsDurably }
{}

/// The steps of records read and change nothing but what a store stands for.
pub fn steps_are_durable()
    ensures { StepsAreDurable }
{}

/// Durable messages are taken, purged and due without a look at anything but
/// what a store stands for.
pub fn leaving_is_durable()
    ensures { LeavingIsDurable }
{}

/// A record that fits a valid state does the same to what a store stands for.
pub fn durable_is_applied()
    ensures { DurableIsApplied }
{}

/// A record fits a valid state exactly where it fits what a store stands for.
pub fn durable_is_fitted()
    ensures { DurableIsFitted }
{}

/// A valid manager that cannot read its store is valid.
pub fn unread_is_valid()
    ensures { UnreadIsValid }
{}

/// A record that a call makes fits. Of `hear` and `pump` that is said of a valid manager, and
/// of the others of any.
pub fn records_fit()
    ensures { RecordsFit }
{}

/// A call that changes nothing leaves a valid manager as it was.
pub fn refused_is_same()
    ensures { RefusedIsSame }
{}

/// A valid manager whose connection ends is valid.
pub fn unlinked_is_valid()
    ensures { UnlinkedIsValid }
{}

/// A valid manager that sends anew is valid.
pub fn resent_is_valid()
    ensures { ResentIsValid }
{}

/// A valid manager for which a connection begins is valid.
pub fn linked_is_valid()
    ensures { LinkedIsValid }
{}

/// A valid state stays valid by each record that was read and fits.
pub fn applied_is_valid()
    ensures { AppliedIsValid }
{}

/// A valid manager is valid again over a store that has the record in doubt.
pub fn kept_is_valid()
    ensures { KeptIsValid }
{}

/// A valid manager stays valid by each call, whether it goes well, is refused, or its disk fails.
pub fn calls_keep_valid()
    ensures { CallsKeepValid }
{}

/// What a call does beside its record leaves what the store stands for.
pub fn calls_leave_store()
    ensures { CallsLeaveStore }
{}

/// A record that a call makes has a spelling.
pub fn records_are_spelled()
    ensures { RecordsAreSpelled }
{}

/// A record that a call makes tells of what can be carried.
pub fn records_are_read()
    ensures { RecordsAreRead }
{}

/// The packets that a valid manager pumps can be heard.
pub fn pumped_is_readable()
    ensures { PumpedIsReadable }
{}
