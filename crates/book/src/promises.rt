//! What follows of the calls, each promise a function's contract.
ghost use Rattle.book.specs.Promises.{FromTheFourthBlock, NobodyElsesAccount, OneRevisionASlot};

/// A revision leaves every block before the fourth, counting the notice's as the first, and every other station's schedule.
pub fn revisions_start_in_the_fourth_block()
    ensures { FromTheFourthBlock }
{}

/// No slot is used by two revisions.
pub fn one_revision_a_slot()
    ensures { OneRevisionASlot }
{}

/// Settling and correcting a station leave the accounts of all other generators and all other stations.
pub fn nobody_elses_account_changes()
    ensures { NobodyElsesAccount }
{}
