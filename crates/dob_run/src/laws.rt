// A law of crews, the contract of a function that does nothing.
ghost use Rattle.dob_run.specs.Finished.{FinishedIsRight};

/// A crew whose runners are all lawful and white, with as many batches taken as were posted on each link, shows the value
/// table.
pub fn finished_is_right()
    ensures { FinishedIsRight }
{}
