// Laws of files, each the contract of a function that does nothing.
ghost use Rattle.dob_dbfile.specs.Looking.{RecordsAreEntries};

/// In the file of a table the record of a class is that of its value.
#[tactic(auto, using(crate::proofs::Looked::records_are_entries))]
pub fn records_are_entries()
    ensures { RecordsAreEntries }
{}
