//! The event file: of each version the one string of bytes of a list of events, which bytes are such a file and of which events,
//! and the first fault of any others. They are definitions, which stand in the crate's folder `specs`; their laws are contracts of functions
//! without parameters, and `proofs` has what several crates need of the reading of fields.
#![tactic(auto)]

ghost use Rattle.file_words.specs.FileLaws.{FilesAreRead, FilesDiffer};
ghost use Rattle.file_words.specs.FileRunLaws.{RunsHoldHistories, RunsAreTheLongest};
ghost use Rattle.file_words.specs.FileVersionLaws.{BothVersionsAreRead, RunFilesDiffer, VersionOneStays, RunFilesAreShort};

/// Of version 1: events are read from bytes exactly where the bytes are their file and the events may stand in one.
pub fn law_files_are_read()
    ensures { FilesAreRead }
{}

/// Two lists of events have one file of version 1 only where they are one list.
pub fn law_files_differ()
    ensures { FilesDiffer }
{}

/// The events of a history's runs, one run behind the other, are the history.
pub fn law_runs_hold_histories()
    ensures { RunsHoldHistories }
{}

/// The runs of a history are as long as they can be, and of such runs only these hold its events.
pub fn law_runs_are_longest()
    ensures { RunsAreTheLongest }
{}

/// Events are read from bytes exactly where the bytes are one of the two files of the events, and these may stand in one.
pub fn law_both_versions_are_read()
    ensures { BothVersionsAreRead }
{}

/// Two lists of events have one file in runs only where they are one list.
pub fn law_run_files_differ()
    ensures { RunFilesDiffer }
{}

/// Of bytes that don't name version 2 it is found what is found where version 1 is the only one.
pub fn law_version_one_stays()
    ensures { VersionOneStays }
{}

/// A file in runs has no more bytes than files of so many events may have.
pub fn law_run_files_are_short()
    ensures { RunFilesAreShort }
{}
