//! What holds of the command table: of every list of runs, of merges and what they take, of upgrades, of watches and exports, of past versions
//! and replays, of the frames of an input, and of two people who talk to each other.
#![tactic(auto)]

ghost use Rattle.table_laws.specs.FramingLaws.{FramingsAreCuts, FramingsAreFound, FramingsAreOne};
ghost use Rattle.table_laws.specs.JournalLaws.{ExportsOpen, WatchesEdit};
ghost use Rattle.table_laws.specs.MergeLaws.{MergesAgree, MergesHoldSame, MergesStore, MergesTakeAll};
ghost use Rattle.table_laws.specs.PastLaws.{HeadsAreAVersion, HeadsShowAll, ReplaysMakeContent, VersionsAreTaken};
ghost use Rattle.table_laws.specs.Sequences.{RunsFold};
ghost use Rattle.table_laws.specs.UpgradeLaws.{UpgradesKeep};
ghost use Rattle.table_laws.specs.MergeTouches.{MergesSpare};
ghost use Rattle.table_laws.specs.Conversations.{ConversationsAgree, ConversationsBring};

/// After a list of runs of which none met a fault or want of memory, the files and the journal are the fold of the
/// command table, and each run printed and answered what the table says.
pub fn law_runs()
    ensures { RunsFold }
{}

/// Where a merge is done, each event of the other file was appended or was there before; none waits, and none is refused.
pub fn law_merge_whole()
    ensures { MergesTakeAll }
{}

/// Where two files are merged both ways, both show the same text.
pub fn law_merge_both_ways()
    ensures { MergesAgree }
{}

/// Where a merge is done, its file opens as its own events and behind them those of the other file that it didn't hold, in their order.
pub fn law_merge_files()
    ensures { MergesStore }
{}

/// Where two files are merged both ways, both hold the same events.
pub fn law_merge_same_events()
    ensures { MergesHoldSame }
{}

/// Where an upgrade is done, its file, of whichever version it was, is of version 2 afterwards and opens as the events that it opened as before.
/// Files of other names stay, and where the version was 2, no file changes.
pub fn law_upgrade()
    ensures { UpgradesKeep }
{}

/// Where a watch is done, the journal holds the events that `edit` makes of the same script, behind those from before.
pub fn law_watch()
    ensures { WatchesEdit }
{}

/// Where an export is done, its file, which wasn't there, opens as the journal's events, and files of other names stay.
pub fn law_export()
    ensures { ExportsOpen }
{}

/// A word is taken for a version exactly where it is in the grammar of versions.
pub fn law_version_words()
    ensures { VersionsAreTaken }
{}

/// Where a version names all heads of a file, and no id that the file doesn't hold, `cat --at` answers what `cat` answers.
pub fn law_past_whole()
    ensures { HeadsShowAll }
{}

/// The heads of a file, as `heads` prints them but with a comma between two (`root` where there is none), are a version that names
/// them all.
pub fn law_heads_version()
    ensures { HeadsAreAVersion }
{}

/// What `replay` prints is read in one way, as operations, and doing these in order, from the empty text on, makes what `cat` prints.
pub fn law_replays()
    ensures { ReplaysMakeContent }
{}

/// Each input of a session has a framing.
pub fn law_framings_found()
    ensures { FramingsAreFound }
{}

/// No input of a session has two framings.
pub fn law_framings_one()
    ensures { FramingsAreOne }
{}

/// The frames of a framing are those that the input, up to the limit, is cut into.
pub fn law_framings_cuts()
    ensures { FramingsAreCuts }
{}

/// Where a merge is done, what its receiving takes is what a walk takes over the events from a critical version on, as if none
/// stood before: from the latest one of the history that the file holds then, among those that its events had come to before.
pub fn law_merge_touches()
    ensures { MergesSpare }
{}

/// The bytes that `ask` prints for a file are given to `serve` with another, and its answer, with a Bye behind it, to `serve` with the
/// first. Where both are good histories that can be one, that leaves the first with every event of the other.
pub fn law_conversation()
    ensures { ConversationsBring }
{}

/// Done both ways, both files hold the same events, and `cat` prints the same.
pub fn law_conversations_agree()
    ensures { ConversationsAgree }
{}
