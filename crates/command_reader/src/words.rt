//! The words of a command line.
ghost use Rattle.std.specs.Prelude.{◌≡◌, IfOk, Some, codes, map, string_bytes};
ghost use Rattle.std.specs.Prelude.{option_and_then};
ghost use Rattle.std.specs.Option.{option_map};
ghost use Rattle.clap.specs.Words.{first_of, found_of, rows_of, subcommand_rows_of};
ghost use Rattle.command_table.specs.Table.{agent_in, blame_at, blame_line, blame_listing, caret_line, caret_listing, cat_line, command_in, create, edit_line, file_line, id_in, line_in, line_of, make_line, merge_line, number_between, seed_in, show, undo_line, upgrade, watch_line};
ghost use Rattle.command_table.specs.Table as table;
ghost use Rattle.command_table.specs.VersionWords.{version_in};
ghost use Rattle.command_table.specs.Cli.{most_columns, most_index, most_undone};
ghost use Rattle.command_reader.specs.Words.{command_view, line_view, listing_view};

use crate::cli::{MOST_COLUMNS, MOST_MADE, MOST_UNDONE, egw_command};
use clap::ArgMatches;
use clap::error::ErrorKind;
use ew_model::NoMem;
use ew_model::id::Id;
use ew_model::name::Name;
use script_reader::version::{VersionTextFault, read_id, read_version};
use std::alloc::Global;

/// What is shown of a file.
#[derive(Debug, Drop)]
pub enum Listing {
    /// The text.
    Content,
    /// The text of the version of these ids.
    Past(Vec<Id>),
    /// The ids of the heads.
    Heads,
    /// The events.
    Log,
    /// What each event does to the text of those before it.
    Replay,
    /// How many events, agents, heads, cuts and characters there are.
    Numbers,
    /// What a peer is asked for the events that the file lacks.
    Question,
    /// The marks, with their labels.
    Marks,
    /// The index at which a caret is that was taken at an index of a version's text.
    Caret {
        version: Vec<Id>,
        index: u32,
    },
    /// Who wrote what, of the whole text or of a version, in so many columns.
    Blame {
        version: Option<Vec<Id>>,
        columns: u32,
    },
}

/// A command that is taken.
#[derive(Debug, Drop)]
pub enum Taken<'a> {
    New(&'a str),
    Edit {
        file: &'a str,
        agent: Name,
    },
    Show {
        listing: Listing,
        file: &'a str,
    },
    Merge {
        file: &'a str,
        other: &'a str,
    },
    Upgrade(&'a str),
    /// So many events, from one on, are undone by an agent.
    Undo {
        file: &'a str,
        agent: Name,
        first: Id,
        count: u32,
    },
    Make {
        seed: u64,
        count: u32,
    },
    Net,
}

/// A command line that is taken.
#[derive(Debug, Drop)]
pub enum Line<'a> {
    Does(Taken<'a>),
    /// A peer is served with this file.
    Serves(&'a str),
    /// This agent's script goes into the journal, line by line.
    Watches(Name),
    /// The journal's events become this file.
    Exports(&'a str),
}

/// The first value of an argument.
fn value<'a>(values: &ArgMatches<'a>, id: &str) -> Option<&'a str>
    ensures { option_map (λ s. s.now) result ≡ first_of id.now (rows_of (found_of values.now)) }
{
    values.get_str(id)
}

fn read_new<'a>(values: &ArgMatches<'a>) -> Option<Taken<'a>>
    ensures { option_map command_view result ≡ file_line create (rows_of (found_of values.now)) }
{
    let file = value(values, "file")?;
    Some(Taken::New(file))
}

/// The agent that is given, where it is a name.
fn agent_in(values: &ArgMatches<'_>) -> Option<Name>
    ensures { result ≡ agent_in (rows_of (found_of values.now)) }
{
    let agent = value(values, "agent")?;
    Name::read(agent.as_bytes()).ok()
}

fn read_edit<'a>(values: &ArgMatches<'a>) -> Option<Taken<'a>>
    ensures { option_map command_view result ≡ edit_line (rows_of (found_of values.now)) }
{
    let file = value(values, "file")?;
    let agent = agent_in(values)?;
    Some(Taken::Edit { file, agent })
}

/// The version that a word spells, in ids.
fn version_in(alloc: Global, word: &str) -> Result<Option<Vec<Id>>, NoMem>
    ensures { IfOk result (λ version. option_map (λ ids. ids.items) version ≡ version_in word.now) }
{
    match read_version(alloc, word.as_bytes()) {
        Ok(version) => Ok(Some(version)),
        Err(VersionTextFault::Unreadable) => Ok(None),
        Err(VersionTextFault::OutOfMemory) => Err(NoMem),
    }
}

/// The text as a whole, or that of a version, where the word is one.
fn content_at(alloc: Global, word: Option<&str>) -> Result<Option<Listing>, NoMem>
    ensures { IfOk result (λ listing. option_map listing_view listing ≡ table.content_at (option_map (λ w. w.now) word.entry)) }
{
    let Some(word) = word else {
        return Ok(Some(Listing::Content));
    };
    match version_in(alloc, word)? {
        Some(version) => Ok(Some(Listing::Past(version))),
        None => Ok(None),
    }
}

fn read_cat<'a>(alloc: Global, values: &ArgMatches<'a>) -> Result<Option<Taken<'a>>, NoMem>
    ensures { IfOk result (λ l. option_map command_view l ≡ cat_line (rows_of (found_of values.now))) }
{
    let Some(file) = value(values, "file") else {
        return Ok(None);
    };
    let Some(listing) = content_at(alloc, value(values, "at"))? else {
        return Ok(None);
    };
    Ok(Some(Taken::Show { listing, file }))
}

fn read_show<'a>(listing: Listing, values: &ArgMatches<'a>) -> Option<Taken<'a>>
    ensures { option_map command_view result ≡ file_line (show (listing_view listing)) (rows_of (found_of values.now)) }
{
    let file = value(values, "file")?;
    Some(Taken::Show { listing, file })
}

fn read_merge<'a>(values: &ArgMatches<'a>) -> Option<Taken<'a>>
    ensures { option_map command_view result ≡ merge_line (rows_of (found_of values.now)) }
{
    let file = value(values, "file")?;
    let other = value(values, "other")?;
    Some(Taken::Merge { file, other })
}

fn read_upgrade<'a>(values: &ArgMatches<'a>) -> Option<Taken<'a>>
    ensures { option_map command_view result ≡ file_line upgrade (rows_of (found_of values.now)) }
{
    let file = value(values, "file")?;
    Some(Taken::Upgrade(file))
}

/// The seed that a word spells.
fn seed_in(word: &str) -> Option<u64>
    ensures { result ≡ seed_in word.now }
{
    word.parse().ok()
}

/// The number that a word spells with its sign, if it is at least `least` and at most `most`.
fn number_between(word: &str, least: u32, most: u32) -> Option<u32>
    ensures number { result ≡ number_between least most word.now }
{
    let number = word.parse::<i64>().ok()?;
    if i64::from(least) <= number && number <= i64::from(most) {
        Some(number as u32)
    } else {
        None
    }
}

fn read_make<'a>(values: &ArgMatches<'a>) -> Option<Taken<'a>>
    ensures { option_map command_view result ≡ make_line (rows_of (found_of values.now)) }
{
    let seed = seed_in(value(values, "seed")?)?;
    let count = number_between(value(values, "count")?, 0, MOST_MADE)?;
    Some(Taken::Make { seed, count })
}

/// The index that is given.
fn index_in(values: &ArgMatches<'_>) -> Option<u32>
    ensures { result ≡ option_and_then (number_between 0 most_index) (first_of (codes "index") (rows_of (found_of values.now))) }
{
    number_between(value(values, "index")?, 0, u32::MAX)
}

/// The version that is given.
fn given_version(alloc: Global, values: &ArgMatches<'_>) -> Result<Option<Vec<Id>>, NoMem>
    ensures { IfOk result (λ version. option_map (λ ids. ids.items) version ≡ option_and_then version_in (first_of (codes "at") (rows_of (found_of values.now)))) }
{
    match value(values, "at") {
        Some(word) => version_in(alloc, word),
        None => Ok(None),
    }
}

fn caret_listing(alloc: Global, values: &ArgMatches<'_>) -> Result<Option<Listing>, NoMem>
    ensures { IfOk result (λ l. option_map listing_view l ≡ caret_listing (rows_of (found_of values.now))) }
{
    let Some(version) = given_version(alloc, values)? else {
        return Ok(None);
    };
    match index_in(values) {
        Some(index) => Ok(Some(Listing::Caret { version, index })),
        None => Ok(None),
    }
}

fn read_caret<'a>(alloc: Global, values: &ArgMatches<'a>) -> Result<Option<Taken<'a>>, NoMem>
    ensures { IfOk result (λ l. option_map command_view l ≡ caret_line (rows_of (found_of values.now))) }
{
    let Some(file) = value(values, "file") else {
        return Ok(None);
    };
    let Some(listing) = caret_listing(alloc, values)? else {
        return Ok(None);
    };
    Ok(Some(Taken::Show { listing, file }))
}

/// Who wrote what, of the whole text or of a version, where the word is one.
fn blame_at(alloc: Global, columns: u32, word: Option<&str>) -> Result<Option<Listing>, NoMem>
    ensures { IfOk result (λ listing. option_map listing_view listing ≡ blame_at columns (option_map (λ w. w.now) word.entry)) }
{
    let Some(word) = word else {
        return Ok(Some(Listing::Blame {
            version: None,
            columns,
        }));
    };
    match version_in(alloc, word)? {
        Some(version) => Ok(Some(Listing::Blame {
            version: Some(version),
            columns,
        })),
        None => Ok(None),
    }
}

/// The number of columns that is given.
fn columns_in(values: &ArgMatches<'_>) -> Option<u32>
    ensures { result ≡ option_and_then (number_between 1 most_columns) (first_of (codes "columns") (rows_of (found_of values.now))) }
{
    number_between(value(values, "columns")?, 1, MOST_COLUMNS)
}

fn blame_listing(alloc: Global, values: &ArgMatches<'_>) -> Result<Option<Listing>, NoMem>
    ensures { IfOk result (λ l. option_map listing_view l ≡ blame_listing (rows_of (found_of values.now))) }
{
    match columns_in(values) {
        Some(columns) => blame_at(alloc, columns, value(values, "at")),
        None => Ok(None),
    }
}

fn read_blame<'a>(alloc: Global, values: &ArgMatches<'a>) -> Result<Option<Taken<'a>>, NoMem>
    ensures { IfOk result (λ l. option_map command_view l ≡ blame_line (rows_of (found_of values.now))) }
{
    let Some(file) = value(values, "file") else {
        return Ok(None);
    };
    let Some(listing) = blame_listing(alloc, values)? else {
        return Ok(None);
    };
    Ok(Some(Taken::Show { listing, file }))
}

/// The id that a word spells.
fn id_in(word: &str) -> Option<Id>
    ensures { result ≡ id_in word.now }
{
    read_id(word.as_bytes())
}

/// The first event that is undone.
fn first_in(values: &ArgMatches<'_>) -> Option<Id>
    ensures { result ≡ option_and_then id_in (first_of (codes "of") (rows_of (found_of values.now))) }
{
    id_in(value(values, "of")?)
}

/// How many events are undone.
fn undone_count(values: &ArgMatches<'_>) -> Option<u32>
    ensures { result ≡ option_and_then (number_between 1 most_undone) (first_of (codes "count") (rows_of (found_of values.now))) }
{
    number_between(value(values, "count")?, 1, MOST_UNDONE)
}

fn read_undo<'a>(values: &ArgMatches<'a>) -> Option<Taken<'a>>
    ensures { option_map command_view result ≡ undo_line (rows_of (found_of values.now)) }
{
    let file = value(values, "file")?;
    let agent = agent_in(values)?;
    let first = first_in(values)?;
    let count = undone_count(values)?;
    Some(Taken::Undo {
        file,
        agent,
        first,
        count,
    })
}

fn read_command<'a>(
    alloc: Global,
    name: &str,
    values: &ArgMatches<'a>,
) -> Result<Option<Taken<'a>>, NoMem>
    ensures command { IfOk result (λ c. option_map command_view c ≡ command_in name.now (rows_of (found_of values.now))) }
{
    match name {
        "new" => Ok(read_new(values)),
        "edit" => Ok(read_edit(values)),
        "cat" => read_cat(alloc, values),
        "heads" => Ok(read_show(Listing::Heads, values)),
        "log" => Ok(read_show(Listing::Log, values)),
        "replay" => Ok(read_show(Listing::Replay, values)),
        "check" => Ok(read_show(Listing::Numbers, values)),
        "merge" => Ok(read_merge(values)),
        "ask" => Ok(read_show(Listing::Question, values)),
        "make" => Ok(read_make(values)),
        "net" => Ok(Some(Taken::Net)),
        "marks" => Ok(read_show(Listing::Marks, values)),
        "upgrade" => Ok(read_upgrade(values)),
        "undo" => Ok(read_undo(values)),
        "caret" => read_caret(alloc, values),
        "blame" => read_blame(alloc, values),
        _ => Ok(None),
    }
}

fn read_serve<'a>(values: &ArgMatches<'a>) -> Option<Line<'a>>
    ensures { option_map line_view result ≡ option_map table.serves (first_of (codes "file") (rows_of (found_of values.now))) }
{
    let file = value(values, "file")?;
    Some(Line::Serves(file))
}

fn read_watch<'a>(values: &ArgMatches<'a>) -> Option<Line<'a>>
    ensures { option_map line_view result ≡ watch_line (rows_of (found_of values.now)) }
{
    let agent = agent_in(values)?;
    Some(Line::Watches(agent))
}

fn read_export<'a>(values: &ArgMatches<'a>) -> Option<Line<'a>>
    ensures { option_map line_view result ≡ option_map table.exports (first_of (codes "file") (rows_of (found_of values.now))) }
{
    let file = value(values, "file")?;
    Some(Line::Exports(file))
}

/// A command, if the words are one.
fn read_does<'a>(
    alloc: Global,
    name: &str,
    values: &ArgMatches<'a>,
) -> Result<Option<Line<'a>>, NoMem>
    ensures { IfOk result (λ l. option_map line_view l ≡ option_map table.does (command_in name.now (rows_of (found_of values.now)))) }
{
    match read_command(alloc, name, values)? {
        Some(command) => Ok(Some(Line::Does(command))),
        None => Ok(None),
    }
}

/// The line of a subcommand, by its name and its values.
fn read_subcommand<'a>(
    alloc: Global,
    name: &str,
    values: &ArgMatches<'a>,
) -> Result<Option<Line<'a>>, NoMem>
    ensures { IfOk result (λ l. option_map line_view l ≡ line_in (Some (name.now, rows_of (found_of values.now)))) }
{
    match name {
        "serve" => Ok(read_serve(values)),
        "watch" => Ok(read_watch(values)),
        "export" => Ok(read_export(values)),
        _ => read_does(alloc, name, values),
    }
}

fn read_matches<'a>(alloc: Global, matches: &ArgMatches<'a>) -> Result<Option<Line<'a>>, NoMem>
    ensures { IfOk result (λ l. option_map line_view l ≡ line_in (subcommand_rows_of matches.now)) }
{
    let Some((name, values)) = matches.subcommand() else {
        return Ok(None);
    };
    read_subcommand(alloc, name, values)
}

/// Takes the words, or `None` where `clap` doesn't, the agent is no name, or a version or an id isn't in its grammar.
pub fn read_words<'a>(alloc: Global, words: &'a [String]) -> Result<Option<Line<'a>>, NoMem>
    ensures { IfOk result (λ l. option_map line_view l ≡ line_of (map string_bytes words.now)) }
{
    let command = egw_command(alloc)?;
    match command.try_get_matches_from(words) {
        Ok(matches) => read_matches(alloc, &matches),
        Err(error) => match error.kind() {
            ErrorKind::OutOfMemory => Err(NoMem),
            _ => Ok(None),
        },
    }
}
