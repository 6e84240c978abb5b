//! The command line as `clap` builds it.
ghost use Rattle.std.specs.Prelude.{◌≡◌, false, IfOk};
ghost use Rattle.clap.specs.Words.{app_of, rule_of};
ghost use Rattle.clap.specs.declared.builder.command.Command.TheViews.{out-Command};
ghost use Rattle.command_table.specs.Cli.{agent_rule, bare_app, blame_app, caret_app, cat_app, edit_app, egw_app, file_app, file_commands, file_rule, make_app, merge_app, net_app, number_rule, seed_rule, then_app, undo_app, watch_app, with_file_apps};

use clap::builder::ValueParser;
use clap::{Arg, Command};
use ew_model::NoMem;
use std::alloc::Global;

/// A command of one file.
fn file_command<'a>(alloc: Global, name: &'static str) -> Result<Command<'a>, NoMem>
    ensures app { IfOk result (λ c. app_of c ≡ file_app name.now) }
    ensures local { IfOk result (λ c. (out-Command c).has_globals ≡ false) }
{
    let file = Arg::new(alloc, "file").required(true);
    Command::new(alloc, name).arg(file)
}

fn edit_command<'a>(alloc: Global) -> Result<Command<'a>, NoMem>
    ensures app { IfOk result (λ c. app_of c ≡ edit_app) }
    ensures local { IfOk result (λ c. (out-Command c).has_globals ≡ false) }
{
    let file = Arg::new(alloc, "file").required(true);
    let agent = Arg::new(alloc, "agent").long("agent").required(true);
    Command::new(alloc, "edit").arg(file)?.arg(agent)
}

/// The command of an agent and no file.
fn watch_command<'a>(alloc: Global) -> Result<Command<'a>, NoMem>
    ensures app { IfOk result (λ c. app_of c ≡ watch_app) }
    ensures local { IfOk result (λ c. (out-Command c).has_globals ≡ false) }
{
    let agent = Arg::new(alloc, "agent").long("agent").required(true);
    Command::new(alloc, "watch").arg(agent)
}

/// The command that shows a text, as a whole or at a version.
fn cat_command<'a>(alloc: Global) -> Result<Command<'a>, NoMem>
    ensures app { IfOk result (λ c. app_of c ≡ cat_app) }
    ensures local { IfOk result (λ c. (out-Command c).has_globals ≡ false) }
{
    let file = Arg::new(alloc, "file").required(true);
    let at = Arg::new(alloc, "at").long("at");
    Command::new(alloc, "cat").arg(file)?.arg(at)
}

/// The command of two files.
fn merge_command<'a>(alloc: Global) -> Result<Command<'a>, NoMem>
    ensures app { IfOk result (λ c. app_of c ≡ merge_app) }
    ensures local { IfOk result (λ c. (out-Command c).has_globals ≡ false) }
{
    let file = Arg::new(alloc, "file").required(true);
    let other = Arg::new(alloc, "other").required(true);
    Command::new(alloc, "merge").arg(file)?.arg(other)
}

/// The greatest number of edits that are made.
pub const MOST_MADE: u32 = 1_000_000;

/// The seed, which has to be given.
fn seed_arg<'a>(alloc: Global) -> Arg<'a>
    ensures rule { rule_of result ≡ seed_rule }
    ensures local { result.global ≡ false }
{
    Arg::new(alloc, "seed")
        .long("seed")
        .value_parser(ValueParser::unsigned(0, u64::MAX))
        .required(true)
}

/// A number between two others, which has to be given.
fn number_arg<'a>(alloc: Global, name: &'static str, least: u32, most: u32) -> Arg<'a>
    ensures rule { rule_of result ≡ number_rule name.now least most }
    ensures local { result.global ≡ false }
{
    Arg::new(alloc, name)
        .long(name)
        .value_parser(ValueParser::signed(i64::from(least), i64::from(most)))
        .required(true)
}

/// The command that makes a history.
fn make_command<'a>(alloc: Global) -> Result<Command<'a>, NoMem>
    ensures app { IfOk result (λ c. app_of c ≡ make_app) }
    ensures local { IfOk result (λ c. (out-Command c).has_globals ≡ false) }
{
    let seed = seed_arg(alloc);
    let count = number_arg(alloc, "count", 0, MOST_MADE);
    Command::new(alloc, "make").arg(seed)?.arg(count)
}

/// The greatest number of events that are undone at once.
pub const MOST_UNDONE: u32 = 1_000_000;

/// The command that undoes so many events, from an id on, as an agent.
fn undo_command<'a>(alloc: Global) -> Result<Command<'a>, NoMem>
    ensures app { IfOk result (λ c. app_of c ≡ undo_app) }
    ensures local { IfOk result (λ c. (out-Command c).has_globals ≡ false) }
{
    let file = Arg::new(alloc, "file").required(true);
    let agent = Arg::new(alloc, "agent").long("agent").required(true);
    let of = Arg::new(alloc, "of").long("of").required(true);
    let count = number_arg(alloc, "count", 1, MOST_UNDONE);
    Command::new(alloc, "undo")
        .arg(file)?
        .arg(agent)?
        .arg(of)?
        .arg(count)
}

/// The command of a file, a version of it and an index of that version's text.
fn caret_command<'a>(alloc: Global) -> Result<Command<'a>, NoMem>
    ensures app { IfOk result (λ c. app_of c ≡ caret_app) }
    ensures local { IfOk result (λ c. (out-Command c).has_globals ≡ false) }
{
    let file = Arg::new(alloc, "file").required(true);
    let at = Arg::new(alloc, "at").long("at").required(true);
    let index = number_arg(alloc, "index", 0, u32::MAX);
    Command::new(alloc, "caret").arg(file)?.arg(at)?.arg(index)
}

/// The greatest number of columns.
pub const MOST_COLUMNS: u32 = 1000;

/// The command of a file, a number of columns and perhaps a version.
fn blame_command<'a>(alloc: Global) -> Result<Command<'a>, NoMem>
    ensures app { IfOk result (λ c. app_of c ≡ blame_app) }
    ensures local { IfOk result (λ c. (out-Command c).has_globals ≡ false) }
{
    let file = Arg::new(alloc, "file").required(true);
    let columns = number_arg(alloc, "columns", 1, MOST_COLUMNS);
    let at = Arg::new(alloc, "at").long("at");
    Command::new(alloc, "blame")
        .arg(file)?
        .arg(columns)?
        .arg(at)
}

/// The command without its subcommands.
fn bare_command<'a>(alloc: Global) -> Command<'a>
    ensures { app_of result ≡ bare_app }
{
    Command::new(alloc, "egw")
        .no_binary_name(true)
        .subcommand_required(true)
}

/// Adds a command of one file.
fn with_file_command<'a>(
    alloc: Global,
    command: Command<'a>,
    name: &'static str,
) -> Result<Command<'a>, NoMem>
    ensures { IfOk result (λ c. app_of c ≡ then_app (app_of command.entry) (file_app name.now)) }
{
    let file = file_command(alloc, name)?;
    command.subcommand(file)
}

/// The commands of one file that have no options.
const FILE_COMMANDS: [&str; 10] = [
    "new", "heads", "log", "replay", "check", "ask", "serve", "marks", "upgrade", "export",
];

/// Adds the commands of one file that have no options.
fn with_file_commands<'a>(alloc: Global, command: Command<'a>) -> Result<Command<'a>, NoMem>
    ensures { IfOk result (λ c. app_of c ≡ with_file_apps (app_of command.entry) file_commands) }
{
    let mut command = command;
    for name in FILE_COMMANDS {
        command = with_file_command(alloc, command, name)?;
    }
    Ok(command)
}

/// Adds the command that shows a text.
fn with_cat<'a>(alloc: Global, command: Command<'a>) -> Result<Command<'a>, NoMem>
    ensures { IfOk result (λ c. app_of c ≡ then_app (app_of command.entry) cat_app) }
{
    let cat = cat_command(alloc)?;
    command.subcommand(cat)
}

/// Adds the command that edits a file.
fn with_edit<'a>(alloc: Global, command: Command<'a>) -> Result<Command<'a>, NoMem>
    ensures { IfOk result (λ c. app_of c ≡ then_app (app_of command.entry) edit_app) }
{
    let edit = edit_command(alloc)?;
    command.subcommand(edit)
}

/// Adds the command that keeps a script in the journal.
fn with_watch<'a>(alloc: Global, command: Command<'a>) -> Result<Command<'a>, NoMem>
    ensures { IfOk result (λ c. app_of c ≡ then_app (app_of command.entry) watch_app) }
{
    let watch = watch_command(alloc)?;
    command.subcommand(watch)
}

/// Adds the command of two files.
fn with_merge<'a>(alloc: Global, command: Command<'a>) -> Result<Command<'a>, NoMem>
    ensures { IfOk result (λ c. app_of c ≡ then_app (app_of command.entry) merge_app) }
{
    let merge = merge_command(alloc)?;
    command.subcommand(merge)
}

/// Adds the command that makes a history.
fn with_make<'a>(alloc: Global, command: Command<'a>) -> Result<Command<'a>, NoMem>
    ensures { IfOk result (λ c. app_of c ≡ then_app (app_of command.entry) make_app) }
{
    let make = make_command(alloc)?;
    command.subcommand(make)
}

/// Adds the command that undoes.
fn with_undo<'a>(alloc: Global, command: Command<'a>) -> Result<Command<'a>, NoMem>
    ensures { IfOk result (λ c. app_of c ≡ then_app (app_of command.entry) undo_app) }
{
    let undo = undo_command(alloc)?;
    command.subcommand(undo)
}

/// Adds the command that tells where a caret is.
fn with_caret<'a>(alloc: Global, command: Command<'a>) -> Result<Command<'a>, NoMem>
    ensures { IfOk result (λ c. app_of c ≡ then_app (app_of command.entry) caret_app) }
{
    let caret = caret_command(alloc)?;
    command.subcommand(caret)
}

/// Adds the command that tells who wrote what.
fn with_blame<'a>(alloc: Global, command: Command<'a>) -> Result<Command<'a>, NoMem>
    ensures { IfOk result (λ c. app_of c ≡ then_app (app_of command.entry) blame_app) }
{
    let blame = blame_command(alloc)?;
    command.subcommand(blame)
}

/// Adds the command of a net.
fn with_net<'a>(alloc: Global, command: Command<'a>) -> Result<Command<'a>, NoMem>
    ensures { IfOk result (λ c. app_of c ≡ then_app (app_of command.entry) net_app) }
{
    command.subcommand(Command::new(alloc, "net"))
}

/// The whole command.
pub fn egw_command<'a>(alloc: Global) -> Result<Command<'a>, NoMem>
    ensures { IfOk result (λ c. app_of c ≡ egw_app) }
{
    let command = with_file_commands(alloc, bare_command(alloc))?;
    let command = with_edit(alloc, command)?;
    let command = with_cat(alloc, command)?;
    let command = with_merge(alloc, command)?;
    let command = with_net(alloc, command)?;
    let command = with_make(alloc, command)?;
    let command = with_watch(alloc, command)?;
    let command = with_undo(alloc, command)?;
    let command = with_caret(alloc, command)?;
    with_blame(alloc, command)
}
