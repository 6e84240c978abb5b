//! The lines that the program prints of an edit, of a merge, of an upgrade, of what is kept and of a caret. Each ends with a newline. The only error is that memory ran out.
ghost use Rattle.std.specs.Prelude.{◌≡◌, IfOk};
ghost use Rattle.command_table.specs.Text;
ghost use Rattle.command_texts.specs.Told.{took_text};

use ew_model::NoMem;
use replica::Took;
use std::alloc::Global;

/// How many events an edit made.
pub fn made_text(alloc: Global, made: u64) -> Result<Vec<u8>, NoMem>
    ensures { IfOk result (λ t. t.items ≡ Text.made_text made) }
{
    let text = format!(in alloc; "made {made}\n")?;
    Ok(text.into_bytes())
}

/// How many events of a line of a script stand in the journal.
pub fn kept_text(alloc: Global, made: u32) -> Result<Vec<u8>, NoMem>
    ensures { IfOk result (λ t. t.items ≡ Text.kept_text made) }
{
    let text = format!(in alloc; "kept {made}\n")?;
    Ok(text.into_bytes())
}

/// At which index a caret is.
pub fn index_text(alloc: Global, index: u32) -> Result<Vec<u8>, NoMem>
    ensures { IfOk result (λ t. t.items ≡ Text.index_text index) }
{
    let text = format!(in alloc; "{index}\n")?;
    Ok(text.into_bytes())
}

/// Which version of the event file was read, and of how many events.
pub fn upgraded_text(alloc: Global, version: u8, count: u32) -> Result<Vec<u8>, NoMem>
    ensures { IfOk result (λ t. t.items ≡ Text.upgraded_text version count) }
{
    let text = format!(in alloc; "version {version} events {count}\n")?;
    Ok(text.into_bytes())
}

/// What was answered to received events.
pub fn received_text(alloc: Global, took: &Took) -> Result<Vec<u8>, NoMem>
    ensures { IfOk result (λ t. t.items ≡ took_text took.now) }
{
    let Took {
        accepted,
        waiting,
        repeats,
        refused,
        cut,
    } = took;
    let refused = refused.len();
    let text = format!(in alloc;
        "accepted {accepted} waiting {waiting} repeats {repeats} refused {refused} cut {cut}\n"
    )?;
    Ok(text.into_bytes())
}
