//! Replies that store the events of a replica.
ghost use Rattle.std.specs.Prelude.{◌≡◌, ◌≢◌, IfOk};
ghost use Rattle.file_words.specs.FileRuns.{file2_of};
ghost use Rattle.command_table.specs.Table.{stores};
ghost use Rattle.opened_files.specs.Views.{IsTakenReply, reply_status, reply_view};

use crate::reply::Reply;
use ew_model::NoMem;
use replica::Replica;
use std::alloc::Global;
use stored_histories::written::file_of;

/// Stores a replica's events and prints a text.
pub fn store_reply(
    alloc: Global,
    name: &str,
    replica: &Replica,
    out: Vec<u8>,
) -> Result<Reply, NoMem>
    ensures told { IfOk result (λ p. reply_view p ≡ stores out.items name.now (file2_of replica.now.held)) }
    ensures plan { IfOk result IsTakenReply }
    ensures found { IfOk result (λ p. reply_status p ≢ 3) }
{
    let bytes = file_of(alloc, replica)?;
    let name = String::from_str(alloc, name)?;
    Ok(Reply::Stores { out, name, bytes })
}
