//! Net scripts.

ghost use Rattle.std.specs.Prelude.{◌≡◌, ℕ, ◌<◌, ◌^◌, List, length, IfOk, IsErr, IsOkUnless, OnOk};
ghost use Rattle.ew_model.specs.Scripts.{IsReadable, Numbered};
ghost use Rattle.peer_definitions.specs.NetScripts.{AddsNetLine, IsFirstBadNetLine, IsNetScript, MeansStep, numbered_steps};
ghost use Rattle.peer_definitions.specs.declared.net_step.NetStep as declared;

use crate::net::line::read_step;
use crate::script::{ScriptFault, split_line};
use peer_definitions::net_step::NetStep;
use std::alloc::Global;

/// The steps of a net script, each with the number of its line. `BadLine` has the number of the first line that is neither
/// empty nor means a step. Lines count from 1.
pub fn read_net(alloc: Global, b: &[u8]) -> Result<Vec<(u32, NetStep)>, ScriptFault>
    requires { length b.now < 2 ^ 32 }

    // What is read is what the bytes mean, and bytes that are a net script are read, unless memory runs out.
    ensures script { IfOk result (λ steps. IsNetScript b.now (numbered_steps steps.items)) }
    ensures read { (steps : List (Numbered declared.NetStep)) → IsNetScript b.now steps → IsOkUnless result ScriptFault.OutOfMemory }

    // The line that is told is the first bad one, and bytes with a bad line are refused.
    ensures bad_line { (k : ℕ) → result ≡ Err (ScriptFault.BadLine k) → IsFirstBadNetLine b.now k }
    ensures refused { (k : ℕ) → IsFirstBadNetLine b.now k → IsErr result }
{
    let mut steps = Vec::new(alloc);
    let mut rest = b;
    let mut number = 0;
    while !rest.is_empty() {
        let (line, behind) = split_line(rest);
        number += 1;
        push_line(alloc, number, line, &mut steps)?;
        rest = behind;
    }
    Ok(steps)
}

/// Puts the step that the line means behind the others.
fn push_line(
    alloc: Global,
    number: u32,
    line: &[u8],
    steps: &mut Vec<(u32, NetStep)>,
) -> Result<(), ScriptFault>
    ensures line { OnOk result (AddsNetLine number line.now steps.old.items steps.new.items) }
    ensures bad_line { (k : ℕ) → result ≡ Err (ScriptFault.BadLine k) → (k ≡ number) × ¬ IsReadable MeansStep line.now }
{
    if line.is_empty() {
        return Ok(());
    }
    let step = read_step(alloc, line)?.ok_or(ScriptFault::BadLine(number))?;
    steps.push((number, step))?;
    Ok(())
}
