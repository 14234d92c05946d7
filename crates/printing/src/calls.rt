ghost use Rattle.std.specs.Prelude.{◌≡◌, ◌++◌, OnOk};
ghost use Rattle.printing.specs.Calls.{restarted_text, played_text, state_text};

use crate::{write_number, write_numbers};
use std::alloc::AllocError;

// Adds the answer to a restart that was served.
pub fn write_restarted(count: u32, input: &[u32], out: &mut Vec<u8>) -> Result<(), AllocError>
    ensures { OnOk result (out.new.items ≡ out.old.items ++ restarted_text count input.now) }
{
    out.extend_from_slice(b"> restart ")?;
    write_number(count, out)?;
    out.extend_from_slice(b" ")?;
    write_numbers(input, out)?;
    out.extend_from_slice(b" ok")?;
    Ok(())
}

// Adds the answer to a play that was served; `call` is its name, `outcome` the number of the outcome.
pub fn write_played(
    call: &[u8],
    asked: u32,
    rows: u32,
    outcome: u8,
    out: &mut Vec<u8>,
) -> Result<(), AllocError>
    ensures { OnOk result (out.new.items ≡ out.old.items ++ played_text call.now asked rows outcome) }
{
    out.extend_from_slice(b"> ")?;
    out.extend_from_slice(call)?;
    out.extend_from_slice(b" ")?;
    write_number(asked, out)?;
    out.extend_from_slice(b" ")?;
    write_number(rows, out)?;
    out.extend_from_slice(b" ")?;
    write_number(outcome as u32, out)
}

// Adds the state of a rehearsal: both outputs, the numbers of the registers and those of the slots.
pub fn write_state(
    source: &[u32],
    code: &[u32],
    bank: &[u32],
    slots: &[u32],
    out: &mut Vec<u8>,
) -> Result<(), AllocError>
    ensures { OnOk result (out.new.items ≡ out.old.items ++ state_text source.now code.now bank.now slots.now) }
{
    out.extend_from_slice(b"> state ")?;
    write_numbers(source, out)?;
    out.extend_from_slice(b" ")?;
    write_numbers(code, out)?;
    out.extend_from_slice(b" ")?;
    write_numbers(bank, out)?;
    out.extend_from_slice(b" ")?;
    write_numbers(slots, out)
}
