//! Where the text of a run goes, while the run goes on.
ghost use Rattle.std.specs.Prelude.{◌≡◌, ◌≤◌, ℕ, List, Option, None, OnErr, OnOk, length};
ghost use Rattle.std.specs.Io.KnownBytes.{Appends};
ghost use Rattle.chr_machine.specs.MachineView.{machine_view};
ghost use Rattle.chr_run.specs.Output.{AppendsLess, AppendsPart};
ghost use Rattle.chr_run.specs.Sending.{rest_text};

use crate::output::{Unwritten, write_bytes};
use chr_core::Memory;
use chr_machine::Machine;
use chr_trace::Ending;
use std::alloc::Allocator;
use std::io::Write;

/// What cuts a run off: a growth was refused, or the outlet takes no more.
#[derive(Drop)]
pub(crate) enum Cut<E> {
    Memory,
    Unsent(E),
}

/// Where the text of a run goes: first the lines of its trace, as they are made, and then the rest.
pub(crate) trait Outlet {
    /// Why it takes no more.
    type Error;

    // The bytes that it holds, where they are known.
    ghost known: { Self → Option (List ℕ) };

    /// Sends the text of some lines out, or a first part of it.
    fn send(&mut self, lines: &[u8]) -> Result<(), Self::Error>
        ensures ok { OnOk result (Appends (known self.old) (known self.new) lines.now) }
        ensures part { OnErr result (AppendsPart (known self.old) (known self.new) lines.now) };

    /// Sends the lines from the `sent`-th on, and the text after the trace, or a first part of both, which is not all. The buffer is used
    /// for it.
    fn send_rest<A: Allocator + Copy>(
        &mut self,
        machine: &Machine<'_, A>,
        sent: usize,
        buffer: &mut Vec<u8, A>,
    ) -> Result<(), Cut<Self::Error>>
        requires { sent ≤ length (machine_view machine.now).lines }
        ensures ok { OnOk result (Appends (known self.old) (known self.new)
            (rest_text (machine_view machine.now) sent)) }
        ensures less { OnErr result (AppendsLess (known self.old) (known self.new)
            (rest_text (machine_view machine.now) sent)) };
}

/// Where nothing goes out.
#[derive(Drop)]
pub(crate) struct Silence;

/// What never happens.
#[derive(Drop)]
pub(crate) enum Never {}

impl Outlet for Silence {
    type Error = Never;

    ghost known = { λ _. None };

    fn send(&mut self, _lines: &[u8]) -> Result<(), Never> {
        Ok(())
    }

    fn send_rest<A: Allocator + Copy>(
        &mut self,
        _machine: &Machine<'_, A>,
        _sent: usize,
        _buffer: &mut Vec<u8, A>,
    ) -> Result<(), Cut<Never>> {
        Ok(())
    }
}

/// Writes the lines from the `sent`-th on and the text after the trace into the buffer, in place of what it has.
fn write_rest<A: Allocator + Copy>(
    machine: &Machine<'_, A>,
    sent: usize,
    buffer: &mut Vec<u8, A>,
) -> Result<(), Memory>
    requires { sent ≤ length (machine_view machine.now).lines }
    ensures { OnOk result (buffer.new.items ≡ rest_text (machine_view machine.now) sent) }
{
    buffer.clear();
    buffer.extend_from_slice(machine.lines().text_from(sent))?;
    let ending = Ending {
        program: machine.program(),
        var_names: machine.var_names(),
        status: machine.status(),
        stack: machine.stack(),
        store: machine.store(),
        bindings: machine.bindings(),
        history: machine.history().list(),
    };
    ending.write(buffer)
}

impl<W: Write> Outlet for W {
    type Error = Unwritten;

    ghost known = { λ writer. W.contents writer };

    fn send(&mut self, lines: &[u8]) -> Result<(), Unwritten> {
        write_bytes(self, lines)
    }

    fn send_rest<A: Allocator + Copy>(
        &mut self,
        machine: &Machine<'_, A>,
        sent: usize,
        buffer: &mut Vec<u8, A>,
    ) -> Result<(), Cut<Unwritten>> {
        match write_rest(machine, sent, buffer) {
            Err(_) => Err(Cut::Memory),
            Ok(()) => match write_bytes(self, buffer.as_slice()) {
                Err(unwritten) => Err(Cut::Unsent(unwritten)),
                Ok(()) => Ok(()),
            },
        }
    }
}
