//! Why the program ends, and how it says so.

ghost use Rattle.std.specs.Prelude.{◌≡◌, is_err};
ghost use Rattle.std.specs.IoError.{error_kind};
ghost use Rattle.std.specs.Process.{exit_status};
ghost use Rattle.nfs_settings.specs.ExitStatus as ends;
ghost use Rattle.nfs_settings.specs.declared.fault.Fault.TheVariants.{Replay};

use crate::settings_file::Bad;
use nfs_serve::{ReplayFault, Stop};
use std::io;
use std::io::{ErrorKind, Write};
use std::process::ExitCode;
use thiserror::Error;

/// Why the program ends with a fault.
#[derive(Debug, Drop, Error)]
pub enum Fault {
    /// The command line is none of those that are understood.
    #[error("bad arguments")]
    Arguments,
    /// The settings file cannot be read, or is none.
    #[error("bad settings")]
    Settings,
    /// There is no memory to start with, or the address cannot be listened on.
    #[error("cannot start")]
    Start,
    /// The run of the script has stopped.
    #[error("{0}")]
    Replay(ReplayFault),
    /// No connection can be taken.
    #[error("accept failed")]
    Accept,
    /// What was written did not reach standard output.
    #[error("output failed")]
    Flush,
}

impl From<ReplayFault> for Fault {
    ghost from_gives = { λ fault f. f ≡ Replay fault };

    fn from(fault: ReplayFault) -> Fault {
        Fault::Replay(fault)
    }
}

impl From<Bad> for Fault {
    ghost from_gives = { λ bad f. f ≡ ends.fault_of bad };

    fn from(bad: Bad) -> Fault {
        match bad {
            Bad::Text => Fault::Settings,
            Bad::Memory => Fault::Start,
        }
    }
}

/// Writes the fault's line, whose own failure is passed over, and answers the exit status: 1 where the program has not begun,
/// 2 for a fault of the script, 3 for a fault of input, output or connections.
pub(crate) fn told<W: Write>(fault: &Fault, w: &mut W) -> u8
    ensures { result ≡ ends.fault_status fault.now }
{
    let _ = writeln!(w, "nfs41d: {fault}");
    match fault {
        Fault::Arguments | Fault::Settings | Fault::Start => 1,
        Fault::Replay(stopped) => match stopped.number {
            Stop::ReadFailed | Stop::WriteFailed => 3,
            Stop::Cut | Stop::Connection | Stop::Long | Stop::Late | Stop::Many => 2,
        },
        Fault::Accept | Fault::Flush => 3,
    }
}

/// Tells the fault, if there is one, and answers the status with which the process ends: 0 where there is none.
pub fn status<W: Write>(ran: Result<(), Fault>, w: &mut W) -> ExitCode
    ensures { exit_status result ≡ ends.exit_status_of ran }
{
    match ran {
        Ok(()) => ExitCode::SUCCESS,
        Err(fault) => ExitCode::from(told(&fault, w)),
    }
}

/// Why the arguments or the settings file could not be read: for want of memory, or else the fault that is given.
pub fn unread(e: &io::Error, fault: Fault) -> Fault
    ensures { result ≡ ends.unread (error_kind e.now) fault }
{
    match e.kind() {
        ErrorKind::OutOfMemory => Fault::Start,
        _ => fault,
    }
}

/// What a run and the flush behind it come to. The fault of the run is reported before that of the flush.
pub fn ending(ran: Result<(), ReplayFault>, flushed: io::Result<()>) -> Result<(), Fault>
    ensures { result ≡ ends.ending ran (is_err flushed) }
{
    ran?;
    flushed.map_err(|_| Fault::Flush)
}
