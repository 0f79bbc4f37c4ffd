//! Why the program ends without having done what it was asked for.

ghost use Rattle.std.specs.Prelude.{◌≡◌, IfOk};
ghost use Rattle.std.specs.String.{string_bytes};
ghost use Rattle.kroft_command.specs.Tool.{status_of, fault_text, IsLineOf};
ghost use Rattle.kroft_command.specs.Told.{TellsFault};

use access_logs::{LogFault, NoRoom};
use kroft_jobs::{JobFault, put_text};
use run_pictures::ShowFault;
use shape_files::MachineFault;
use std::alloc::{AllocError, Global};
use std::fmt;
use thiserror::Error;
use trace_text::{Sink, TraceFault};

/// Why the program ends without having done what it was asked for.
#[derive(Debug, Drop, Error)]
#[error("{}", FaultText(self))]
pub enum ToolFault {
    /// The words of the command line were refused.
    CommandLine(clap::Error),
    /// The job that they ask for has ended so.
    Job(JobFault),
    /// The machine file is refused.
    Machine(MachineFault),
    /// The machine file can't be read, or isn't UTF-8.
    MachineUnreadable,
    /// The sheet that was given out can't be read.
    SheetUnreadable,
    /// A line of the sheet that was given out is faulty.
    Sheet(TraceFault),
    /// The file of a history can't be read.
    HistoryUnreadable,
    /// A log touches a page for which there is no room.
    NoRoom(NoRoom),
    /// The image of memory can't be read.
    ImageUnreadable,
    /// The image has more bytes than memory.
    LongImage(LongImage),
}

/// An image for which memory has no room.
#[derive(Clone, Copy, Debug, Drop)]
pub struct LongImage {
    /// The bytes of the image.
    pub bytes: usize,
    /// The bytes of memory.
    pub memory: usize,
}

/// A fault's text, of which a contract knows each byte, but for what `clap` says of refused words.
#[derive(Drop)]
pub(crate) struct FaultText<'a>(pub &'a ToolFault);

impl fmt::Display for FaultText<'_> {
    ghost output = { λ told. fault_text told.0.now };

    fn fmt<W: fmt::Write>(&self, f: &mut fmt::Formatter<W>) -> fmt::Result {
        match self.0 {
            ToolFault::CommandLine(error) => write!(f, "{error}"),
            ToolFault::Job(fault) => write!(f, "{}", kroft_jobs::FaultText(fault)),
            ToolFault::Machine(fault) => write!(f, "{}", shape_files::FaultText(fault)),
            ToolFault::MachineUnreadable => f.write_str("machine: file not readable"),
            ToolFault::SheetUnreadable => f.write_str("sheet: file not readable"),
            ToolFault::Sheet(fault) => write!(f, "sheet: {}", trace_text::FaultText(fault)),
            ToolFault::HistoryUnreadable => f.write_str("history: file not readable"),
            ToolFault::NoRoom(fault) => write!(f, "{}", access_logs::FaultText(fault)),
            ToolFault::ImageUnreadable => f.write_str("image: file not readable"),
            ToolFault::LongImage(image) => write!(
                f,
                "image: longer than memory: {} bytes, and memory has {}",
                image.bytes, image.memory
            ),
        }
    }
}

impl ToolFault {
    /// The status with which the program ends.
    pub fn status(&self) -> u8
        ensures { result ≡ status_of self.now }
    {
        match self {
            ToolFault::CommandLine(_) => 2,
            ToolFault::Job(fault) => fault.status(),
            ToolFault::Machine(_) | ToolFault::MachineUnreadable => 3,
            ToolFault::SheetUnreadable | ToolFault::Sheet(_) | ToolFault::NoRoom(_) => 4,
            ToolFault::HistoryUnreadable => 4,
            ToolFault::ImageUnreadable | ToolFault::LongImage(_) => 4,
        }
    }

    // The fault as a line. What `clap` says ends its own line.
    fn line(&self, alloc: Global) -> Result<String, AllocError>
        ensures { IfOk result (λ text. IsLineOf self.now (string_bytes text)) }
    {
        match self {
            ToolFault::CommandLine(error) => format!(in alloc; "{error}"),
            fault => format!(in alloc; "{}\n", FaultText(fault)),
        }
    }

    /// Writes the fault as a line, and gives the status with which the program ends. If there is no memory
    /// for the line, that is written in its place. If the writer refuses it, nothing more is tried.
    pub fn tell<E: Sink>(&self, alloc: Global, errors: &mut E) -> u8
        ensures { TellsFault E.took E.refused E.unflushed self.now errors.old errors.new result }
    {
        match self.line(alloc) {
            Ok(line) => {
                let _told = put_text(errors, line.as_bytes());
                self.status()
            }
            Err(_) => {
                let _told = put_text(errors, b"out of memory\n");
                JobFault::OutOfMemory.status()
            }
        }
    }
}

impl From<JobFault> for ToolFault {
    ghost use Rattle.std.specs.Prelude.{◌≡◌};
    ghost use Rattle.kroft_command.specs.declared.fault.ToolFault.TheVariants.{Job};

    ghost from_gives = { λ e f. f ≡ Job e };

    fn from(fault: JobFault) -> ToolFault {
        ToolFault::Job(fault)
    }
}

impl From<TraceFault> for ToolFault {
    ghost use Rattle.std.specs.Prelude.{◌≡◌};
    ghost use Rattle.kroft_command.specs.Tool.{of_trace};

    ghost from_gives = { λ e f. f ≡ of_trace e };

    fn from(fault: TraceFault) -> ToolFault {
        ToolFault::Job(JobFault::from(fault))
    }
}

impl From<ShowFault> for ToolFault {
    ghost use Rattle.std.specs.Prelude.{◌≡◌};
    ghost use Rattle.kroft_command.specs.Tool.{of_show};

    ghost from_gives = { λ e f. f ≡ of_show e };

    fn from(fault: ShowFault) -> ToolFault {
        ToolFault::Job(JobFault::from(fault))
    }
}

impl From<MachineFault> for ToolFault {
    ghost use Rattle.std.specs.Prelude.{◌≡◌};
    ghost use Rattle.kroft_command.specs.Tool.{of_machine};

    ghost from_gives = { λ e f. f ≡ of_machine e };

    fn from(fault: MachineFault) -> ToolFault {
        match fault {
            MachineFault::OutOfMemory => ToolFault::Job(JobFault::OutOfMemory),
            fault => ToolFault::Machine(fault),
        }
    }
}

impl From<AllocError> for ToolFault {
    ghost use Rattle.std.specs.Prelude.{◌≡◌};
    ghost use Rattle.kroft_command.specs.Tool.{no_memory};

    ghost from_gives = { λ e f. f ≡ no_memory };

    fn from(_fault: AllocError) -> ToolFault {
        ToolFault::Job(JobFault::OutOfMemory)
    }
}

impl From<LogFault> for ToolFault {
    ghost use Rattle.std.specs.Prelude.{◌≡◌};
    ghost use Rattle.kroft_command.specs.Tool.{of_log};

    ghost from_gives = { λ e f. f ≡ of_log e };

    fn from(fault: LogFault) -> ToolFault {
        match fault {
            LogFault::Trace(fault) => ToolFault::from(fault),
            LogFault::NoRoom(fault) => ToolFault::NoRoom(fault),
        }
    }
}
