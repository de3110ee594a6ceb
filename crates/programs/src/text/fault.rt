//! The faults of the programs.
use std::alloc::AllocError;
use std::fmt::{self, Display, Formatter};
use std::io::Write;

/// A fault, which ends a run of a program. Its text is that of standard error.
#[derive(Clone, Copy, Debug, PartialEq, Eq)]
pub enum Fault {
    /// The arguments are wrong. The text is the program's usage line.
    Usage(&'static str),
    /// A key stands for two members of a world.
    SharedKey,
    /// The line of this number, from 1 on, cannot be read.
    Syntax(u64),
    /// Standard input failed.
    Read,
    /// The inbox refused a broadcast although memory sufficed, or gave none back.
    Mailbox,
    /// Standard output failed.
    Write,
    /// An allocation failed.
    Memory,
}

impl From<AllocError> for Fault {
    fn from(_error: AllocError) -> Fault {
        Fault::Memory
    }
}

impl Display for Fault {
    fn fmt<W: fmt::Write>(&self, f: &mut Formatter<W>) -> fmt::Result {
        match self {
            Fault::Usage(line) => f.write_str(line),
            Fault::SharedKey => f.write_str("shared key"),
            Fault::Syntax(number) => write!(f, "line {number}: syntax"),
            Fault::Read => f.write_str("read failed"),
            Fault::Mailbox => f.write_str("mailbox failed"),
            Fault::Write => f.write_str("write failed"),
            Fault::Memory => f.write_str("memory"),
        }
    }
}

impl std::error::Error for Fault {}

impl Fault {
    /// Returns the exit status: 2 for what the caller wrote, 3 for what the system refused.
    pub fn status(&self) -> u8 {
        match self {
            Fault::Usage(_) | Fault::SharedKey | Fault::Syntax(_) => 2,
            Fault::Read | Fault::Mailbox | Fault::Write | Fault::Memory => 3,
        }
    }

    /// Writes the text in one line, and returns the exit status. A failure to write is ignored.
    pub fn report<E: Write + Drop>(&self, mut err: E) -> u8 {
        let _ = writeln!(err, "{self}");
        self.status()
    }
}
