//! Why a desk does not do what it was asked, and why a client is not served.
ghost use Rattle.std.specs.Prelude.{◌≡◌, ◌≢◌};
ghost use Rattle.sasl_desk.specs.Faults.{desk_fault_number, fault_of_save, serve_fault_number};

use book_keeper::SaveFault;
use thiserror::Error;

/// Why a desk or a hall refuses a call.
#[derive(Clone, Copy, Debug, PartialEq, Eq, Error)]
pub enum DeskFault {
    /// 72: the desk or hall has halted, or its first save failed.
    #[error("the desk or hall has halted, or its first save failed")]
    Halted,

    /// 73: the message that is due cannot be written. No call of a desk or a hall returns it.
    #[error("a message that is due cannot be written")]
    Unwritable,

    /// 76: a hall has given all numbers of sessions. No call of a desk returns it.
    #[error("all session numbers are used")]
    NoNumber,

    /// 99: memory ran out.
    #[error("out of memory")]
    NoMemory,
}

impl DeskFault {
    /// The number of the fault: 72, 73, 76 or 99.
    pub fn number(&self) -> u16
        ensures { result ≡ desk_fault_number self.now }
    {
        match self {
            DeskFault::Halted => 72,
            DeskFault::Unwritable => 73,
            DeskFault::NoNumber => 76,
            DeskFault::NoMemory => 99,
        }
    }

    /// The fault of a desk or a hall whose first save has this fault.
    pub(crate) fn from_save(fault: SaveFault) -> DeskFault
        ensures { result ≡ fault_of_save fault }
    {
        match fault {
            SaveFault::NotSaved => DeskFault::Halted,
            SaveFault::NoMemory => DeskFault::NoMemory,
        }
    }
}

/// Why a client is not served.
#[derive(Clone, Copy, Debug, PartialEq, Eq, Error)]
pub enum ServeFault {
    /// 72: the desk had halted before.
    #[error("the desk has halted")]
    Halted,

    /// 73: the message that is due cannot be written. No call that serves returns it.
    #[error("a message that is due cannot be written")]
    Unwritable,

    /// 74: what is due to the client could not be written to it. It is in the log.
    #[error("cannot write to the client")]
    WriteFault,

    /// 75: the log could not be written. The desk has halted, and nothing was sent to the client.
    #[error("cannot write the log, so the desk has halted")]
    LogFault,

    /// 99: memory ran out.
    #[error("out of memory")]
    NoMemory,
}

impl ServeFault {
    /// The number of the fault: 72 to 75, or 99.
    pub fn number(&self) -> u16
        ensures { result ≡ serve_fault_number self.now }
    {
        match self {
            ServeFault::Halted => 72,
            ServeFault::Unwritable => 73,
            ServeFault::WriteFault => 74,
            ServeFault::LogFault => 75,
            ServeFault::NoMemory => 99,
        }
    }

    /// The fault of serving that has the same number as this fault of a desk.
    pub(crate) fn from_desk(fault: DeskFault) -> ServeFault
        requires { fault ≢ DeskFault.NoNumber }
        ensures { serve_fault_number result ≡ desk_fault_number fault }
    {
        match fault {
            DeskFault::Halted => ServeFault::Halted,
            DeskFault::Unwritable => ServeFault::Unwritable,
            DeskFault::NoNumber => unreachable!(),
            DeskFault::NoMemory => ServeFault::NoMemory,
        }
    }
}

/// Why what a call wrote did not go out to both, first the log and then the client.
#[derive(Clone, Copy, Debug, PartialEq, Eq, Error)]
pub enum OutputFault {
    /// The log could not be written, and nothing was sent to the client. The desk or hall should be halted.
    #[error("cannot write the log")]
    LogFault,

    /// What is due to the client could not be written to it. It is in the log.
    #[error("cannot write to the client")]
    WriteFault,
}
