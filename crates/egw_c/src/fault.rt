//! Why a call of a document from C does nothing.

ghost use Rattle.std.specs.Prelude.{◌≡◌};
ghost use Rattle.egw_c.specs.declared.fault.EditingFault.TheVariants as editing;
ghost use Rattle.egw_c.specs.declared.fault.MarkingFault.TheVariants as marking;
ghost use Rattle.egw_c.specs.declared.fault.ReadingFault.TheVariants as reading;
ghost use Rattle.egw_c.specs.declared.fault.UndoingFault.TheVariants as undoing;

use document::RangeFault;
use ew_model::NoMem;
use ew_model::name::NameFault;

/// Why an edit changes nothing. The first reason in this order is told.
#[derive(Clone, Copy, Debug, PartialEq, Eq)]
pub enum EditingFault {
    /// The agent's name isn't one.
    Name(NameFault),
    /// So many bytes in front are UTF-8, and no more of them.
    Text { good: usize },
    /// The document refuses it.
    Edit(document::EditingFault),
}

impl From<NameFault> for EditingFault {
    ghost from_gives = { λ fault e. e ≡ editing.Name fault };

    fn from(fault: NameFault) -> EditingFault {
        EditingFault::Name(fault)
    }
}

impl From<document::EditingFault> for EditingFault {
    ghost from_gives = { λ fault e. e ≡ editing.Edit fault };

    fn from(fault: document::EditingFault) -> EditingFault {
        EditingFault::Edit(fault)
    }
}

/// Why a mark isn't made. The first reason in this order is told.
#[derive(Clone, Copy, Debug, PartialEq, Eq)]
pub enum MarkingFault {
    /// The agent's name isn't one.
    Name(NameFault),
    /// The label isn't one.
    Label(NameFault),
    /// The document refuses it.
    Edit(document::EditingFault),
}

impl From<document::EditingFault> for MarkingFault {
    ghost from_gives = { λ fault e. e ≡ marking.Edit fault };

    fn from(fault: document::EditingFault) -> MarkingFault {
        MarkingFault::Edit(fault)
    }
}

/// Why events aren't undone. The first reason in this order is told.
#[derive(Clone, Copy, Debug, PartialEq, Eq)]
pub enum UndoingFault {
    /// The agent's name isn't one.
    Name(NameFault),
    /// The words aren't the id of an event.
    NoId,
    /// Memory was wanting where the id was read.
    OutOfMemory,
    /// The document refuses it.
    Undo(document::UndoingFault),
}

impl From<document::UndoingFault> for UndoingFault {
    ghost from_gives = { λ fault e. e ≡ undoing.Undo fault };

    fn from(fault: document::UndoingFault) -> UndoingFault {
        UndoingFault::Undo(fault)
    }
}

/// Why nothing is read out of a document.
#[derive(Clone, Copy, Debug, PartialEq, Eq)]
pub enum ReadingFault {
    /// What is asked for goes past the end: this is the length, or the number of events held.
    OutOfRange { len: u32 },
    /// The words tell no version.
    NoVersion,
    /// The id at this place of the version isn't held.
    Unknown { place: usize },
    /// The version has more than one id, so it tells no caret.
    NoCaret,
    /// The event inserts no character, so no caret stands behind one.
    NoCharacter,
    OutOfMemory,
}

impl From<NoMem> for ReadingFault {
    ghost from_gives = { λ _ e. e ≡ reading.OutOfMemory };

    fn from(_: NoMem) -> ReadingFault {
        ReadingFault::OutOfMemory
    }
}

impl From<RangeFault> for ReadingFault {
    ghost use Rattle.egw_c.specs.Reading.{of_range};

    ghost from_gives = { λ fault e. e ≡ of_range fault };

    fn from(fault: RangeFault) -> ReadingFault {
        match fault {
            RangeFault::OutOfRange { len } => ReadingFault::OutOfRange { len },
            RangeFault::OutOfMemory => ReadingFault::OutOfMemory,
        }
    }
}
