//! Why a file says no elements.

ghost use Rattle.std.specs.Prelude.{◌≡◌};
ghost use Rattle.element_registry.specs.Faults.{column_name, fault_of, number_of, name_of};
ghost use Rattle.element_registry.specs.declared.fault.ElementsFault.TheVariants.{OutOfMemory};

use std::alloc::{AllocError, AllocFailed};
use thiserror::Error;

/// The heading of a column that each file has.
#[derive(Clone, Copy, Debug, PartialEq, Eq)]
pub enum Heading {
    /// The element's number in its enterprise.
    Number,
    /// Its name.
    Name,
    /// The type of its values.
    DataType,
}

impl Heading {
    /// The heading as it stands in the first line.
    pub fn name(self) -> &'static str
        ensures { result.now ≡ column_name self }
    {
        match self {
            Heading::Number => "ElementID",
            Heading::Name => "Name",
            Heading::DataType => "Abstract Data Type",
        }
    }
}

/// Why a file says no elements.
#[derive(Clone, Copy, Debug, PartialEq, Eq, Error)]
pub enum ElementsFault {
    /// The first line lacks this column.
    #[error("the first line lacks a column")]
    Column(Heading),
    /// A row has more or fewer fields than the first line.
    #[error("a row has more or fewer fields than the first line")]
    NotCsv,
    /// The number is not decimal, or above 32767.
    #[error("the number is not decimal, or above 32767")]
    Number,
    /// The enterprise is not decimal, or above 4294967295.
    #[error("the enterprise is not decimal, or above 4294967295")]
    Enterprise,
    /// The name is not of the form that names have.
    #[error("the name is not a letter and then letters, digits, _ and -, 64 in all")]
    Name,
    /// An earlier row has the element.
    #[error("an earlier row has the element")]
    NumberTwice,
    /// Another element has the name.
    #[error("another element has the name")]
    NameTwice,
    /// There are more elements than are kept.
    #[error("there are more elements than 16384")]
    TooMany,
    /// An allocation was refused.
    #[error("out of memory")]
    OutOfMemory,
}

impl ElementsFault {
    /// The number that reports give for the fault.
    pub fn number(&self) -> u8
        ensures { result ≡ number_of self.now }
    {
        match self {
            ElementsFault::NotCsv => 2,
            ElementsFault::Column(_) => 3,
            ElementsFault::Number => 4,
            ElementsFault::Enterprise => 5,
            ElementsFault::Name => 6,
            ElementsFault::NumberTwice => 7,
            ElementsFault::NameTwice => 8,
            ElementsFault::TooMany => 9,
            ElementsFault::OutOfMemory => 10,
        }
    }

    /// The name that reports give for the fault.
    pub fn name(&self) -> &'static str
        ensures { result.now ≡ name_of self.now }
    {
        match self {
            ElementsFault::NotCsv => "NotCsv",
            ElementsFault::Column(_) => "Column",
            ElementsFault::Number => "Number",
            ElementsFault::Enterprise => "Enterprise",
            ElementsFault::Name => "Name",
            ElementsFault::NumberTwice => "NumberTwice",
            ElementsFault::NameTwice => "NameTwice",
            ElementsFault::TooMany => "TooMany",
            ElementsFault::OutOfMemory => "OutOfMemory",
        }
    }
}

impl From<AllocError> for ElementsFault {
    ghost from_gives = { λ _ e. e ≡ OutOfMemory };

    fn from(_error: AllocError) -> ElementsFault {
        ElementsFault::OutOfMemory
    }
}

impl<T: Drop> From<AllocFailed<T>> for ElementsFault {
    ghost from_gives = { λ _ e. e ≡ OutOfMemory };

    fn from(_error: AllocFailed<T>) -> ElementsFault {
        ElementsFault::OutOfMemory
    }
}

/// Why a file says no elements, and where.
#[derive(Clone, Copy, Debug, PartialEq, Eq)]
pub struct ElementsError {
    pub fault: ElementsFault,
    /// The line at which the row begins, from 1; for a missing column the first. For want of memory it
    /// may be 0.
    pub line: u64,
}

impl ElementsError {
    /// The fault at a line.
    pub fn at(line: u64, fault: ElementsFault) -> ElementsError
        ensures fault { fault_of result ≡ fault }
        ensures line { result.line ≡ line }
    {
        ElementsError { fault, line }
    }
}
