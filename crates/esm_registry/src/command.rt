// The commands of the mapping API, their answers, and the errors of the registry.
ghost use Rattle.std.specs.Prelude.{◌≡◌};
ghost use Rattle.esm_registry.specs.Names.{error_text};

use esm_model::{Bytes, Text};
use serde_json::Value;
use uuid::Uuid;

/// A command of the mapping API, with the JSON value of its body.
#[derive(Drop)]
pub enum Command {
    /// `CreateEventSourceMapping`.
    Create(Value),
    /// `ListEventSourceMappings`.
    List,
    /// `GetEventSourceMapping`.
    Get(Uuid),
    /// `UpdateEventSourceMapping`.
    Update(Uuid, Value),
    /// `DeleteEventSourceMapping`.
    Delete(Uuid),
}

/// The answer to a command.
#[derive(Drop, Debug)]
pub enum Applied {
    /// A mapping, as the JSON text of the answer's body.
    One {
        status: u16,
        mapping: Bytes,
    },
    /// All mappings, as the JSON text of the answer's body; the status is 200.
    Many {
        mappings: Bytes,
    },
    /// The command was refused, and nothing has changed.
    Refused {
        status: u16,
        error: ErrorName,
        message: Text,
    },
}

/// The names of the API's errors, as in the header `x-amzn-ErrorType`.
#[derive(Clone, Copy, Debug, PartialEq, Eq)]
pub enum ErrorName {
    InvalidRequestContentException,
    InvalidParameterValueException,
    ResourceNotFoundException,
    MethodNotAllowed,
    RequestTooLargeException,
    ResourceConflictException,
    ServiceException,
}

impl ErrorName {
    /// The name, as the API spells it.
    pub fn name(self) -> &'static str
        ensures { result.now ≡ error_text self }
    {
        match self {
            ErrorName::InvalidRequestContentException => "InvalidRequestContentException",
            ErrorName::InvalidParameterValueException => "InvalidParameterValueException",
            ErrorName::ResourceNotFoundException => "ResourceNotFoundException",
            ErrorName::MethodNotAllowed => "MethodNotAllowed",
            ErrorName::RequestTooLargeException => "RequestTooLargeException",
            ErrorName::ResourceConflictException => "ResourceConflictException",
            ErrorName::ServiceException => "ServiceException",
        }
    }
}

/// Why a command was not applied.
#[derive(Clone, Copy, Debug, PartialEq, Eq)]
pub enum RegistryError {
    /// The disk's count of faults rose. The registry applies nothing more until it is opened again; its journal may then
    /// hold this command's payload.
    DiskFault,
    /// An earlier command returned `DiskFault`.
    Down,
    /// An allocation failed, or a count or the payload exceeds its limit. Nothing has changed.
    OutOfMemory,
}

/// Why a registry could not be opened.
#[derive(Clone, Copy, Debug, PartialEq, Eq)]
pub enum RegistryOpen {
    /// The index, counted from 0, of the first payload with which the journal is not one of a registry's.
    BadPayload(u32),
    OutOfMemory,
}
