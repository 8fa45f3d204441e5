//! Kinds, controllers and truths by their words.
ghost use Rattle.std.specs.Prelude.{◌≡◌};
ghost use Rattle.journal_reader.specs.Answers.{Gives};
ghost use Rattle.journal_reader.specs.Words as spec;

use crate::error::ReadError;
use json_tree::Text;
use resource_types::{ClientKind, Controller, Kind, Truth};

/// The kind that a word names.
pub(crate) fn kind_named(word: &Text) -> Result<Kind, ReadError>
    ensures { Gives (λ k. k) result (spec.kind_named word.now) }
{
    match word.as_str() {
        "Service" => Ok(Kind::Service),
        "Configuration" => Ok(Kind::Configuration),
        "Revision" => Ok(Kind::Revision),
        "Route" => Ok(Kind::Route),
        "Health" => Ok(Kind::Health),
        "Table" => Ok(Kind::Table),
        _ => Err(ReadError::Refused),
    }
}

/// The kind that clients write which a word names.
pub(crate) fn client_kind_named(word: &Text) -> Result<ClientKind, ReadError>
    ensures { Gives (λ k. k) result (spec.client_kind_named word.now) }
{
    match word.as_str() {
        "Service" => Ok(ClientKind::Service),
        "Configuration" => Ok(ClientKind::Configuration),
        "Route" => Ok(ClientKind::Route),
        _ => Err(ReadError::Refused),
    }
}

/// The controller that a word names.
pub(crate) fn controller_named(word: &Text) -> Result<Controller, ReadError>
    ensures { Gives (λ c. c) result (spec.controller_named word.now) }
{
    match word.as_str() {
        "Service" => Ok(Controller::Service),
        "Configuration" => Ok(Controller::Configuration),
        "Revision" => Ok(Controller::Revision),
        "Collector" => Ok(Controller::Collector),
        "Route" => Ok(Controller::Route),
        _ => Err(ReadError::Refused),
    }
}

/// The truth that a word names.
pub(crate) fn truth_named(word: &Text) -> Result<Truth, ReadError>
    ensures { Gives (λ t. t) result (spec.truth_named word.now) }
{
    match word.as_str() {
        "True" => Ok(Truth::True),
        "False" => Ok(Truth::False),
        "Unknown" => Ok(Truth::Unknown),
        _ => Err(ReadError::Refused),
    }
}
