//! The words of controllers and of truths.
ghost use Rattle.std.specs.Prelude.{◌≡◌};
ghost use Rattle.resource_codec.specs.Objects.{truth_word};
ghost use Rattle.journal_text.specs.Lines.{controller_word};

use resource_types::{Controller, Truth};

/// The word of a controller.
pub(crate) fn controller_word(controller: Controller) -> &'static str
    ensures { result.now ≡ controller_word controller }
{
    match controller {
        Controller::Service => "Service",
        Controller::Configuration => "Configuration",
        Controller::Revision => "Revision",
        Controller::Collector => "Collector",
        Controller::Route => "Route",
    }
}

/// The word of a truth.
pub(crate) fn truth_word(truth: Truth) -> &'static str
    ensures { result.now ≡ truth_word truth }
{
    match truth {
        Truth::True => "True",
        Truth::False => "False",
        Truth::Unknown => "Unknown",
    }
}
