//! Templates of the objects that stand.
ghost use Rattle.std.specs.Prelude.{◌≡◌};
ghost use Rattle.resource_types.specs.Objects.{IsOf};
ghost use Rattle.control_rules.specs.Standing.{template_of};

use resource_types::{Body, Kind, Object, Template};

/// The template of a Configuration.
pub fn template_of(configuration: &Object) -> &Template
    requires { IsOf Kind.Configuration configuration.now }
    ensures { result.now ≡ template_of configuration.now.body }
{
    match &configuration.body {
        Body::Configuration { template, .. } => template,
        _ => unreachable!(),
    }
}
