//! Conditions that a controller states.
ghost use Rattle.std.specs.Prelude.{◌≡◌, IfOk};
ghost use Rattle.std.specs.Option.{option_copied};
ghost use Rattle.control_rules.specs.Statuses.{stated, holding, about};
ghost use Rattle.controller_parts.specs.Conditions.{condition_of};

use json_tree::Text;
use resource_types::{CondName, Condition, Truth};
use std::alloc::{AllocError, Global};

/// A condition without a time. The message is made first.
pub fn stated(
    alloc: Global,
    name: CondName,
    truth: Truth,
    reason: &str,
    message: Text,
) -> Result<Condition, AllocError>
    ensures { IfOk result (λ c. c ≡ stated name truth reason.now message) }
{
    Ok(Condition {
        name,
        truth,
        reason: Text::new(alloc, reason)?,
        message,
        info: false,
        since: 0,
    })
}

/// A condition that holds, with neither reason nor message.
pub fn holding(alloc: Global, name: CondName) -> Result<Condition, AllocError>
    ensures { IfOk result (λ c. c ≡ holding name) }
{
    let message = Text::new(alloc, "")?;
    stated(alloc, name, Truth::True, "", message)
}

/// A name between two texts.
pub fn about(alloc: Global, before: &str, name: &Text, behind: &str) -> Result<Text, AllocError>
    ensures { IfOk result (λ t. t ≡ about before.now name.now behind.now) }
{
    let mut text = String::from_str(alloc, before)?;
    text.push_str(name.as_str())?;
    text.push_str(behind)?;
    Ok(Text::from_string(text))
}

/// The first condition of the name.
pub fn condition_of(conditions: &[Condition], name: CondName) -> Option<&Condition>
    ensures { option_copied result ≡ condition_of name conditions.now }
{
    for condition in conditions {
        if condition.name == name {
            return Some(condition);
        }
    }
    None
}
