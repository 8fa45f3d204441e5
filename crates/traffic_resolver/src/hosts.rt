//! The hosts under which a Route and its tags are reached.
ghost use Rattle.std.specs.Prelude.{◌≡◌, IfOk};
ghost use Rattle.control_rules.specs.Resolution.{host_of, tag_address};
ghost use Rattle.controller_parts.specs.Names.{named};

use controller_parts::is_blank;
use json_tree::Text;
use resource_types::Name;
use std::alloc::{AllocError, Global};

/// The host of the Route of the name: its simple name, its namespace and the domain, with dots between them. A tag that
/// isn't empty stands first, with a dash.
pub fn host_of(
    alloc: Global,
    tag: &Text,
    name: &Text,
    space: &Text,
    domain: &Text,
) -> Result<Text, AllocError>
    ensures { IfOk result (λ host. host ≡ host_of tag.now (named space.now name.now) domain.now) }
{
    let mut host = String::from_str(alloc, tag.as_str())?;
    if !is_blank(tag) {
        host.push_str("-")?;
    }
    host.push_str(name.as_str())?;
    host.push_str(".")?;
    host.push_str(space.as_str())?;
    host.push_str(".")?;
    host.push_str(domain.as_str())?;
    Ok(Text::from_string(host))
}

/// The address of the Route's tag: `http://` and its host, or an empty text where the tag is empty.
pub fn tag_address(
    alloc: Global,
    tag: &Text,
    route: &Name,
    domain: &Text,
) -> Result<Text, AllocError>
    ensures { IfOk result (λ url. url ≡ tag_address tag.now route.now domain.now) }
{
    if is_blank(tag) {
        return Text::new(alloc, "");
    }
    let host = host_of(alloc, tag, &route.name, &route.space, domain)?;
    let mut url = String::from_str(alloc, "http://")?;
    url.push_str(host.as_str())?;
    Ok(Text::from_string(url))
}
